// The leaves of tables, one table after the other.
ghost use Rattle.std.specs.Prelude.{◌≡◌, false, ◌/◌, ◌≤◌, length};
ghost use Rattle.carving.specs.Calls.{width_by, leaf_hits};
ghost use Rattle.hit.specs.Inner.{Space};
ghost use Rattle.tables.specs.Calls.{TablesPromises, asked, on_tables};
ghost use Rattle.tables.specs.Inner.{TableReady, table_asked, TableCarved, AllCarved, TablesCarved, told_of};
ghost use Rattle.tables.specs.declared.tables.Stopped.TheVariants.{Overflow as OutOfStack};
ghost use Rattle.walk.specs.Carve.{widest as widest_of};
ghost use Rattle.walk.specs.Inner.{Inside, Keeps, depth_of, TablesFit};
ghost use Rattle.sheet.specs.Inner.{told_by, Adds};

use carving::inner::{Carving, carve_page};
use hit::inner::Spot;
use page::inner::head_of;
use sheet::columns::room;
use sheet::inner::Sheet;
use sheet::refusal::Refusal;
use walk::inner::checks::{check, widest};
use walk::inner::{Overflow, Stack, begin, next_leaf};
use walk::walk::Walked;

// Why carving tables ends before its end.
#[derive(Clone, Copy, Debug, PartialEq, Eq)]
enum Stopped {
    // A row found no room.
    Full,
    // The walk's stack overflowed.
    Overflow,
}

impl From<Overflow> for Stopped {
    ghost from_gives = { λ _ s. s ≡ OutOfStack };

    fn from(_: Overflow) -> Stopped {
        Stopped::Overflow
    }
}

// Tables of a database are carved in some way.
#[derive(Clone, Copy)]
struct Carver<'a> {
    how: Carving,
    db: &'a [u8],
    size: usize,
}

impl Carver<'_> {
    // Carves the leaf p; none if a row found no room.
    fn carve_leaf(&self, p: u64, hints: &[u8], table: u16, sheet: &mut Sheet<'_>) -> Option<()>
        requires page_there { (1 ≤ p) × (p ≤ length self.now.db.now / self.now.size) }
        requires table_ready { TableReady self.now.how (length self.now.db.now) self.now.size (length hints.now) sheet.old }
        ensures { Adds (leaf_hits self.now.how self.now.db.now self.now.size table hints.now p) false
            sheet.old (told_by result sheet.new) sheet.new }
    {
        let start = (p as usize - 1) * self.size;
        let end = start + self.size;
        let spot = Spot {
            base: start as u64,
            start,
            table,
        };
        carve_page(
            self.how,
            &self.db[start..end],
            head_of(p),
            hints,
            spot,
            sheet,
        )
    }

    // Carves the leaves of one table.
    fn carve_table(
        &self,
        root: u64,
        hints: &[u8],
        table: u16,
        flags: &mut [u8],
        stack: &mut Stack<'_>,
        sheet: &mut Sheet<'_>,
    ) -> Result<(), Stopped>
        requires flag_for_each_page { length self.now.db.now / self.now.size ≤ length flags.old }
        requires table_ready { TableReady self.now.how (length self.now.db.now) self.now.size (length hints.now) sheet.old }
        ensures kept { Keeps stack.old stack.new }
        ensures carved { TableCarved
            (table_asked self.now.how self.now.db.now self.now.size root hints.now table (depth_of stack.old))
            sheet.old (told_of result sheet.new) sheet.new }
    {
        begin(root, flags, stack)?;
        while let Some(page) = next_leaf(self.db, self.size, flags, stack)? {
            self.carve_leaf(page, hints, table, sheet)
                .ok_or(Stopped::Full)?;
        }
        Ok(())
    }

    // Carves one table after the other, with flags for every page.
    fn carve_each(
        &self,
        roots: &[u64],
        counts: &[u64],
        hints: &[u8],
        flags: &mut [u8],
        stack: &mut Stack<'_>,
        sheet: &mut Sheet<'_>,
    ) -> Result<(), Stopped>
        requires taken_by_mode { widest_of counts.now ≤ width_by self.now.how }
        requires tables_fit { TablesFit (length self.now.db.now) self.now.size roots.now counts.now hints.now }
        requires flag_for_each_page { length self.now.db.now / self.now.size ≤ length flags.old }
        requires space { Space (widest_of counts.now) sheet.old }
        requires inside { Inside stack.old }
        ensures kept { Keeps stack.old stack.new }
        ensures carved { AllCarved
            (asked self.now.how self.now.db.now self.now.size roots.now counts.now hints.now
            flags.old stack.old.pages.now sheet.old.rows.now sheet.old.cols.now)
            sheet.old (told_of result sheet.new) sheet.new }
    {
        let mut from = 0;
        for (t, root) in roots.iter().enumerate() {
            let end = from + counts[t] as usize;
            self.carve_table(*root, &hints[from..end], t as u16, flags, stack, sheet)?;
            from = end;
        }
        Ok(())
    }

    // Carves tables that have passed the checks.
    fn carve_checked(
        &self,
        roots: &[u64],
        counts: &[u64],
        hints: &[u8],
        flags: &mut [u8],
        stack: &mut [u64],
        rows: &mut [u64],
        cols: &mut [u64],
    ) -> Walked
        requires taken_by_mode { widest_of counts.now ≤ width_by self.now.how }
        requires tables_fit { TablesFit (length self.now.db.now) self.now.size roots.now counts.now hints.now }
        ensures { TablesCarved
            (asked self.now.how self.now.db.now self.now.size roots.now counts.now hints.now flags.old stack.old rows.old cols.old)
            result rows.new cols.new }
    {
        if flags.len() < self.db.len() / self.size {
            return Walked::Short(0);
        }
        let width = widest(counts);
        let room = room(rows.len(), cols.len(), width);
        let mut stack = Stack::new(stack);
        // Made in place: of two slices that a call lends for one lifetime, a proof knows only the lengths afterwards.
        let mut sheet = Sheet {
            rows,
            cols,
            width,
            room,
            n: 0,
        };
        match self.carve_each(roots, counts, hints, flags, &mut stack, &mut sheet) {
            Ok(()) => Walked::Done(sheet.n),
            Err(Stopped::Full) => Walked::Full(sheet.room),
            Err(Stopped::Overflow) => Walked::Short(sheet.n),
        }
    }
}

// Tables are lent as roots, counts of columns, and all hints one after the other. Flags and stack may hold anything before. The lists stay
// apart, as the C interface lends them.
pub fn carve_tables(
    how: Carving,
    db: &[u8],
    size: u64,
    roots: &[u64],
    counts: &[u64],
    hints: &[u8],
    flags: &mut [u8],
    stack: &mut [u64],
    rows: &mut [u64],
    cols: &mut [u64],
) -> Result<Walked, Refusal>
    ensures { TablesPromises (asked how db.now size roots.now counts.now hints.now flags.old stack.old rows.old cols.old)
        (on_tables result flags.new stack.new rows.new cols.new) }
{
    if how.refuses(widest(counts)) {
        return Err(Refusal::ColumnCount);
    }
    check(db.len(), size, roots, counts, hints)?;
    let carver = Carver {
        how,
        db,
        size: size as usize,
    };
    let answer = carver.carve_checked(roots, counts, hints, flags, stack, rows, cols);
    flags.fill(0);
    stack.fill(0);
    Ok(answer)
}

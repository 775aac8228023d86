// Runs of bytes at the front or at the end of a slice.
ghost use Rattle.std.specs.Prelude.{◌≡◌, ◌≤◌, length};
ghost use Rattle.words.specs.Inner.{AllIn, Leads, Kept};
ghost use Rattle.words.specs.Runs.{is_blank, in_run, take_while, drop_while, drop_while_end, before_first, behind_first};

// Bytes of one kind, one behind the other.
#[derive(Clone, Copy, Debug, PartialEq, Eq)]
pub enum Run {
    Blanks,
    // Bytes that are no blanks.
    Word,
    // Bytes that are not this one.
    Until(u8),
    // Bytes that cannot be this capital letter, raised.
    Unlike(u8),
}

#[tactic(auto, unfolding(crate::specs::Runs::is_blank))]
pub fn is_blank(byte: u8) -> bool
    ensures { result ≡ is_blank byte }
{
    matches!(byte, 9..=13 | 32)
}

pub fn in_run(run: Run, byte: u8) -> bool
    ensures { result ≡ in_run run byte }
{
    match run {
        Run::Blanks => is_blank(byte),
        Run::Word => !is_blank(byte),
        Run::Until(end) => byte != end,
        // A letter and its capital are 32 apart.
        Run::Unlike(letter) => byte % 32 != letter % 32,
    }
}

// How many bytes of the run `s` starts with.
pub fn leading(s: &[u8], run: Run) -> usize
    ensures value { result ≡ length (take_while (in_run run) s.now) }
    ensures within { result ≤ length s.now }
{
    s.iter()
        .position(|byte| !in_run(run, *byte))
        .unwrap_or(s.len())
}

// Whether a block is of the run, each byte tested: a test for all at once is cheap.
fn all_in(block: &[u8], run: Run) -> bool
    ensures { AllIn (in_run run) block.now 0 (length block.now) result }
{
    let mut all = true;
    for byte in block {
        all &= in_run(run, *byte);
    }
    all
}

// How many bytes of the run `s` starts with, as far as they fill blocks of 8.
fn whole_blocks(s: &[u8], run: Run) -> usize
    ensures { Leads (in_run run) s.now result }
{
    8 * s
        .chunks_exact(8)
        .take_while(|block| all_in(block, run))
        .count()
}

// As `leading`, for runs that are long.
pub fn long_run(s: &[u8], run: Run) -> usize
    ensures value { result ≡ length (take_while (in_run run) s.now) }
    ensures within { result ≤ length s.now }
{
    let i = whole_blocks(s, run);
    i + leading(&s[i..], run)
}

// Where `s` ends without the run at its end.
pub fn kept(s: &[u8], run: Run) -> usize
    ensures value { result ≡ length (drop_while_end (in_run run) s.now) }
    ensures part { Kept (in_run run) s.now result }
{
    let behind = s
        .iter()
        .rev()
        .position(|byte| !in_run(run, *byte))
        .unwrap_or(s.len());
    s.len() - behind
}

pub fn dropped(s: &[u8], run: Run) -> &[u8]
    ensures { result.now ≡ drop_while (in_run run) s.now }
{
    &s[leading(s, run)..]
}

pub fn before_first(s: &[u8], byte: u8) -> &[u8]
    ensures { result.now ≡ before_first byte s.now }
{
    &s[..leading(s, Run::Until(byte))]
}

pub fn behind_first(s: &[u8], byte: u8) -> &[u8]
    ensures { result.now ≡ behind_first byte s.now }
{
    match dropped(s, Run::Until(byte)) {
        [_, behind @ ..] => behind,
        none => none,
    }
}

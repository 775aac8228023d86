// Text that is written to the front of a lent buffer, one piece behind the other. Callers show by proof that there is room.
ghost use Rattle.std.specs.Prelude.{◌≡◌, ◌+◌, ◌≤◌, ◌++◌, length, drop};
ghost use Rattle.digits.specs.Digits.{most_digits, hex_digits, decimal, field, hex_digit, hex8};
ghost use Rattle.digits.specs.Inner.{Room, Puts, Starts, most_field};

use io::decimal;

// The digits of the largest word.
pub const MOST_DIGITS: usize = 20;
// The digits of a confidence.
pub const HEX_DIGITS: usize = 8;

// Byte by byte: most texts that come here are a comma or a blank, and the library's copy is a call.
fn copy(from: &[u8], to: &mut [u8])
    requires { length to.old ≡ length from.now }
    ensures { to.new ≡ from.now }
{
    for i in 0..from.len() {
        to[i] = from[i];
    }
}

// Writes a number's digits to the front of as many cells as a number may have, and answers how many they are. All cells are copied out and
// back, however few digits there are: a copy of a fixed length is compiled to moves, and not to a call.
fn put_digits(n: u64, cells: &mut [u8]) -> usize
    requires { length cells.old ≡ most_digits }
    ensures count { result ≡ length (decimal n) }
    ensures few { result ≤ most_digits }
    ensures written { cells.new ≡ decimal n ++ drop (length (decimal n)) cells.old }
{
    let mut digits = [0; MOST_DIGITS];
    digits.copy_from_slice(cells);
    let len = decimal(n, &mut digits);
    cells.copy_from_slice(&digits);
    len
}

#[derive(Drop)]
pub struct Text<'a> {
    pub bytes: &'a mut [u8],
    // How many of them are written.
    pub len: usize,
}

impl<'a> Text<'a> {
    // Nothing is written yet.
    pub fn new(bytes: &'a mut [u8]) -> Text<'a>
        ensures same_buffer { result.bytes.ghost_name ≡ bytes.entry.ghost_name }
        ensures starts { Starts bytes.old result }
    {
        Text { bytes, len: 0 }
    }

    pub fn put_bytes(&mut self, bytes: &[u8])
        requires { Room self.old (length bytes.now) }
        ensures { Puts self.old bytes.now self.new }
    {
        let end = self.len + bytes.len();
        copy(bytes, &mut self.bytes[self.len..end]);
        self.len = end;
    }

    pub fn put_decimal(&mut self, n: u64)
        requires { Room self.old most_digits }
        ensures put { Puts self.old (decimal n) self.new }
        ensures near { self.new.len ≤ self.old.len + most_digits }
    {
        let at = self.len;
        let end = at + MOST_DIGITS;
        let len = put_digits(n, &mut self.bytes[at..end]);
        self.len = at + len;
    }

    // A number behind the bytes that lead to it.
    pub fn put_number_after(&mut self, front: &[u8], n: u64)
        requires { Room self.old (length front.now + most_digits) }
        ensures put { Puts self.old (front.now ++ decimal n) self.new }
        ensures near { self.new.len ≤ self.old.len + length front.now + most_digits }
    {
        self.put_bytes(front);
        self.put_decimal(n);
    }

    // A number, and the blank that ends its field.
    pub fn put_field(&mut self, n: u64)
        requires { Room self.old most_field }
        ensures put { Puts self.old (field n) self.new }
        ensures near { self.new.len ≤ self.old.len + most_field }
    {
        self.put_decimal(n);
        self.put_bytes(b" ");
    }

    // The last eight hexadecimal digits.
    pub fn put_hex(&mut self, n: u64)
        requires { Room self.old hex_digits }
        ensures put { Puts self.old (hex8 n) self.new }
        ensures near { self.new.len ≡ self.old.len + hex_digits }
    {
        self.put_bytes(&[
            hex_digit(n / 0x1000_0000),
            hex_digit(n / 0x100_0000),
            hex_digit(n / 0x10_0000),
            hex_digit(n / 0x1_0000),
            hex_digit(n / 0x1000),
            hex_digit(n / 0x100),
            hex_digit(n / 0x10),
            hex_digit(n),
        ]);
    }
}

#[tactic(auto, unfolding(crate::specs::Digits::hex_digit))]
fn hex_digit(n: u64) -> u8
    ensures { result ≡ hex_digit n }
{
    let digit = (n % 16) as u8;
    if digit < 10 {
        b'0' + digit
    } else {
        b'A' - 10 + digit
    }
}

// A column entry: four words that say where a value's body lies in a slice.
ghost use Rattle.std.specs.Prelude.{◌≡◌};
ghost use Rattle.record.specs.Entry.{bad_within, bad_entry, read_entry, refusal_of, entry_refusal, entry_bytes, body_state};

use crate::record::{Value, body_length, decode_serial_type};

// What a state says of its entry, as the C interface has it, so an entry may hold any number there: the body is there,
pub const BODY: u64 = 0;
// it does not fit,
pub const UNFIT: u64 = 1;
// the column is lost,
pub const LOST: u64 = 2;
// or the entry only pads a group. No state is higher.
pub const UNUSED: u64 = 3;

#[derive(Clone, Copy, Debug, PartialEq, Eq)]
pub struct Entry {
    pub state: u64,
    // The serial type, as a record holds it: any number is one.
    pub kind: u64,
    pub start: u64,
    pub len: u64,
}

impl Entry {
    // None is refusal 2: the entry names no value.
    #[tactic(auto, unfolding(crate::specs::Entry::read_entry, crate::specs::Entry::entry_refusal, crate::specs::Entry::bad_within))]
    pub fn read(self, bytes: &[u8]) -> Option<Value>
        ensures value { result ≡ read_entry self bytes.now }
        ensures number { refusal_of result ≡ entry_refusal self bytes.now }
    {
        match self.state {
            BODY => self.body(bytes),
            UNFIT..=UNUSED => Some(Value::Null),
            _ => None,
        }
    }

    // The value of an entry whose body is there.
    #[tactic(auto, using(crate::proofs::Values::decoded), unfolding(crate::specs::Entry::read_entry, crate::specs::Entry::bad_within))]
    fn body(self, bytes: &[u8]) -> Option<Value>
        requires { self.state ≡ body_state }
        ensures { result ≡ read_entry self bytes.now }
    {
        let start = self.start as usize;
        if start > bytes.len() {
            return None;
        }
        let (value, n) = decode_serial_type(self.kind, bytes, start)?;
        if self.len == n as u64 {
            Some(value)
        } else {
            None
        }
    }

    // Whether reading is refused, told without decoding the value.
    pub fn is_bad(self, bytes: &[u8]) -> bool
        ensures { result ≡ bad_entry self bytes.now }
    {
        self.is_bad_within(bytes.len())
    }

    // The same of a slice of so many bytes.
    #[tactic(auto, unfolding(crate::specs::Entry::bad_within))]
    pub fn is_bad_within(self, all: usize) -> bool
        ensures { result ≡ bad_within self all }
    {
        if self.state != BODY {
            return self.state > UNUSED;
        }
        let Some(n) = body_length(self.kind) else {
            return true;
        };
        let start = self.start as usize;
        self.len != n as u64 || (start > all || n > all - start)
    }

    // The bytes of a text or a blob, where they lie in the slice.
    pub fn view(self, bytes: &[u8]) -> &[u8]
        ensures { result.now ≡ entry_bytes self bytes.now }
    {
        let Some(value) = self.read(bytes) else {
            return &bytes[..0];
        };
        let start = value.start();
        let end = start + value.len();
        &bytes[start..end]
    }
}

// What a call answers, as the words that a C program has of it.
ghost use Rattle.std.specs.Prelude.{◌≡◌, ℕ};
ghost use Rattle.sheet.specs.Answer.{number_in, written_in};

use crate::refusal::Refusal;

pub trait Answer {
    ghost number_of: { Self → ℕ };

    ghost written_of: { Self → ℕ };

    // The refusal's number, 0 for none.
    fn number(self) -> u64
        ensures { result ≡ number_of self };

    // How many things are written.
    fn written(self) -> u64
        ensures { result ≡ written_of self };
}

// What is refused by a check writes nothing; in that alone the two methods differ.
impl<T: Answer + Drop> Answer for Result<T, Refusal> {
    ghost number_of = { λ r. number_in (T.number_of) r };

    ghost written_of = { λ r. written_in (T.written_of) r };

    fn number(self) -> u64 {
        match self {
            Ok(done) => done.number(),
            Err(refusal) => refusal.number(),
        }
    }

    fn written(self) -> u64 {
        match self {
            Ok(done) => done.written(),
            Err(_) => 0,
        }
    }
}

// What a call answers that has filled one lent list.
ghost use Rattle.sheet.specs.Answer.{end_number, end_written};

use crate::answer::Answer;
use crate::refusal::Refusal;

// No `Result`: what is full is refusal 9 and says beside it how many are written, as `list_written` promises.
#[derive(Clone, Copy, Debug, PartialEq, Eq)]
pub enum Filled {
    // How many things there are, all of them written.
    Done(usize),
    // How many are written, which fill the list; there are more.
    Full(usize),
}

impl Answer for Filled {
    ghost number_of = { end_number };

    ghost written_of = { end_written };

    fn number(self) -> u64 {
        match self {
            Filled::Done(_) => 0,
            Filled::Full(_) => Refusal::NoRoom.number(),
        }
    }

    fn written(self) -> u64 {
        match self {
            Filled::Done(n) | Filled::Full(n) => n as u64,
        }
    }
}

// Reading and writing for programs: what is not ready yet is waited for, and what failed is told from the end.
// An answer that says so has the error of the call that failed, so that `fail` can say why.
#![tactic(auto)]

ghost use Rattle.std.specs.Prelude.{true, ◌≡◌, ◌<◌, length, is_ok, IfOk, IfErr};
ghost use Rattle.streams.specs.Moving.{AtMost, StandsIn, is_whole, StillWhole};

use std::env::{Env, FillError};
use std::io::{Error, ErrorKind, Read, Write};
use std::thread;
use std::time::{Clock, Duration};

// A call that is not ready is tried again each hundredth of a second, for a minute.
const TRIES: u64 = 6_000;

const PAUSE: u64 = 10_000_000;

// A write that failed before the whole text was taken: how many bytes were, and why no more.
#[derive(Clone, Copy)]
pub struct Cut {
    pub count: usize,
    pub why: Error,
}

// Standard output, and what failed of all that was said so far. Once something did, nothing more is written.
#[derive(Clone, Copy)]
pub struct Output {
    rt: HostRuntime,
    failed: Option<Error>,
}

// Whether the program was given a word at that place; the first behind its name is at 1.
pub fn has_word(env: &impl Env, i: usize) -> bool {
    let mut space = [0u8; 1];
    matches!(env.arg(i, &mut space), Ok(_) | Err(FillError::TooLong))
}

fn pause(clock: &impl Clock) {
    thread::sleep(clock, Duration::from_nanos(PAUSE));
}

// None was moved yet: a signal came in between, or the other side is slower.
fn is_not_ready(moved: &std::io::Result<usize>) -> bool {
    matches!(moved, Err(error) if matches!(error.kind(), ErrorKind::Interrupted | ErrorKind::WouldBlock))
}

// Reads or writes once, as soon as that is ready; it moves as many bytes as it says, and `most` at most.
fn when_ready<F: FnMut() -> std::io::Result<usize>>(
    clock: &impl Clock,
    most: usize,
    mut once: F,
) -> std::io::Result<usize>
    requires { F.IsAlwaysCallable once }
    ensures { AtMost most result }
{
    let mut moved = once();
    for _ in 0..TRIES {
        if !is_not_ready(&moved) {
            break;
        }
        pause(clock);
        moved = once();
    }
    moved.map(|n| n.min(most))
}

// Fills the space, up to the end of the input, and says how far.
pub fn read_whole(
    clock: &impl Clock,
    file: &mut impl Read,
    space: &mut [u8],
) -> std::io::Result<usize>
    ensures { StandsIn space.new result }
{
    let mut done = 0;
    while done < space.len() {
        let rest = &mut space[done..];
        let most = rest.len();
        let n = when_ready(clock, most, || file.read(rest))?;
        if n == 0 {
            break;
        }
        done += n;
    }
    Ok(done)
}

// How many bytes of the text were taken: all of them, unless a write failed.
pub fn write_whole(clock: &impl Clock, file: &mut impl Write, text: &[u8]) -> Result<usize, Cut>
    ensures whole { IfOk result (λ n. n ≡ length text.now) }
    ensures cut { IfErr result (λ cut. cut.count < length text.now) }
{
    let mut done = 0;
    while done < text.len() {
        let rest = &text[done..];
        let moved = when_ready(clock, rest.len(), || file.write(rest));
        let n = moved.map_err(|why| Cut { count: done, why })?;
        if n == 0 {
            return Err(Cut {
                count: done,
                why: Error::from(ErrorKind::WriteZero),
            });
        }
        done += n;
    }
    Ok(done)
}

// On standard error; what is not taken there is lost.
pub fn say_aside(rt: HostRuntime, text: &[u8]) {
    let _ = write_whole(&rt, &mut rt.stderr(), text);
}

// A line on standard error: what failed, as the caller names it, a colon and the error's words.
pub fn fail(rt: HostRuntime, what: &[u8], error: Error) {
    say_aside(rt, what);
    say_aside(rt, b": ");
    say_words(rt, error);
    say_aside(rt, b"\n");
}

// Without the number that std puts behind them.
fn say_words(rt: HostRuntime, error: Error) {
    let Ok(text) = format!(in rt.alloc(); "{error}") else {
        return;
    };
    let words = text
        .split_once(" (os error ")
        .map_or(text.as_str(), |parts| parts.0);
    say_aside(rt, words.as_bytes());
}

impl Output {
    pub fn new(rt: HostRuntime) -> Self
        ensures { is_whole result ≡ true }
    {
        Output { rt, failed: None }
    }

    // Whether all that was said so far was taken.
    pub fn is_whole(&self) -> bool
        ensures { result ≡ is_whole self.now }
    {
        self.failed.is_none()
    }

    // It is whole where the whole text was taken.
    fn after(rt: HostRuntime, taken: Result<usize, Cut>) -> Self
        ensures { is_whole result ≡ is_ok taken }
    {
        Output {
            rt,
            failed: taken.err().map(|cut| cut.why),
        }
    }

    pub fn say(self, text: &[u8]) -> Self
        ensures { StillWhole self result }
    {
        if !self.is_whole() {
            return self;
        }
        Output::after(self.rt, write_whole(&self.rt, &mut self.rt.stdout(), text))
    }

    pub fn say_decimal(self, n: u64) -> Self
        ensures { StillWhole self result }
    {
        let mut digits = [0u8; 20];
        let k = io::decimal(n, &mut digits);
        self.say(&digits[..k])
    }

    pub fn say_hex(self, n: u64, width: usize) -> Self
        ensures { StillWhole self result }
    {
        let mut digits = [0u8; 16];
        let k = io::hex(n, width, &mut digits);
        self.say(&digits[..k])
    }

    // A line on standard error where something was not taken.
    pub fn end(self, name: &[u8]) {
        if let Some(error) = self.failed {
            fail(self.rt, name, error);
        }
    }
}

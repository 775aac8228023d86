// The file of cases that a program is given: opened, read case by case, and what is said when it ends.
use crate::case::{CASE, HEAD, call, is_whole, size};
use crate::line::{begin, heading};
use std::env::Env;
use std::fs::File;
use std::io::{Error, Read};
use std::str;
use std::time::Clock;
use streams::{Output, fail, has_word, read_whole, say_aside};

// A longer file is not read to its end, and the program says so.
const MOST_CASES: u64 = 1_000_000;

// Why no case comes any more.
#[derive(Clone, Copy)]
enum Stop {
    // The file ends here,
    End,
    // or in a case, or with a head that no case has.
    Broken,
    // It could not be read any further,
    Failed(Error),
    // or is longer than it may be.
    TooLong,
}

impl From<Error> for Stop {
    fn from(error: Error) -> Stop {
        Stop::Failed(error)
    }
}

fn complain(rt: HostRuntime, program: &[u8], text: &[u8]) {
    say_aside(rt, program);
    say_aside(rt, text);
}

fn complain_of(rt: HostRuntime, program: &[u8], text: &[u8], n: u64) {
    complain(rt, program, text);
    let mut digits = [0u8; 20];
    let k = io::decimal(n, &mut digits);
    say_aside(rt, &digits[..k]);
    say_aside(rt, b"\n");
}

fn has_one_word(rt: HostRuntime) -> bool {
    has_word(&rt, 1) && !has_word(&rt, 2)
}

// The file that the program's one word names, or none, and then it was said why.
fn open(rt: HostRuntime, program: &[u8]) -> Option<File> {
    if !has_one_word(rt) {
        complain(rt, program, b": name one file of cases: ");
        complain(rt, program, b" FILE\n");
        return None;
    }
    let mut word = io::buffer();
    let n = rt.arg(1, &mut word).unwrap_or(0);
    let Ok(path) = str::from_utf8(&word[..n]) else {
        complain(rt, program, b": the name of the file is not UTF-8\n");
        return None;
    };
    match File::open(&rt, path) {
        Ok(file) => Some(file),
        Err(error) => {
            fail(rt, path.as_bytes(), error);
            None
        }
    }
}

// Fills the space; the file may end before its first byte.
fn read_part(clock: &impl Clock, file: &mut impl Read, space: &mut [u8]) -> Result<(), Stop> {
    let n = read_whole(clock, file, space)?;
    if n == space.len() {
        Ok(())
    } else if n == 0 {
        Err(Stop::End)
    } else {
        Err(Stop::Broken)
    }
}

// The next case, at the front of the space.
fn read_case(clock: &impl Clock, file: &mut impl Read, case: &mut [u8; CASE]) -> Result<(), Stop> {
    read_part(clock, file, &mut case[..HEAD])?;
    if !is_whole(case) {
        return Err(Stop::Broken);
    }
    let size = size(case);
    let rest = case.get_mut(HEAD..size).ok_or(Stop::Broken)?;
    // Behind the head the file may not end.
    read_part(clock, file, rest).map_err(|stop| match stop {
        Stop::End => Stop::Broken,
        _ => stop,
    })
}

// Why no case comes behind the first n, where that is worth a word.
fn tell(rt: HostRuntime, program: &[u8], stop: Stop, n: u64) {
    match stop {
        Stop::TooLong => complain_of(
            rt,
            program,
            b": the cases are not read further than case ",
            n,
        ),
        Stop::Broken => complain_of(rt, program, b": the cases break off behind case ", n),
        Stop::Failed(error) => {
            complain(rt, program, b": ");
            fail(rt, b"the file of cases", error);
        }
        Stop::End if n == 0 => complain(rt, program, b": there is no case\n"),
        Stop::End => {}
    }
}

// What is said at the end, on standard error.
fn finish(rt: HostRuntime, said: Output, program: &[u8], stop: Stop, n: u64) {
    tell(rt, program, stop, n);
    if !said.is_whole() {
        complain(rt, program, b": ");
    }
    said.end(b"standard output");
}

// Says what a program answers to each case of the file that its one word names.
pub fn say_cases<F: FnMut(Output, &[u8]) -> Output>(rt: HostRuntime, program: &[u8], mut answer: F)
    requires { F.IsAlwaysCallable answer }
{
    let Some(mut file) = open(rt, program) else {
        return;
    };
    let mut case = [0; CASE];
    let mut said = Output::new(rt);
    for n in 0..MOST_CASES {
        if let Err(stop) = read_case(&rt, &mut file, &mut case) {
            return finish(rt, said, program, stop, n);
        }
        said = if call(&case) == 0 {
            heading(said, &case)
        } else {
            answer(begin(said, n + 1, &case), &case).say(b"\n")
        };
    }
    finish(rt, said, program, Stop::TooLong, MOST_CASES);
}

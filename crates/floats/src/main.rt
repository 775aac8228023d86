// Shares and reals by their bits, where no call of the C interface shows them: a line a case, to be held beside docs/RULES.md.
#![tactic(auto)]

mod reals;
mod shares;

use streams::Output;

fn main(rt: HostRuntime) {
    let said = shares::say_all(Output::new(rt));
    reals::say_all(said).end(b"floats: standard output");
}

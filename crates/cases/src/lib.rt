// Cases of calls: reading them, the lists that they are lent, and the line that says what came of one. oracle/README.md has the format.
#![tactic(auto)]

pub mod case;
pub mod files;
pub mod line;
pub mod lists;

// Headers whose length is lost: it is made up, and the types stand where the bytes begin.
#![tactic(auto)]

pub mod inner;
pub mod rebuilding;
pub mod ways;

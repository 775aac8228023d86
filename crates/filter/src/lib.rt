// Which offsets of a region can be passed over, since it is soon seen that no row starts there.
#![tactic(auto)]

pub mod inner;

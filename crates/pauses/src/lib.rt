// The test of 23: a pause that a run is to go on with, and the workspace that is lent with it.
#![tactic(auto)]

mod places; // places.rt: single registers
mod test; // test.rt: all registers, the whole test

pub use test::pause_ok;

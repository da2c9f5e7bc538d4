// The plan lines that work pair by pair: join and except.
#![tactic(auto)]

pub mod excepts;
pub mod joins;

pub use excepts::except_line;
pub use joins::join_line;

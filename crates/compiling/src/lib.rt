// Compiling: the plan of a query that is checked over a database.
#![tactic(auto)]

use plan::Plan;

mod lines; // lines.rt: the lines themselves
mod compiler; // compiler.rt: the plan of a checked query

pub use compiler::{compile, plan_of};

// A loop whose path is drafted: its delta register, and the place of its start line.
#[derive(Clone, Copy)]
pub struct Begun {
    pub delta: usize,
    pub place: usize,
}

// A plan in the making. loops: how many loops have begun.
#[derive(Clone, Copy)]
pub struct Draft {
    pub plan: Plan,
    pub begun: Option<Begun>,
    pub loops: usize,
}

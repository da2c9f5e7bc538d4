// The query: document 01's sheet, as lines of nodes.
#![tactic(auto)]

use algebra::{Condition, Pairing};
use relation::Columns;

pub mod forms; // forms.rt: the form of a query as a value (2, 1)
pub mod nodes; // nodes.rt: the line at an index and its operands
pub mod shape; // shape.rt: where nodes start (3)

pub use nodes::preceding;

// "node count … 1–128"
pub const NODES: usize = 128;

// A node line, by the format's words; filters are the lines `eq`, `ne`, `max` and `same`.
#[derive(Clone, Copy, Debug, PartialEq, Eq)]
pub enum Node {
    Table(u32),
    Var(u32),
    Fact(u32, u32),
    Pair(Pairing),
    Filter(Condition),
    Copy(u32, u32),
    Drop(u32),
    Fix(u32),
    Mu(u32),
    Last(u32),
}

#[derive(Clone, Copy, Debug, PartialEq, Eq)]
pub struct Line {
    pub node: Node,
}

// A sheet handed in as a value. Lines past the count mean nothing.
#[derive(Clone, Copy, Debug, PartialEq, Eq)]
pub struct Query {
    pub count: usize,
    pub lines: [Line; NODES],
}

// "variables 0–15"
pub const VARIABLES: usize = 16;

// A set of recursion variables.
#[derive(Clone, Copy, Debug, PartialEq, Eq)]
pub struct Variables {
    pub has: [bool; VARIABLES],
}

// What the check tells of each node, in node order: the index of its first line, its free variables, its columns.
#[derive(Clone, Copy, Debug, PartialEq, Eq)]
pub struct Facts {
    pub start: [usize; NODES],
    pub free: [Variables; NODES],
    pub columns: [Columns; NODES],
}

// What a check tells of an accepted query: the split sheet, in which each `mu` is a fix, with the facts of its nodes.
#[derive(Clone, Copy, Debug, PartialEq, Eq)]
pub struct Checked {
    pub query: Query,
    pub facts: Facts,
}

// Document 02's "Filters past the ordinary lines": the step of a checked query by kind 7, 8, 9, 10 or 11.
#![tactic(auto)]

use algebra::Condition;

mod find; // find.rt: what a kind finds at a node (12)
mod judge; // judge.rt: room for a node more (2), and the side's columns (22)
mod write; // write.rt: the rule's sheet, and the step

pub use write::pass;

// What a kind finds at a filter's node: the line that the filter goes past, and the filter where it is looked at or written again.
#[derive(Clone, Copy, Debug, PartialEq, Eq)]
pub enum Passed {
    PastUnion(Condition),
    PastLeft(Condition),
    PastRight(Condition),
    PastExcept,
    PastFilter,
}

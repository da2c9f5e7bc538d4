// Document 01's "Rearranging" and document 02's "Filters past the ordinary lines": the rewrite of a query by a kind from 1 to 11.
#![tactic(auto)]

mod find; // find.rt: what a kind finds at a node (12)
mod write; // write.rt: the rule's sheet, and the step of a checked query
mod steps; // steps.rt: a step, with the check in front

pub use steps::rewrite;

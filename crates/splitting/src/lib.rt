// Document 02's U4: each `mu` of a query is split into a fix, "after 3 and before 4".
#![tactic(auto)]

mod kinds; // kinds.rt: what each line is to the split
mod faults; // faults.rt: 20
mod emit; // emit.rt: the order of the split sheet's lines
mod sheet; // sheet.rt: the split sheet

use query::NODES;
pub use sheet::split;

// What a line is to the split: without operands, with one, with two, a union, a mu.
#[derive(Clone, Copy, Debug, PartialEq, Eq)]
enum Kind {
    Leaf,
    One,
    Two,
    Union,
    Mu,
}

// What the split reads of the nodes, by index: the kind of each, whether it is closed, and where its lines start.
#[derive(Drop)]
struct Known {
    kinds: [Kind; NODES],
    closed: [bool; NODES],
    starts: [usize; NODES],
}

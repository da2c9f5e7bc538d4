// Rows of slots: their order, the tests on one or two of them, and the rows made from them.
#![tactic(auto)]

pub mod changes;
pub mod rows;

pub use rows::{
    absent_zero, agree, combined, compare, compatible, less, passes, row_at, same_row, slot,
};

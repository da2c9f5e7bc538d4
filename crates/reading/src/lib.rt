// Reading a sheet's text and the lines of a steps file.
#![tactic(auto)]

mod query_reader;
mod step_reader;

pub use query_reader::{no_nodes, read_query, with_node};
pub use step_reader::{due_step, read_step};

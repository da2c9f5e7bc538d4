// Reading the lines of one table: its columns and its rows.
#![tactic(auto)]

pub mod list_reader;
pub mod row_reader;

// Reading a database from its text.
#![tactic(auto)]

mod database_reader;
mod table_reader;

pub use database_reader::read_database;

// Document 01's "Checking": a query over a database.
#![tactic(auto)]

mod second_pass; // second_pass.rt: 9 and 10
mod stages; // stages.rt: the check, one stage after the other

pub use stages::{check, check_query};

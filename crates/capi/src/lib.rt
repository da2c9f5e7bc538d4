// The engine for other languages: reading, checking, rewriting, compiling, allowances, running and going on over flat slices of u32, whose layout the crate `flat` says.
//
// A call returns its verdict as one number. A flat slice below its room gives 17 before any other test.
#![tactic(auto)]

mod calls;
mod part_calls; // part_calls.rt: runs that can be gone on with
mod panel_calls; // panel_calls.rt: the same at the panel's limits

pub use calls::{
    capeshard_allowance, capeshard_check, capeshard_compile, capeshard_read_database,
    capeshard_read_path, capeshard_read_query, capeshard_rewrite, capeshard_run,
};
pub use panel_calls::{
    capeshard_panel_allowance, capeshard_panel_begin, capeshard_panel_check,
    capeshard_panel_compile, capeshard_panel_read_path, capeshard_panel_read_query,
    capeshard_panel_resume, capeshard_panel_rewrite, capeshard_panel_run,
};
pub use part_calls::{capeshard_begin, capeshard_resume};

// The engine: the public functions of all layers, and lists of steps.
#![tactic(auto)]

mod steps;

pub use allowance::allowance;
pub use answering::{BYTES_TAKEN, answer};
pub use checking::{check, check_query};
pub use compiling::compile;
pub use database::check_database;
pub use loading::read_database;
pub use path_printing::print_path;
pub use path_queries::read_path;
pub use path_reading::PATH_BYTES;
pub use query_writing::write_query;
pub use reading::{read_query, read_step};
pub use rewriting::rewrite;
pub use run::{begin_run, resume, run};
pub use steps::{rewrite_each, run_rewritten};
pub use writing::{write_answer, write_refusal};

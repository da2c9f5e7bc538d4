// Writing document 01's output: an answer, or a refusal.
#![tactic(auto)]

mod answers;
mod refused;

pub use answers::write_answer;
pub use refused::write_refusal;

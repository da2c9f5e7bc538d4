// Reading document 01's text forms.
#![tactic(auto)]

pub mod line_reader;
pub mod number_reader;

// A line of a steps file.
#[derive(Clone, Copy, Debug, PartialEq, Eq)]
pub struct Step {
    pub kind: u32,
    pub node: u32,
}

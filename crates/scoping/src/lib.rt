// The first pass of the check (4 to 8): where variables stand.
#![tactic(auto)]

pub mod first_pass;
pub mod free;

pub use free::none_in;

// How large an allowance is enough: the tests of a run before 17, and the product of document 02 beside the plan.
#![tactic(auto)]

use plan::Plan;

mod tests; // tests.rt: 11, the sheet, 16
mod within; // within.rt: the plan and its product

pub use tests::runnable;
pub use within::allowance;

// What a caller is answered.
#[derive(Clone, Copy)]
pub struct Allowed {
    pub plan: Plan,
    pub budget: u32,
}

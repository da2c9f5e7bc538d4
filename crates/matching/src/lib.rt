// What a rule matches in a checked query.
#![tactic(auto)]

use algebra::Condition;

// What a kind finds at its node, by the indices of the operands' last lines: a fix, and the other operand.
#[derive(Clone, Copy, Debug, PartialEq, Eq)]
pub enum Found {
    FilterFix(Condition, usize),
    FixJoin(usize, usize),
    JoinFix(usize, usize),
    FixExcept(usize, usize),
    DropFix(u32, usize),
    FixFix(usize, usize),
}

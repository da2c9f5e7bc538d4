// The words of the algebra that lines and terms share. No code.
#![tactic(auto)]

// The two-operand operators: `pair=union`, `pair=join`, `pair=except`.
#[derive(Clone, Copy, Debug, PartialEq, Eq)]
pub enum Pairing {
    Union,
    Join,
    Except,
}

// What a filter line asks of a row: `eq=C,W`, `ne=C,W`, `max=C,W`, `same=C,D`.
#[derive(Clone, Copy, Debug, PartialEq, Eq)]
pub enum Condition {
    Eq(u32, u32),
    Ne(u32, u32),
    Max(u32, u32),
    Same(u32, u32),
}

// Sets of columns.
#![tactic(auto)]

ghost use Rattle.std.specs.Prelude.{◌≡◌, not, ◌&&◌};
ghost use Rattle.laws.specs.Lists.{every, all};
ghost use Rattle.algebra.specs.Columns.{named, no_cols, with, without, both};
ghost use Rattle.relation.specs.Rows.{columns, cols_of, columns_of};
ghost use Rattle.relation.specs.Columnwise.{same_at};

use algebra::Condition;
use relation::{COLUMNS, Columns};

// Whether a column is in the set; none past the last is.
pub fn has_column(cols: Columns, c: usize) -> bool
    ensures { result ≡ cols_of columns cols c }
{
    if c < COLUMNS { cols.has[c] } else { false }
}

pub fn no_columns() -> Columns
    ensures { result ≡ columns_of columns no_cols }
{
    Columns {
        has: [false; COLUMNS],
    }
}

pub fn with_column(cols: Columns, c: usize) -> Columns
    ensures { result ≡ columns_of columns (with (cols_of columns cols) c) }
{
    let mut more = cols;
    if c < COLUMNS {
        more.has[c] = true;
    }
    more
}

pub fn without_column(cols: Columns, c: usize) -> Columns
    ensures { result ≡ columns_of columns (without (cols_of columns cols) c) }
{
    let mut less = cols;
    if c < COLUMNS {
        less.has[c] = false;
    }
    less
}

// Whether a column is in either set.
fn in_either(a: Columns, b: Columns, c: usize) -> bool
    ensures { result ≡ both (cols_of columns a) (cols_of columns b) c }
{
    has_column(a, c) || has_column(b, c)
}

// The columns of either set.
pub fn both(a: Columns, b: Columns) -> Columns
    ensures { result ≡ columns_of columns (both (cols_of columns a) (cols_of columns b)) }
{
    let mut joined = Columns {
        has: [false; COLUMNS],
    };
    for c in 0..COLUMNS {
        joined.has[c] = in_either(a, b, c);
    }
    joined
}

// Whether both sets have a column or neither has.
fn same_at(a: Columns, b: Columns, c: usize) -> bool
    ensures { result ≡ same_at (cols_of columns a) (cols_of columns b) c }
{
    has_column(a, c) == has_column(b, c)
}

pub fn same_columns(a: Columns, b: Columns) -> bool
    ensures { result ≡ all (same_at (cols_of columns a) (cols_of columns b)) columns }
{
    for c in 0..COLUMNS {
        if !same_at(a, b, c) {
            return false;
        }
    }
    true
}

// Whether the set has a column at all.
pub fn any_column(cols: Columns) -> bool
    ensures { result ≡ not (all (λ c. not (cols_of columns cols c)) columns) }
{
    for c in 0..COLUMNS {
        if cols.has[c] {
            return true;
        }
    }
    false
}

fn has_both(cols: Columns, c: u32, d: u32) -> bool
    ensures { result ≡ cols_of columns cols c && cols_of columns cols d }
{
    has_column(cols, c as usize) && has_column(cols, d as usize)
}

// Whether the columns that a filter names are in the set.
pub fn names_held(condition: Condition, cols: Columns) -> bool
    ensures { result ≡ every (cols_of columns cols) (named condition) }
{
    match condition {
        Condition::Eq(c, _) | Condition::Ne(c, _) | Condition::Max(c, _) => {
            has_column(cols, c as usize)
        }
        Condition::Same(c, d) => has_both(cols, c, d),
    }
}

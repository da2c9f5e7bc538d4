// The tests of what a kind has found: a kind 7 needs room for a node more (2), kinds 8 and 9 a side that has the filter's columns (22).
ghost use Rattle.std.specs.Prelude.{◌≡◌, ◌<◌};
ghost use Rattle.laws.specs.Lists.{every};
ghost use Rattle.algebra.specs.Columns.{named};
ghost use Rattle.relation.specs.Rows.{columns, cols_of};
ghost use Rattle.query.specs.Lines.{node_limit};
ghost use Rattle.rewrite.specs.Places.{StartsLow, columns_at};
ghost use Rattle.rewrite.specs.Rewrite.{told};
ghost use Rattle.passing.specs.Passing.{room_at, side_at, pass_judged};

use super::Passed;
use super::find::{left_end, right_end};
use algebra::Condition;
use column_sets::names_held;
use database::Refusal;
use query::{Checked, Facts, Query};

// 2, "if the sheet, once split, is already at the node limit"
fn has_room(query: Query, limit: usize, found: Passed) -> bool
    ensures { result ≡ room_at limit query found }
{
    !matches!(found, Passed::PastUnion(_)) || query.count < limit
}

// Whether the side that ends at an index has a filter's columns.
fn side_holds(facts: Facts, side: usize, condition: Condition) -> bool
    requires { side < node_limit }
    ensures { result ≡ every (cols_of columns (columns_at facts side)) (named condition) }
{
    names_held(condition, facts.columns[side])
}

// 22, "the named side lacks a column of the filter"
fn has_side(sheet: Checked, i: usize, found: Passed) -> bool
    requires { (i < node_limit) × StartsLow sheet.facts }
    ensures { result ≡ side_at sheet.query sheet.facts i found }
{
    match found {
        Passed::PastLeft(condition) => side_holds(sheet.facts, left_end(sheet.facts, i), condition),
        Passed::PastRight(condition) => side_holds(sheet.facts, right_end(i), condition),
        _ => true,
    }
}

// 12, then 2 and 22: what is found, or the first test that is not met.
pub fn judged(
    sheet: Checked,
    limit: usize,
    i: usize,
    found: Option<Passed>,
) -> Result<Passed, Refusal>
    requires { (i < node_limit) × StartsLow sheet.facts }
    ensures { result ≡ told (pass_judged limit sheet.query sheet.facts i found) }
{
    let found = found.ok_or(Refusal::NoMatch)?;
    if !has_room(sheet.query, limit, found) {
        return Err(Refusal::NodeCount(0));
    }
    if !has_side(sheet, i, found) {
        return Err(Refusal::SideLacks);
    }
    Ok(found)
}

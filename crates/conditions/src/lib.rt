// The conditions of what a kind has found: "a column must be stable" (13), "a column must be unused" (14), the other operand must be closed (15).
#![tactic(auto)]

ghost use Rattle.std.specs.Prelude.{◌≡◌, not, ◌<◌, ◌≤◌, IfSome};
ghost use Rattle.laws.specs.Lists.{every, all};
ghost use Rattle.algebra.specs.Columns.{named};
ghost use Rattle.relation.specs.Rows.{columns, cols_of};
ghost use Rattle.query.specs.Lines.{node_limit};
ghost use Rattle.query.specs.FreeSets.{none_in};
ghost use Rattle.rewrite.specs.Places.{Sound, free_at};
ghost use Rattle.rewrite.specs.Rewrite.{told};
ghost use Rattle.matching.specs.Found.{Within, apart_at, filter_kept, shared_kept, others_fresh, drop_fresh, stable_at, unused_at, closed_at, judged_at};

use algebra::Condition;
use column_sets::has_column;
use database::Refusal;
use matching::Found;
use origins::unstable_columns;
use query::{Checked, Facts};
use relation::{COLUMNS, Columns};
use rewrite::path::used_columns;
use scoping::none_in;

// Of one column that an operand has: if the fix has it too, or lacks it, it is not marked.
fn apart_at(shared: bool, fix: Columns, other: Columns, marked: Columns, c: usize) -> bool
    ensures { result ≡ apart_at shared (cols_of columns fix) (cols_of columns other) (cols_of columns marked) c }
{
    let asked = has_column(other, c) && has_column(fix, c) == shared;
    !(asked && has_column(marked, c))
}

// None of the columns that an operand shares with a fix, or none of its others, is marked.
fn apart(shared: bool, fix: Columns, other: Columns, marked: Columns) -> bool
    ensures { result ≡ all (apart_at shared (cols_of columns fix) (cols_of columns other) (cols_of columns marked)) columns }
{
    for c in 0..COLUMNS {
        if !apart_at(shared, fix, other, marked, c) {
            return false;
        }
    }
    true
}

// "Shared columns are stable": those of a fix and an operand, by their indices.
fn shared_kept(sheet: Checked, fix: usize, other: usize) -> bool
    requires { (fix < sheet.query.count) × (other < sheet.query.count) × Sound sheet }
    ensures { result ≡ shared_kept sheet.query sheet.facts fix other }
{
    let unstable = unstable_columns(sheet, fix);
    apart(
        true,
        sheet.facts.columns[fix],
        sheet.facts.columns[other],
        unstable,
    )
}

// "the operand's other columns are not used"
fn others_fresh(sheet: Checked, fix: usize, other: usize) -> bool
    requires { (fix < sheet.query.count) × (other < sheet.query.count) × Sound sheet }
    ensures { result ≡ others_fresh sheet.query sheet.facts fix other }
{
    let used = used_columns(sheet, fix);
    apart(
        false,
        sheet.facts.columns[fix],
        sheet.facts.columns[other],
        used,
    )
}

// A filter names no column of a set.
#[tactic(auto, unfolding(laws::specs::Lists::every))]
fn none_named(condition: Condition, cols: Columns) -> bool
    ensures { result ≡ every (λ c. not (cols_of columns cols c)) (named condition) }
{
    match condition {
        Condition::Eq(c, _) | Condition::Ne(c, _) | Condition::Max(c, _) => {
            !has_column(cols, c as usize)
        }
        Condition::Same(c, d) => !has_column(cols, c as usize) && !has_column(cols, d as usize),
    }
}

// "The filter's columns are stable."
fn filter_kept(sheet: Checked, condition: Condition, fix: usize) -> bool
    requires { (fix < sheet.query.count) × Sound sheet }
    ensures { result ≡ filter_kept sheet.query sheet.facts condition fix }
{
    let unstable = unstable_columns(sheet, fix);
    none_named(condition, unstable)
}

// "The column is not used."
fn drop_fresh(sheet: Checked, column: u32, fix: usize) -> bool
    requires { (fix < sheet.query.count) × Sound sheet }
    ensures { result ≡ drop_fresh sheet.query sheet.facts column fix }
{
    let used = used_columns(sheet, fix);
    !has_column(used, column as usize)
}

// Whether the operand of an index is closed.
fn is_closed(facts: Facts, i: usize) -> bool
    requires { i < node_limit }
    ensures { result ≡ none_in (free_at facts i) }
{
    none_in(facts.free[i])
}

// 13; "Shared columns are stable in both."
fn stable(sheet: Checked, found: Found) -> bool
    requires { Within sheet.query found × Sound sheet }
    ensures { result ≡ stable_at sheet.query sheet.facts found }
{
    match found {
        Found::FilterFix(condition, fix) => filter_kept(sheet, condition, fix),
        Found::FixJoin(fix, other) | Found::JoinFix(other, fix) | Found::FixExcept(fix, other) => {
            shared_kept(sheet, fix, other)
        }
        Found::DropFix(_, _) => true,
        Found::FixFix(left, right) => {
            shared_kept(sheet, left, right) && shared_kept(sheet, right, left)
        }
    }
}

// 14; "each fix's other columns are not used by the other."
fn unused(sheet: Checked, found: Found) -> bool
    requires { Within sheet.query found × Sound sheet }
    ensures { result ≡ unused_at sheet.query sheet.facts found }
{
    match found {
        Found::FixJoin(fix, other) | Found::JoinFix(other, fix) => {
            others_fresh(sheet, fix, other)
        }
        Found::DropFix(column, fix) => drop_fresh(sheet, column, fix),
        Found::FixFix(left, right) => {
            others_fresh(sheet, left, right) && others_fresh(sheet, right, left)
        }
        Found::FilterFix(_, _) | Found::FixExcept(_, _) => true,
    }
}

// 15; "In 2 to 4 the other operand must be closed."
fn closed(sheet: Checked, found: Found) -> bool
    requires { Within sheet.query found × (sheet.query.count ≤ node_limit) }
    ensures { result ≡ closed_at sheet.facts found }
{
    match found {
        Found::FixJoin(_, other) | Found::JoinFix(other, _) | Found::FixExcept(_, other) => {
            is_closed(sheet.facts, other)
        }
        Found::FilterFix(_, _) | Found::DropFix(_, _) | Found::FixFix(_, _) => true,
    }
}

// "12 to 15 in order": what is found, or the first test that is not met.
pub fn judged(sheet: Checked, found: Option<Found>) -> Result<Found, Refusal>
    requires { IfSome found (Within sheet.query) × Sound sheet }
    ensures { result ≡ told (judged_at sheet.query sheet.facts found) }
{
    let found = found.ok_or(Refusal::NoMatch)?;
    if !stable(sheet, found) {
        return Err(Refusal::Unstable);
    }
    if !unused(sheet, found) {
        return Err(Refusal::Used);
    }
    if !closed(sheet, found) {
        return Err(Refusal::OpenOperand);
    }
    Ok(found)
}

// What a kind finds at a node of a checked query: "kind or node doesn't match a rule" (12).
ghost use Rattle.std.specs.Prelude.{◌≡◌, ◌<◌, ◌≤◌};
ghost use Rattle.query.specs.Lines.{node_limit};
ghost use Rattle.rewrite.specs.Places.{Sound};
ghost use Rattle.matching.specs.Found.{left_of, over_fix, filter_found, drop_found, join_found, except_found, pair_found, found_at};

use algebra::{Condition, Pairing};
use matching::Found;
use query::nodes::{has_step, node_at, preceding};
use query::{Checked, Facts, Node, Query};

// What is found over an operand, if that is a fix.
fn over_fix(query: Query, operand: usize, found: Found) -> Option<Found>
    requires { (operand < query.count) × (query.count ≤ node_limit) }
    ensures { result ≡ over_fix query operand found }
{
    has_step(node_at(query, operand)).then_some(found)
}

// Where the left operand of the pair of an index ends: just before its right one starts.
fn left_of(facts: Facts, i: usize) -> usize
    requires { i < node_limit }
    ensures { result ≡ left_of facts i }
{
    preceding(facts.start[preceding(i)])
}

// 1. "Filter over fix"
fn filter_found(query: Query, kind: u32, i: usize, condition: Condition) -> Option<Found>
    requires { (i < query.count) × (query.count ≤ node_limit) }
    ensures { result ≡ filter_found query kind i condition }
{
    if kind != 1 {
        return None;
    }
    let operand = preceding(i);
    over_fix(query, operand, Found::FilterFix(condition, operand))
}

// 5. "Drop over fix"
fn drop_found(query: Query, kind: u32, i: usize, column: u32) -> Option<Found>
    requires { (i < query.count) × (query.count ≤ node_limit) }
    ensures { result ≡ drop_found query kind i column }
{
    if kind != 5 {
        return None;
    }
    let operand = preceding(i);
    over_fix(query, operand, Found::DropFix(column, operand))
}

// 2. "Join, fix on the left"; 3. "The mirror of 2"; 6. "Join of two fixes"
fn join_found(sheet: Checked, kind: u32, i: usize) -> Option<Found>
    requires { (i < sheet.query.count) × Sound sheet }
    ensures { result ≡ join_found sheet.query sheet.facts kind i }
{
    let left = left_of(sheet.facts, i);
    let right = preceding(i);
    match kind {
        2 => over_fix(sheet.query, left, Found::FixJoin(left, right)),
        3 => over_fix(sheet.query, right, Found::JoinFix(left, right)),
        6 => {
            let found = over_fix(sheet.query, left, Found::FixFix(left, right))?;
            over_fix(sheet.query, right, found)
        }
        _ => None,
    }
}

// 4. "Except, fix on the left"
fn except_found(sheet: Checked, kind: u32, i: usize) -> Option<Found>
    requires { (i < sheet.query.count) × Sound sheet }
    ensures { result ≡ except_found sheet.query sheet.facts kind i }
{
    if kind != 4 {
        return None;
    }
    let left = left_of(sheet.facts, i);
    over_fix(sheet.query, left, Found::FixExcept(left, preceding(i)))
}

fn pair_found(sheet: Checked, kind: u32, i: usize, pairing: Pairing) -> Option<Found>
    requires { (i < sheet.query.count) × Sound sheet }
    ensures { result ≡ pair_found sheet.query sheet.facts kind i pairing }
{
    match pairing {
        Pairing::Union => None,
        Pairing::Join => join_found(sheet, kind, i),
        Pairing::Except => except_found(sheet, kind, i),
    }
}

// What a kind finds at the node of an index.
pub fn find(sheet: Checked, kind: u32, i: usize) -> Option<Found>
    requires { (i < sheet.query.count) × Sound sheet }
    ensures { result ≡ found_at sheet.query sheet.facts kind i }
{
    match node_at(sheet.query, i) {
        Node::Pair(pairing) => pair_found(sheet, kind, i, pairing),
        Node::Filter(condition) => filter_found(sheet.query, kind, i, condition),
        Node::Drop(column) => drop_found(sheet.query, kind, i, column),
        _ => None,
    }
}

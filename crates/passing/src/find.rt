// What a kind finds at a node of a checked query, "kind or node doesn't match a rule" (12), and where the sides of a pair stand.
ghost use Rattle.std.specs.Prelude.{◌≡◌, ◌<◌, ◌≤◌};
ghost use Rattle.query.specs.Lines.{node_limit};
ghost use Rattle.passing.specs.Passing.{right_end, right_start, left_end, pair_passed, under_passed, passed_at};

use super::Passed;
use algebra::{Condition, Pairing};
use query::nodes::{node_at, preceding};
use query::{Facts, Node, Query};

// Where the right side of the pair under the filter of an index ends, and where it starts.
pub fn right_end(i: usize) -> usize
    ensures { result ≡ right_end i }
{
    preceding(preceding(i))
}

pub fn right_start(facts: Facts, i: usize) -> usize
    requires { i < node_limit }
    ensures { result ≡ right_start facts i }
{
    facts.start[right_end(i)]
}

// Where its left side ends.
pub fn left_end(facts: Facts, i: usize) -> usize
    requires { i < node_limit }
    ensures { result ≡ left_end facts i }
{
    preceding(right_start(facts, i))
}

// 7: a union; 8 and 9: a join; 10: an except
fn pair_passed(kind: u32, condition: Condition, pairing: Pairing) -> Option<Passed>
    ensures { result ≡ pair_passed kind condition pairing }
{
    match pairing {
        Pairing::Union => (kind == 7).then_some(Passed::PastUnion(condition)),
        Pairing::Join => match kind {
            8 => Some(Passed::PastLeft(condition)),
            9 => Some(Passed::PastRight(condition)),
            _ => None,
        },
        Pairing::Except => (kind == 10).then_some(Passed::PastExcept),
    }
}

// What is found under a filter, by the line that it takes.
fn under_passed(kind: u32, condition: Condition, node: Node) -> Option<Passed>
    ensures { result ≡ under_passed kind condition node }
{
    match node {
        Node::Pair(pairing) => pair_passed(kind, condition, pairing),
        Node::Filter(_) => (kind == 11).then_some(Passed::PastFilter),
        _ => None,
    }
}

// What a kind finds at the node of an index.
pub fn passed_at(query: Query, kind: u32, i: usize) -> Option<Passed>
    requires { (i < query.count) × (query.count ≤ node_limit) }
    ensures { result ≡ passed_at query kind i }
{
    match node_at(query, i) {
        Node::Filter(condition) => under_passed(kind, condition, node_at(query, preceding(i))),
        _ => None,
    }
}

// The sheet that a rule writes, and the step: 12, then 2 and 22.
ghost use Rattle.std.specs.Prelude.{◌≡◌, true, ◌<◌, ◌≤◌};
ghost use Rattle.query.specs.Lines.{node_limit};
ghost use Rattle.rewrite.specs.Places.{Sound, StartsLow};
ghost use Rattle.rewrite.specs.Rewrite.{rewritten};
ghost use Rattle.passing.specs.Passing.{room_at, left_at, lowered_at, both_at, pass_written, pass_reply};

use super::Passed;
use super::find::{passed_at, right_start};
use super::judge::judged;
use algebra::Condition;
use query::nodes::preceding;
use query::{Checked, Node, Query};
use rewrite::Unchanged;
use rewrite::splice::{exchange, insert};

// Kinds 8 and 10: the filter moves before the right side's first line.
fn to_left(sheet: Checked, i: usize) -> Query
    requires { (i < node_limit) × StartsLow sheet.facts }
    ensures { result ≡ left_at sheet.query sheet.facts i }
{
    exchange(sheet.query, right_start(sheet.facts, i), i, i + 1)
}

// Kinds 9 and 11: the filter and the line that it takes are exchanged.
fn lowered(query: Query, i: usize) -> Query
    requires { i < node_limit }
    ensures { result ≡ lowered_at query i }
{
    exchange(query, preceding(i), i, i + 1)
}

// Kind 7: a second filter before the right side's first line, and the first one, now a line further, at the right side.
fn to_both(sheet: Checked, i: usize, condition: Condition) -> Query
    requires { (i < sheet.query.count) × (sheet.query.count < node_limit) × StartsLow sheet.facts }
    ensures { result ≡ both_at sheet.query sheet.facts i condition }
{
    let two = insert(
        sheet.query,
        right_start(sheet.facts, i),
        Node::Filter(condition),
    );
    lowered(two, i + 1)
}

// The sheet that the rule writes at the node of an index, if a node more has room where the kind adds one.
fn written(sheet: Checked, i: usize, found: Passed) -> Query
    requires { (i < sheet.query.count) × (room_at node_limit sheet.query found ≡ true) × Sound sheet }
    ensures { result ≡ pass_written sheet.query sheet.facts i found }
{
    match found {
        Passed::PastUnion(condition) => to_both(sheet, i, condition),
        Passed::PastLeft(_) | Passed::PastExcept => to_left(sheet, i),
        Passed::PastRight(_) | Passed::PastFilter => lowered(sheet.query, i),
    }
}

// The step of a kind from 7 to 11 at the node of an index of a checked query: the rule's query, or the query as given beside the refusal. No node count over
// `limit` is written.
pub fn pass(sheet: Checked, limit: usize, kind: u32, i: usize) -> Result<Query, Unchanged>
    requires { (i < sheet.query.count) × (limit ≤ node_limit) × Sound sheet }
    ensures { result ≡ rewritten sheet.query (pass_reply limit sheet.query sheet.facts kind i) }
{
    match judged(sheet, limit, i, passed_at(sheet.query, kind, i)) {
        Ok(found) => Ok(written(sheet, i, found)),
        Err(refusal) => Err(Unchanged {
            query: sheet.query,
            refusal,
        }),
    }
}

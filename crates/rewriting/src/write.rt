// The sheet that a rule of kinds 1 to 6 writes, 12 to 15 in order, and the step of a checked query.
ghost use Rattle.std.specs.Prelude.{◌≡◌, ◌<◌, ◌≤◌, IfSome};
ghost use Rattle.query.specs.Lines.{node_limit};
ghost use Rattle.rewrite.specs.Places.{Sound};
ghost use Rattle.rewrite.specs.Rewrite.{rewritten};
ghost use Rattle.matching.specs.Found.{Fits, Placed, moved_at, merged_at, written_at, reply_to};
ghost use Rattle.rewriting.specs.Steps.{step_reply};

use super::find::find;
use conditions::judged;
use database::Refusal;
use matching::Found;
use passing::pass;
use query::nodes::{node_at, preceding};
use query::{Checked, Query};
use rewrite::Unchanged;
use rewrite::nodes::fix_number;
use rewrite::splice::{exchange, merge};

// Kinds 1 to 5: step and fix move behind what follows them, up to the node's own line.
fn moved(sheet: Checked, i: usize, fix: usize) -> Query
    requires { (i < sheet.query.count) × (fix ≤ i) × Sound sheet }
    ensures { result ≡ moved_at sheet.query sheet.facts i fix }
{
    let step = sheet.facts.start[preceding(fix)];
    exchange(sheet.query, step, fix + 1, i + 1)
}

// Kind 6.
fn united(sheet: Checked, i: usize, left: usize, right: usize) -> Query
    requires { (i < sheet.query.count) × Fits sheet.facts i (Found.FixFix left right) × Sound sheet }
    ensures { result ≡ merged_at sheet.query sheet.facts i left right }
{
    let step = sheet.facts.start[preceding(left)];
    let right_step = sheet.facts.start[preceding(right)];
    let v = fix_number(node_at(sheet.query, left));
    let u = fix_number(node_at(sheet.query, right));
    merge(sheet.query, step, left, right_step, i, u, v)
}

// The sheet that the rule writes at the node of an index.
fn written(sheet: Checked, i: usize, found: Found) -> Query
    requires { (i < sheet.query.count) × Fits sheet.facts i found × Sound sheet }
    ensures { result ≡ written_at sheet.query sheet.facts i found }
{
    match found {
        Found::FilterFix(_, fix)
        | Found::FixJoin(fix, _)
        | Found::JoinFix(_, fix)
        | Found::FixExcept(fix, _)
        | Found::DropFix(_, fix) => moved(sheet, i, fix),
        Found::FixFix(left, right) => united(sheet, i, left, right),
    }
}

// "then 12 to 15 in order"
fn apply(sheet: Checked, i: usize, found: Option<Found>) -> Result<Query, Unchanged>
    requires { (i < sheet.query.count) × IfSome found (Fits sheet.facts i) × Sound sheet }
    ensures { result ≡ rewritten sheet.query (reply_to sheet.query sheet.facts i found) }
{
    match judged(sheet, found) {
        Ok(found) => Ok(written(sheet, i, found)),
        Err(refusal) => Err(Unchanged {
            query: sheet.query,
            refusal,
        }),
    }
}

// The step of a checked query, from what the check tells of its nodes. No node count over `limit` is written.
pub fn rewrite_checked(
    sheet: Checked,
    limit: usize,
    kind: u32,
    node: u32,
) -> Result<Query, Unchanged>
    requires { Placed sheet.query sheet.facts × (limit ≤ node_limit) }
    ensures { result ≡ rewritten sheet.query (step_reply limit sheet.query sheet.facts kind node) }
{
    let n = node as usize;
    if n == 0 || sheet.query.count < n {
        return Err(Unchanged {
            query: sheet.query,
            refusal: Refusal::NoMatch,
        });
    }
    let i = n - 1;
    if kind <= 6 {
        apply(sheet, i, find(sheet, kind, i))
    } else {
        pass(sheet, limit, kind, i)
    }
}

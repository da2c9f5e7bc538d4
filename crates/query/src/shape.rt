// The shape of a query (3): "a line takes the latest nodes not yet taken". The first line of each node, lowest node first.
ghost use Rattle.std.specs.Prelude.{◌≡◌, ℕ, ◌+◌, ◌-◌, ◌≤◌, ◌<◌, get_or};
ghost use Rattle.query.specs.Lines.{node_limit, nodes, term_of};
ghost use Rattle.query.specs.Shape.{arity, begin, shape_of};

use super::nodes::{node_at, operands};
use super::{NODES, Query};
use database::Refusal;

// Where the node of index i starts, by the starts of those before it; none where an operand is missing.
fn begin(count: usize, start: [usize; NODES], i: usize) -> Option<usize>
    requires { (i < node_limit) × ((k : ℕ) → get_or start k 0 ≤ k) }
    ensures { result ≡ begin count start i }
{
    if count == 0 {
        return Some(i);
    }
    let last = start[i.checked_sub(1)?];
    if count == 1 {
        return Some(last);
    }
    Some(start[last.checked_sub(1)?])
}

// The starts of all nodes; 3 at the first node whose operand is missing, else at the last node if several roots are left.
pub fn shape(query: Query) -> Result<[usize; NODES], Refusal>
    requires { (1 ≤ query.count) × (query.count ≤ node_limit) }
    ensures { result ≡ shape_of (term_of (nodes query)) }
{
    let mut start = [0; NODES];
    for i in 0..query.count {
        start[i] = begin(operands(node_at(query, i)), start, i).ok_or(Refusal::Operands(i + 1))?;
    }
    if start[query.count - 1] != 0 {
        return Err(Refusal::Operands(query.count));
    }
    Ok(start)
}

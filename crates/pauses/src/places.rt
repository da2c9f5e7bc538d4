// Single registers of a workspace that may hold anything: whether each may hold what it holds, and holds nothing else.
ghost use Rattle.std.specs.Prelude.{◌≡◌, true, ◌+◌, ◌≤◌, length};
ghost use Rattle.std.specs.Prelude.{Some, None};
ghost use Rattle.relation.specs.Rows.{columns, cols_of};
ghost use Rattle.query.specs.Shape.{has_step};
ghost use Rattle.pauses.specs.Places.{zeros, place_ok, is_var, node_ok, Room};

use database::rows_ok;
use query::Node;
use query::nodes::has_step;
use relation::{COLUMNS, Columns};

// Whether so many entries from a place on are zero.
pub fn zeros(ws: &[u32], start: usize, n: usize) -> bool
    requires { start + n ≤ length ws.now }
    ensures { result ≡ zeros ws.now start n }
{
    for i in 0..n {
        if ws[start + i] != 0 {
            return false;
        }
    }
    true
}

// Whether register i is zero.
fn empty_ok(ws: &[u32], limit: usize, i: usize) -> bool
    requires { Room columns limit i ws.now }
    ensures { result ≡ place_ok columns limit ws.now None i }
{
    let size = 1 + COLUMNS * limit;
    zeros(ws, size * i, size)
}

// Whether register i has at most `limit` rows, strictly ascending and within these columns, and zeros behind them. Its count is any number, so it
// is tested before it is multiplied.
fn register_ok(ws: &[u32], limit: usize, i: usize, set: Columns) -> bool
    requires { Room columns limit i ws.now }
    ensures { result ≡ place_ok columns limit ws.now (Some (cols_of columns set)) i }
{
    let start = (1 + COLUMNS * limit) * i;
    let count = ws[start] as usize;
    count <= limit
        && rows_ok(set, count, start + 1, ws)
        && zeros(ws, start + 1 + COLUMNS * count, COLUMNS * (limit - count))
}

fn is_var(node: Node) -> bool
    ensures { result ≡ is_var node }
{
    matches!(node, Node::Var(_))
}

// Whether the registers of a node may hold what they hold: its own, i, and a fix's delta register.
pub fn node_ok(ws: &[u32], limit: usize, node: Node, set: Columns, i: usize, delta: usize) -> bool
    requires { Room columns limit i ws.now × (has_step node ≡ true → Room columns limit delta ws.now) }
    ensures { result ≡ node_ok columns limit ws.now node (cols_of columns set) i delta }
{
    if is_var(node) {
        return empty_ok(ws, limit, i);
    }
    register_ok(ws, limit, i, set) && (!has_step(node) || register_ok(ws, limit, delta, set))
}

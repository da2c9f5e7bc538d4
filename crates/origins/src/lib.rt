// Document 02's U5: the origins of a step's columns, node by node in one pass over its lines, and the columns that are not stable by them.
#![tactic(auto)]

ghost use Rattle.std.specs.Prelude.{◌≡◌, ◌-◌, ◌≤◌, ◌<◌};
ghost use Rattle.relation.specs.Rows.{columns, cols_of};
ghost use Rattle.rewrite.specs.Places.{Sound};
ghost use Rattle.origins.specs.Origins.{number_at, pair_number, own_number, copied_number, dropped_number, origin_number, line_origins, step_origins, strayed, unstable_columns};

use algebra::Pairing;
use column_sets::has_column;
use query::nodes::{node_at, preceding};
use query::{Checked, NODES, Node};
use relation::{COLUMNS, Columns};

// Of a node's columns: for each the column of the variable that it comes from, or the number of columns where there is none.
#[derive(Clone, Copy)]
pub struct NodeOrigins {
    pub from: [usize; COLUMNS],
}

// The number held for a column; past the last column there is no origin.
fn number_at(held: NodeOrigins, c: usize) -> usize
    ensures { result ≡ number_at held c }
{
    if c < COLUMNS { held.from[c] } else { COLUMNS }
}

// "a union keeps an origin only where both sides agree"
fn agreed_number(left: usize, right: usize) -> usize
    ensures { result ≡ pair_number Pairing.Union left right }
{
    if left == right { left } else { COLUMNS }
}

// A join has its open side's origin: the other side's columns have none.
fn joined_number(left: usize, right: usize) -> usize
    ensures { result ≡ pair_number Pairing.Join left right }
{
    if left < COLUMNS { left } else { right }
}

// Of a column of a pair, from its sides' numbers.
fn pair_number(pairing: Pairing, left: usize, right: usize) -> usize
    ensures { result ≡ pair_number pairing left right }
{
    match pairing {
        Pairing::Union => agreed_number(left, right),
        Pairing::Join => joined_number(left, right),
        Pairing::Except => left,
    }
}

// "For the variable it is the column itself"
fn own_number(own: Columns, c: usize) -> usize
    ensures { result ≡ own_number (cols_of columns own) c }
{
    if has_column(own, c) { c } else { COLUMNS }
}

// "a copy passes it on"
fn copied_number(last: NodeOrigins, a: usize, b: usize, c: usize) -> usize
    ensures { result ≡ copied_number (number_at last) a b c }
{
    if c == b {
        number_at(last, a)
    } else {
        number_at(last, c)
    }
}

// "a drop removes it"
fn dropped_number(last: NodeOrigins, a: usize, c: usize) -> usize
    ensures { result ≡ dropped_number (number_at last) a c }
{
    if c == a { COLUMNS } else { number_at(last, c) }
}

// Of a column of a node, from its line, its columns and its operands' origins.
fn origin_number(node: Node, own: Columns, last: NodeOrigins, first: NodeOrigins, c: usize) -> usize
    ensures { result ≡ origin_number node (cols_of columns own) (number_at last) (number_at first) c }
{
    match node {
        Node::Table(_) | Node::Fact(_, _) | Node::Fix(_) | Node::Mu(_) => COLUMNS,
        Node::Var(_) => own_number(own, c),
        Node::Pair(pairing) => pair_number(pairing, number_at(first, c), number_at(last, c)),
        Node::Filter(_) | Node::Last(_) => number_at(last, c),
        Node::Copy(a, b) => copied_number(last, a as usize, b as usize, c),
        Node::Drop(a) => dropped_number(last, a as usize, c),
    }
}

// The origins of all columns of a node.
fn line_origins(node: Node, own: Columns, last: NodeOrigins, first: NodeOrigins) -> NodeOrigins
    ensures { result ≡ line_origins node own last first }
{
    let mut held = NodeOrigins {
        from: [COLUMNS; COLUMNS],
    };
    for c in 0..COLUMNS {
        held.from[c] = origin_number(node, own, last, first, c);
    }
    held
}

// Those of the nodes from an index on, up to another: the right operand of a node ends just before it, the left one before the right one starts.
fn step_origins(sheet: Checked, start: usize, end: usize) -> [NodeOrigins; NODES]
    requires { (start ≤ end) × (end ≤ sheet.query.count) × Sound sheet }
    ensures { result ≡ step_origins sheet.query sheet.facts start end }
{
    let none = NodeOrigins {
        from: [COLUMNS; COLUMNS],
    };
    let mut held = [none; NODES];
    for i in start..end {
        let right = preceding(i);
        let left = preceding(sheet.facts.start[right]);
        let node = node_at(sheet.query, i);
        held[i] = line_origins(node, sheet.facts.columns[i], held[right], held[left]);
    }
    held
}

// The columns that do not have themselves as origin.
fn strayed(held: NodeOrigins) -> Columns
    ensures { result ≡ strayed held }
{
    let mut found = Columns {
        has: [false; COLUMNS],
    };
    for c in 0..COLUMNS {
        found.has[c] = number_at(held, c) != c;
    }
    found
}

// "A column is stable if the step's result has it with itself as origin": of the step of the fix of an index, the columns that are not.
pub fn unstable_columns(sheet: Checked, fix: usize) -> Columns
    requires { (fix < sheet.query.count) × Sound sheet }
    ensures { result ≡ unstable_columns sheet.query sheet.facts fix }
{
    let last = preceding(fix);
    let held = step_origins(sheet, sheet.facts.start[last], fix);
    strayed(held[last])
}

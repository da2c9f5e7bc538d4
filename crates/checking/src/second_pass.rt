// "Second pass, lowest node: 9 or 10."
ghost use Rattle.std.specs.Prelude.{◌≡◌, not, ◌&&◌, ◌<◌, take};
ghost use Rattle.relation.specs.Rows.{columns, cols_of};
ghost use Rattle.database.specs.Stored.{schema};
ghost use Rattle.database.specs.Refusals.{verdict, no_fault};
ghost use Rattle.query.specs.Check.{sides_ok};
ghost use Rattle.query.specs.Shape.{Shaped, Formed};
ghost use Rattle.query.specs.Passes.{visits_of, visit_at, second_at, second_verdict};
ghost use Rattle.node_columns.specs.NodeColumns.{column_sets};

use algebra::Pairing;
use column_sets::{has_column, names_held, same_columns};
use database::{Database, Refusal};
use query::nodes::{node_at, preceding};
use query::{NODES, Node, Query};
use relation::Columns;
use scoping::first_pass::accept_if;

// Whether the sides of a pair may have these columns.
fn sides_agree(pairing: Pairing, left: Columns, right: Columns) -> bool
    ensures { result ≡ sides_ok columns pairing (cols_of columns left) (cols_of columns right) }
{
    match pairing {
        Pairing::Union => same_columns(left, right),
        Pairing::Join | Pairing::Except => true,
    }
}

// Whether a column can be copied to another: it is there, the other is not.
fn can_copy(cols: Columns, c: u32, d: u32) -> bool
    ensures { result ≡ cols_of columns cols c && not (cols_of columns cols d) }
{
    has_column(cols, c as usize) && !has_column(cols, d as usize)
}

// 9 or 10 at the node of index i.
fn second_fault(
    query: Query,
    database: Database,
    start: [usize; NODES],
    held: [Columns; NODES],
    i: usize,
) -> Result<(), Refusal>
    requires { Shaped query start × Formed query × (held ≡ column_sets (schema columns database) query) × (i < query.count) }
    ensures { result ≡ verdict (no_fault (second_at (schema columns database) (take i (visits_of (schema columns database) query)) (visit_at (schema columns database) query i))) }
{
    let node = node_at(query, i);
    let last = preceding(i);
    let first = preceding(start[last]);
    let right = held[last];
    let left = held[first];
    let tables = database.tables;
    match node {
        Node::Table(t) => accept_if((t as usize) < tables, Refusal::NoTable(i + 1)),
        Node::Pair(pairing) => accept_if(
            sides_agree(pairing, left, right),
            Refusal::ColumnFault(i + 1),
        ),
        Node::Filter(condition) => accept_if(
            names_held(condition, right),
            Refusal::ColumnFault(i + 1),
        ),
        Node::Copy(c, d) => accept_if(can_copy(right, c, d), Refusal::ColumnFault(i + 1)),
        Node::Drop(c) => accept_if(has_column(right, c as usize), Refusal::ColumnFault(i + 1)),
        Node::Fix(_) => accept_if(same_columns(right, left), Refusal::ColumnFault(i + 1)),
        Node::Last(c) => accept_if(has_column(right, c as usize), Refusal::ColumnFault(i + 1)),
        Node::Var(_) | Node::Fact(..) | Node::Mu(_) => Ok(()), // the first pass has refused a mu
    }
}

// The lowest node with 9 or 10.
pub fn second_pass(
    query: Query,
    database: Database,
    start: [usize; NODES],
    held: [Columns; NODES],
) -> Result<(), Refusal>
    requires { Shaped query start × Formed query × (held ≡ column_sets (schema columns database) query) }
    ensures { result ≡ second_verdict (schema columns database) query }
{
    for i in 0..query.count {
        second_fault(query, database, start, held, i)?;
    }
    Ok(())
}

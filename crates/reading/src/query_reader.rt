// Reading a sheet's text: "number 1 names the first bad line … and comes before 2".
ghost use Rattle.std.specs.Prelude.{◌≡◌, [], min};
ghost use Rattle.relation.specs.Rows.{columns};
ghost use Rattle.database.specs.Refusals.{verdict};
ghost use Rattle.query.specs.Lines.{node_limit};
ghost use Rattle.text.specs.Texts.{read_nodes, query_value};
ghost use Rattle.text.specs.Replies.{query_reply};
ghost use Rattle.text.specs.Cursors.{rest_at, Placed};
ghost use Rattle.reading.specs.QueryReading.{stored, end_test, line_nodes};

use database::Refusal;
use node_reading::due_node;
use query::{Line, NODES, Node, Query};
use text::line_reader::{Cursor, read_opening};

// A query without nodes.
pub fn no_nodes() -> Query
    ensures { result ≡ query_value [] }
{
    Query {
        count: 0,
        lines: [Line {
            node: Node::Table(0),
        }; NODES],
    }
}

// The query with one more node, where there is room for it.
pub fn with_node(query: Query, node: Node) -> Query
    ensures { result ≡ stored query node }
{
    if NODES <= query.count {
        return query;
    }
    let mut more = query;
    more.lines[query.count] = Line { node };
    more.count = query.count + 1;
    more
}

// Behind the last due line: what is left of the text is bad, and only then is the node count tested.
fn at_end(text: &[u8], c: Cursor, count: u32, limit: usize) -> Result<(), Refusal>
    ensures { result ≡ verdict (end_test (rest_at text.now c) count limit) }
{
    if c.at < text.len() {
        return Err(Refusal::QueryForm(c.line));
    }
    let n = count as usize;
    if n == 0 || limit.min(NODES) < n {
        return Err(Refusal::NodeCount(2));
    }
    Ok(())
}

// The announced node lines: the forms of all are looked at, and no more are stored than there is room for.
fn read_lines(text: &[u8], first: Cursor, count: u32, limit: usize) -> Result<Query, Refusal>
    requires { Placed first }
    ensures { result ≡ query_reply (line_nodes columns text.now first count limit) }
{
    let mut query = no_nodes();
    let mut c = first;
    for i in 0..count {
        let Some((node, next)) = due_node(text, c) else {
            return Err(Refusal::QueryForm(c.line));
        };
        query = with_node(query, node);
        c = next;
    }
    at_end(text, c, count, limit)?;
    Ok(query)
}

// Reads a sheet's text, with room for at most NODES nodes.
pub fn read_query(text: &[u8], limit: usize) -> Result<Query, Refusal>
    ensures { result ≡ query_reply (read_nodes columns (min limit node_limit) text.now) }
{
    match read_opening(text, b"nodes=", u32::MAX) {
        Ok((count, first)) => read_lines(text, first, count, limit),
        Err(bad) => Err(Refusal::QueryForm(bad.line)),
    }
}

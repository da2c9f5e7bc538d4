// From flat slices to values.
ghost use Rattle.std.specs.Prelude.{◌≡◌, ◌<◌, ◌≤◌, ◌+◌, ◌*◌, length, get_or, leb};
ghost use Rattle.laws.specs.Lists.{tabulate};
ghost use Rattle.relation.specs.Rows.{columns};
ghost use Rattle.database.specs.declared.Refusal.TheVariants.{ShortSlice};
ghost use Rattle.database.specs.Refusals.{verdict, require};
ghost use Rattle.database.specs.Stored.{table_limit};
ghost use Rattle.query.specs.Lines.{line, node_limit};
ghost use Rattle.flat.specs.Flat.{node_of, line_at, line_entries, query_room, query_of, column_set, table_width, database_room, database_of, have_room, pause_room, pause_in};

use super::{DATABASE_ROOM, FlatLine, LINE_ENTRIES, QUERY_ROOM, TABLE_ENTRIES};
use algebra::{Condition, Pairing};
use database::{Database, Refusal, TABLES};
use machine::Pause;
use query::{Line, NODES, Node, Query};
use relation::{COLUMNS, Columns};

// Refuses a slice of fewer entries than its room.
pub fn room_for(room: usize, slice: &[u32]) -> Result<(), Refusal>
    ensures { result ≡ verdict (require (leb room (length slice.now)) ShortSlice) }
{
    if slice.len() < room {
        return Err(Refusal::ShortSlice);
    }
    Ok(())
}

// Refuses the slices of a query and a database if either is short.
pub fn have_room(query: &[u32], database: &[u32]) -> Result<(), Refusal>
    ensures { result ≡ verdict (require (have_room query.now database.now) ShortSlice) }
{
    room_for(QUERY_ROOM, query)?;
    room_for(DATABASE_ROOM, database)
}

// The node line of a code and two numbers; the last one is off the form.
impl From<FlatLine> for Node {
    ghost from_gives = { λ line node. node ≡ node_of line };

    fn from(line: FlatLine) -> Node {
        let FlatLine { code, a, b } = line;
        match code {
            1 => Node::Table(a),
            2 => Node::Var(a),
            3 => Node::Fact(a, b),
            4 => Node::Pair(Pairing::Union),
            5 => Node::Pair(Pairing::Join),
            6 => Node::Pair(Pairing::Except),
            7 => Node::Filter(Condition::Eq(a, b)),
            8 => Node::Filter(Condition::Ne(a, b)),
            9 => Node::Filter(Condition::Max(a, b)),
            10 => Node::Filter(Condition::Same(a, b)),
            11 => Node::Copy(a, b),
            12 => Node::Drop(a),
            13 => Node::Fix(a),
            15 => Node::Mu(a),
            16 => Node::Last(a),
            _ => Node::Table(u32::MAX),
        }
    }
}

// The entries of a line.
fn line_at(query: &[u32], i: usize) -> FlatLine
    requires { 3 + line_entries * i < length query.now }
    ensures { result ≡ line_at query.now i }
{
    FlatLine {
        code: query[1 + LINE_ENTRIES * i],
        a: query[2 + LINE_ENTRIES * i],
        b: query[3 + LINE_ENTRIES * i],
    }
}

fn decode_lines(query: &[u32]) -> [Line; NODES]
    requires { query_room ≤ length query.now }
    ensures { result ≡ (query_of query.now).lines }
{
    let mut lines = [Line {
        node: Node::Table(0),
    }; NODES];
    for i in 0..NODES {
        lines[i] = Line {
            node: Node::from(line_at(query, i)),
        };
    }
    lines
}

// The query that a flat slice holds.
pub fn decode_query(query: &[u32]) -> Query
    requires { query_room ≤ length query.now }
    ensures { result ≡ query_of query.now }
{
    Query {
        count: query[0] as usize,
        lines: decode_lines(query),
    }
}

// The columns whose bits are set; none if a higher bit is.
fn column_set(bits: u32) -> Columns
    ensures { result ≡ column_set columns bits }
{
    let mut set = column_sets::no_columns();
    let mut rest = bits;
    for c in 0..COLUMNS {
        set.has[c] = rest % 2 == 1;
        rest /= 2;
    }
    if rest == 0 {
        return set;
    }
    column_sets::no_columns()
}

fn decode_columns(database: &[u32]) -> [Columns; TABLES]
    requires { database_room ≤ length database.now }
    ensures { result ≡ (database_of database.now).columns }
{
    let none = column_sets::no_columns();
    let mut sets = [none; TABLES];
    for t in 0..TABLES {
        sets[t] = column_set(database[1 + TABLE_ENTRIES * t]);
    }
    sets
}

fn decode_rows(database: &[u32]) -> [usize; TABLES]
    requires { database_room ≤ length database.now }
    ensures { result ≡ (database_of database.now).rows }
{
    let mut rows = [0usize; TABLES];
    for t in 0..TABLES {
        rows[t] = database[2 + TABLE_ENTRIES * t] as usize;
    }
    rows
}

// The database that a flat slice holds.
pub fn decode_database(database: &[u32]) -> Database
    requires { database_room ≤ length database.now }
    ensures { result ≡ database_of database.now }
{
    Database {
        tables: database[0] as usize,
        columns: decode_columns(database),
        rows: decode_rows(database),
    }
}

// The pause of two entries.
pub fn decode_pause(pause: &[u32]) -> Pause
    requires { pause_room ≤ length pause.now }
    ensures { result ≡ pause_in pause.now }
{
    Pause {
        next: pause[0],
        ran: pause[1],
    }
}

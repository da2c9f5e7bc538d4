// From values to flat slices.
ghost use Rattle.std.specs.Prelude.{◌≡◌, ◌<◌, ◌≤◌, ◌+◌, ◌*◌, Ok, [], ◌∷◌, length};
ghost use Rattle.std.proofs.lemmas.List.Edits.{sets};
ghost use Rattle.laws.specs.Lists.{when◌then◌else◌};
ghost use Rattle.machine.specs.Pauses.{stop_verdict};
ghost use Rattle.flat.specs.Flat.{entry, status, pair_line, filter_line, flat_line, query_room, flat_query, over, bits_of, run_room, told_entries, pause_room, flat_pause, told_after, pause_after, database_room, flat_database};

use super::{FlatLine, LINE_ENTRIES, TABLE_ENTRIES};
use algebra::{Condition, Pairing};
use database::{Database, Refusal, TABLES, row_count, table_columns};
use machine::{Pause, Progress, Ran};
use query::{NODES, Node, Query};
use refusals::{refusal_number, refusal_place};
use relation::{COLUMNS, Columns};

// What an entry holds of a number.
pub fn entry(n: usize) -> u32
    ensures { result ≡ entry n }
{
    n.min(u32::MAX as usize) as u32
}

// A verdict as one number.
pub fn status(verdict: Result<(), Refusal>) -> u64
    ensures { result ≡ status verdict }
{
    match verdict {
        Ok(()) => 0,
        Err(refusal) => {
            let number = refusal_number(refusal) as u64;
            let place = entry(refusal_place(refusal)) as u64;
            number * 4294967296 + place
        }
    }
}

impl From<Pairing> for FlatLine {
    ghost from_gives = { λ pairing line. line ≡ pair_line pairing };

    fn from(pairing: Pairing) -> FlatLine {
        let code = match pairing {
            Pairing::Union => 4,
            Pairing::Join => 5,
            Pairing::Except => 6,
        };
        FlatLine { code, a: 0, b: 0 }
    }
}

impl From<Condition> for FlatLine {
    ghost from_gives = { λ condition line. line ≡ filter_line condition };

    fn from(condition: Condition) -> FlatLine {
        match condition {
            Condition::Eq(a, b) => FlatLine { code: 7, a, b },
            Condition::Ne(a, b) => FlatLine { code: 8, a, b },
            Condition::Max(a, b) => FlatLine { code: 9, a, b },
            Condition::Same(a, b) => FlatLine { code: 10, a, b },
        }
    }
}

// The code and the numbers of a node line.
impl From<Node> for FlatLine {
    ghost from_gives = { λ node line. line ≡ flat_line node };

    fn from(node: Node) -> FlatLine {
        match node {
            Node::Table(a) => FlatLine { code: 1, a, b: 0 },
            Node::Var(a) => FlatLine { code: 2, a, b: 0 },
            Node::Fact(a, b) => FlatLine { code: 3, a, b },
            Node::Pair(pairing) => FlatLine::from(pairing),
            Node::Filter(condition) => FlatLine::from(condition),
            Node::Copy(a, b) => FlatLine { code: 11, a, b },
            Node::Drop(a) => FlatLine { code: 12, a, b: 0 },
            Node::Fix(a) => FlatLine { code: 13, a, b: 0 },
            Node::Mu(a) => FlatLine { code: 15, a, b: 0 },
            Node::Last(a) => FlatLine { code: 16, a, b: 0 },
        }
    }
}

// Writes a line's entries.
pub fn put_line(line: FlatLine, out: &mut [u32], at: usize)
    requires { at + 2 < length out.old }
    ensures { out.new ≡ sets out.old at (line.code ∷ (line.a ∷ (line.b ∷ []))) }
{
    out[at] = line.code;
    out[at + 1] = line.a;
    out[at + 2] = line.b;
}

// Writes a query's count and lines; the entries behind them stay.
pub fn encode_query(query: Query, out: &mut [u32])
    requires { query_room ≤ length out.old }
    ensures { out.new ≡ over (flat_query query) out.old }
{
    let count = query.count.min(NODES);
    for i in 0..count {
        let line = FlatLine::from(query.lines[i].node);
        put_line(line, out, 1 + LINE_ENTRIES * i);
    }
    out[0] = entry(count);
}

fn worth_if(has: bool, worth: u32) -> u32
    ensures { result ≡ (when has then worth else 0) }
{
    if has { worth } else { 0 }
}

// A set of columns as a number: column c is worth 2^c.
pub fn bits_of(set: Columns) -> u32
    ensures { result ≡ bits_of set }
{
    let mut bits: u32 = 0;
    let mut worth: u32 = 1;
    for c in 0..COLUMNS {
        bits += worth_if(set.has[c], worth);
        worth *= 2;
    }
    bits
}

// Writes what a finished run tells.
pub fn encode_run(told: Ran, out: &mut [u32])
    requires { run_room ≤ length out.old }
    ensures { out.new ≡ over (told_entries told) out.old }
{
    let entries = FlatLine {
        code: bits_of(told.columns),
        a: entry(told.rows),
        b: told.lines,
    };
    put_line(entries, out, 0);
}

// Writes a pause.
fn encode_pause(pause: Pause, out: &mut [u32])
    requires { pause_room ≤ length out.old }
    ensures { out.new ≡ over (flat_pause pause) out.old }
{
    out[0] = pause.next;
    out[1] = pause.ran;
}

// Writes what a run tells that can be gone on with: finished, into `out`; broken off, its pause.
pub fn encode_progress(
    progress: Progress,
    out: &mut [u32],
    pause: &mut [u32],
) -> Result<(), Refusal>
    requires { (run_room ≤ length out.old) × (pause_room ≤ length pause.old) }
    ensures { (result ≡ stop_verdict (Ok progress)) × (out.new ≡ told_after progress out.old) × (pause.new ≡ pause_after progress pause.old) }
{
    match progress {
        Progress::Finished(told) => {
            encode_run(told, out);
            Ok(())
        }
        Progress::Paused(place) => {
            encode_pause(place, pause);
            Err(Refusal::BudgetSpent)
        }
    }
}

// Writes a table's entries.
fn put_table(bits: u32, rows: u32, out: &mut [u32], at: usize)
    requires { at + 1 < length out.old }
    ensures { out.new ≡ sets out.old at (bits ∷ (rows ∷ [])) }
{
    out[at] = bits;
    out[at + 1] = rows;
}

// Writes a database's table count and tables; the entries behind them stay.
pub fn encode_database(database: Database, out: &mut [u32])
    requires { database_room ≤ length out.old }
    ensures { out.new ≡ over (flat_database database) out.old }
{
    let count = database.tables.min(TABLES);
    for t in 0..count {
        let bits = bits_of(table_columns(database, t));
        let rows = entry(row_count(database, t));
        put_table(bits, rows, out, 1 + TABLE_ENTRIES * t);
    }
    out[0] = entry(count);
}

// What the program `answer` prints for the bytes of its three files: "It takes 24 nodes (else 2), L = 24, 1,000,000 lines, 384 stored rows and
// 8,192 bytes a file (else 17)."
#![tactic(auto)]

ghost use Rattle.std.specs.Prelude.{◌≡◌, ◌≤◌, length};
ghost use Rattle.rewrite.specs.Rewrite.{told};
ghost use Rattle.text.specs.Lines.{whole};
ghost use Rattle.output.specs.Replies.{write_reply, slice_after};
ghost use Rattle.answering.specs.Answer.{apply_steps, answer_bytes};
ghost use Rattle.answering.specs.Stages.{cause_of, reply_room};

use checking::check;
use database::{Database, Refusal};
use loading::read_database;
use query::Query;
use reading::{due_step, read_query};
use relation::COLUMNS;
use rewriting::rewrite;
use run::run;
use writing::{write_answer, write_refusal};

pub const NODES_TAKEN: usize = 24;

pub const ROWS_TAKEN: usize = 24;

pub const LINES_TAKEN: u32 = 1000000;

pub const STORED_TAKEN: usize = 384;

pub const BYTES_TAKEN: usize = 8192;

// A register a node and at most one more a node, and the rows of an answer: any run that is taken has room.
const WORKSPACE: usize = (NODES_TAKEN + NODES_TAKEN) * (1 + COLUMNS * ROWS_TAKEN);

const ANSWER: usize = COLUMNS * ROWS_TAKEN;

const STORE: usize = COLUMNS * STORED_TAKEN;

// The refusal of a stage's answer.
pub fn cause<T: Copy>(told: Result<T, Refusal>) -> Refusal
    ensures { result ≡ cause_of told }
{
    match told {
        Err(refusal) => refusal,
        Ok(_) => Refusal::NoMatch,
    }
}

// "each steps line in turn": the query that the lines leave, or the first refusal.
fn apply_steps(
    query: Query,
    database: Database,
    store: &[u32],
    steps: &[u8],
) -> Result<Query, Refusal>
    ensures { result ≡ told (apply_steps (length steps.now) (whole steps.now) database store.now query) }
{
    let mut held = query;
    let mut place = 0;
    while place < steps.len() {
        let (step, next) = due_step(steps, place).ok_or(Refusal::NoMatch)?;
        held = rewrite(held, database, store, NODES_TAKEN, step.kind, step.node)?;
        place = next;
    }
    Ok(held)
}

// What `answer` prints, written into a lent slice; it always fits into the bytes that the program lends.
pub fn answer(sheet: &[u8], book: &[u8], steps: &[u8], out: &mut [u8]) -> Result<usize, Refusal>
    ensures { (result ≡ write_reply (answer_bytes sheet.now book.now steps.now) out.old)
        × (out.new ≡ slice_after (answer_bytes sheet.now book.now steps.now) out.old)
        × (length (answer_bytes sheet.now book.now steps.now) ≤ reply_room) }
{
    if BYTES_TAKEN < sheet.len() || BYTES_TAKEN < book.len() || BYTES_TAKEN < steps.len() {
        return write_refusal(Refusal::ShortSlice, out);
    }
    let mut store = [0u32; STORE];
    let stored = read_database(book, &mut store);
    let Ok(database) = stored else {
        return write_refusal(cause(stored), out);
    };
    let read = read_query(sheet, NODES_TAKEN);
    let Ok(query) = read else {
        return write_refusal(cause(read), out);
    };
    let checked = check(query, database, &store, NODES_TAKEN);
    let Ok(_) = checked else {
        return write_refusal(cause(checked), out);
    };
    let stepped = apply_steps(query, database, &store, steps);
    let Ok(left) = stepped else {
        return write_refusal(cause(stepped), out);
    };
    let mut workspace = [0u32; WORKSPACE];
    let mut rows = [0u32; ANSWER];
    let ended = run(
        left,
        database,
        &store,
        NODES_TAKEN,
        ROWS_TAKEN,
        LINES_TAKEN,
        &mut workspace,
        &mut rows,
    );
    let Ok(ran) = ended else {
        return write_refusal(cause(ended), out);
    };
    write_answer(ran.columns, &rows, ran.rows, ran.lines, out)
}

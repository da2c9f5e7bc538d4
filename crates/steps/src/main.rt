// Applies the lines of `steps.txt`, one after another, to the sheet `query.txt` over the book `database.txt`, and compiles the sheet that is left.
// The three stand in the folder that it is run in; one that is missing counts as empty. A write that fails ends the program with its error. It
// prints:
//   - of a book or a sheet whose text is refused, the refusal, and nothing else;
//   - for each steps line the sheet that comes back, which is the next line's, and in front of it the refusal if the step is refused. A line off
//     the form is refused with 12;
//   - the plan, or the refusal of compiling.
//
// A plan is `plan=N` and its N lines. A line is its number, from 0, a word and what the line reads and writes, with a blank between. R is a register
// (document 01's holder) from 0: that of a node is its number less 1, and behind those stand the fixes' newest.
//   table to=R table=T
//   fact to=R column=C value=W
//   union to=R left=R right=R columns=C,.. with=C,..   the columns of the left operand, and of the right one; join and except likewise
//   eq to=R from=R column=C value=W                    ne and max likewise
//   same to=R from=R column=C other=D
//   copy to=R from=R column=A new=B
//   drop to=R from=R column=A
//   start total=R newest=R from=R path=N               from the seed's register; the path has N lines
//   again total=R newest=R from=R path=N               from the step's register
#![tactic(auto)]

mod plan_text; // plan_text.rt: the text of a plan
mod printing; // printing.rt: what both print

use compiling::compile;
use database::{Database, Refusal, TABLE_ROWS};
use files::read_file;
use loading::read_database;
use plan_text::print_plan;
use printing::{print_query, print_refusal};
use query::{NODES, Query};
use reading::{read_query, read_step};
use relation::COLUMNS;
use rewrite::Unchanged;
use rewriting::rewrite;
use std::io;
use std::rt::Files;
use text::Step;
use text::line_reader::find;

// As many entries as one table can have.
const STORE: usize = COLUMNS * TABLE_ROWS;

// Room for each of the three texts.
const ROOM: usize = 65_536;

// A refused step: the refusal, and the sheet that comes back.
fn refused_step(rt: &impl Print, unchanged: Unchanged) -> io::Result<Query> {
    print_refusal(rt, unchanged.refusal)?;
    print_query(rt, unchanged.query)?;
    Ok(unchanged.query)
}

// The sheet that a steps line leaves, or the one that comes back.
fn step_line(
    query: Query,
    database: Database,
    store: &[u32],
    line: &[u8],
) -> Result<Query, Unchanged> {
    let Some(Step { kind, node }) = read_step(line) else {
        return Err(Unchanged {
            query,
            refusal: Refusal::NoMatch,
        });
    };
    rewrite(query, database, store, NODES, kind, node)
}

// The same, printed.
fn apply_line(
    rt: &impl Print,
    query: Query,
    database: Database,
    store: &[u32],
    line: &[u8],
) -> io::Result<Query> {
    match step_line(query, database, store, line) {
        Ok(next) => {
            print_query(rt, next)?;
            Ok(next)
        }
        Err(unchanged) => refused_step(rt, unchanged),
    }
}

// The sheet that is left after all lines. A last line that is not ended is off the form.
fn apply_lines(
    rt: &impl Print,
    query: Query,
    database: Database,
    store: &[u32],
    steps: &[u8],
) -> io::Result<Query> {
    let mut held = query;
    let mut at = 0;
    while at < steps.len() {
        let end = find(steps, at, b'\n');
        if steps.len() <= end {
            let refusal = Refusal::NoMatch;
            return refused_step(
                rt,
                Unchanged {
                    query: held,
                    refusal,
                },
            );
        }
        held = apply_line(rt, held, database, store, &steps[at..end])?;
        at = end + 1;
    }
    Ok(held)
}

fn show_plan(rt: &impl Print, query: Query, database: Database, store: &[u32]) -> io::Result<()> {
    match compile(query, database, store, NODES) {
        Ok(plan) => print_plan(rt, plan),
        Err(refusal) => print_refusal(rt, refusal),
    }
}

fn show_steps(
    rt: &(impl Files + Print),
    query: Query,
    database: Database,
    store: &[u32],
) -> io::Result<()> {
    let mut text = [0u8; ROOM];
    let n = read_file(rt, "steps.txt", &mut text);
    let last = apply_lines(rt, query, database, store, &text[..n])?;
    show_plan(rt, last, database, store)
}

fn show_query(rt: &(impl Files + Print), database: Database, store: &[u32]) -> io::Result<()> {
    let mut text = [0u8; ROOM];
    let n = read_file(rt, "query.txt", &mut text);
    match read_query(&text[..n], NODES) {
        Ok(query) => show_steps(rt, query, database, store),
        Err(refusal) => print_refusal(rt, refusal),
    }
}

fn main(rt: HostRuntime) -> io::Result<()> {
    let mut text = [0u8; ROOM];
    let mut store = [0u32; STORE];
    let n = read_file(&rt, "database.txt", &mut text);
    match read_database(&text[..n], &mut store) {
        Ok(database) => show_query(&rt, database, &store),
        Err(refusal) => print_refusal(&rt, refusal),
    }
}

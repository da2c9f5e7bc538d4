// Reads the texts of the folder that it is run in, and prints what was read or the first refusal: `step.txt`, a line of a steps file without its
// last byte; or `database.txt`, a book, and `query.txt`, a sheet, which is checked if both are there. Of these the last is printed. A write that
// fails ends the program with its error.
#![tactic(auto)]

ghost use Rattle.std.specs.Prelude.{◌≤◌};

use checking::check;
use database::{Database, Refusal, TABLE_ROWS, row_count, table_columns};
use files::read_file;
use loading::read_database;
use query::{NODES, Query};
use query_writing::write_query;
use reading::{read_query, read_step};
use relation::{COLUMNS, Columns};
use std::rt::Files;
use std::{fs, io};
use writing::{write_answer, write_refusal};

// The store has room for one table of as many rows as a table can have.
const STORE: usize = COLUMNS * TABLE_ROWS;

// The lengths of an answer's first line, `guide=1`, and of its last, `ran=0`.
const FIRST: usize = 8;

const LAST: usize = 6;

// Room for a step, a refusal or a sheet that is printed, and for a book, a sheet that is read or a table.
const SMALL: usize = 4096;

const LARGE: usize = 65_536;

fn is_there(rt: &impl Files, name: &str) -> bool {
    fs::open(rt, name).is_ok()
}

fn print_written(rt: &impl Print, written: Result<usize, Refusal>, text: &[u8]) -> io::Result<()> {
    match written {
        Ok(n) if n <= text.len() => rt.write_all(&text[..n]),
        Ok(_) => Ok(()),
        Err(_) => println!(rt; "short"),
    }
}

fn print_refusal(rt: &impl Print, refusal: Refusal) -> io::Result<()> {
    let mut out = [0u8; SMALL];
    let written = write_refusal(refusal, &mut out);
    print_written(rt, written, &out)
}

fn print_query(rt: &impl Print, query: Query) -> io::Result<()> {
    let mut out = [0u8; SMALL];
    let written = write_query(query, &mut out);
    print_written(rt, written, &out)
}

// The lines of a table: those of an answer but the first and the last.
fn print_table(rt: &impl Print, columns: Columns, rows: &[u32], count: usize) -> io::Result<()> {
    let mut out = [0u8; LARGE];
    match write_answer(columns, rows, count, 0, &mut out) {
        Ok(n) if FIRST + LAST <= n && n <= out.len() => rt.write_all(&out[FIRST..n - LAST]),
        Ok(_) => Ok(()),
        Err(_) => println!(rt; "short"),
    }
}

// Where the next table's rows begin, or the end of the store.
fn rows_behind(from: usize, count: usize, entries: usize) -> usize
    requires { from ≤ entries }
    ensures { result ≤ entries }
{
    if TABLE_ROWS < count || entries - from < COLUMNS * count {
        return entries;
    }
    from + COLUMNS * count
}

fn print_tables(rt: &impl Print, database: Database, store: &[u32]) -> io::Result<()> {
    let mut from = 0;
    for t in 0..database.tables {
        let count = row_count(database, t);
        print_table(rt, table_columns(database, t), &store[from..], count)?;
        from = rows_behind(from, count, store.len());
    }
    Ok(())
}

fn print_database(rt: &impl Print, database: Database, store: &[u32]) -> io::Result<()> {
    println!(rt; "guide=1\ntables={}", database.tables)?;
    print_tables(rt, database, store)
}

fn show_step(rt: &(impl Files + Print)) -> io::Result<()> {
    let mut text = [0u8; SMALL];
    let n = read_file(rt, "step.txt", &mut text);
    match read_step(&text[..n]) {
        Some(step) => println!(rt; "step={},{}", step.kind, step.node),
        None => print_refusal(rt, Refusal::NoMatch),
    }
}

// The sheet's text, if it is there.
fn given_query(rt: &impl Files) -> Result<Query, Refusal> {
    let mut text = [0u8; LARGE];
    let n = read_file(rt, "query.txt", &mut text);
    read_query(&text[..n], NODES)
}

// The sheet, checked over a book.
fn checked_query(rt: &impl Files, database: Database, store: &[u32]) -> Result<Query, Refusal> {
    let query = given_query(rt)?;
    check(query, database, store, NODES)?;
    Ok(query)
}

fn show_query(rt: &impl Print, read: Result<Query, Refusal>) -> io::Result<()> {
    match read {
        Ok(query) => print_query(rt, query),
        Err(refusal) => print_refusal(rt, refusal),
    }
}

fn show_stored(rt: &(impl Files + Print), database: Database, store: &[u32]) -> io::Result<()> {
    if is_there(rt, "query.txt") {
        return show_query(rt, checked_query(rt, database, store));
    }
    print_database(rt, database, store)
}

fn show_database(rt: &(impl Files + Print)) -> io::Result<()> {
    let mut store = [0u32; STORE];
    let mut text = [0u8; LARGE];
    let n = read_file(rt, "database.txt", &mut text);
    match read_database(&text[..n], &mut store) {
        Ok(database) => show_stored(rt, database, &store),
        Err(refusal) => print_refusal(rt, refusal),
    }
}

fn main(rt: HostRuntime) -> io::Result<()> {
    if is_there(&rt, "step.txt") {
        return show_step(&rt);
    }
    if is_there(&rt, "database.txt") {
        return show_database(&rt);
    }
    show_query(&rt, given_query(&rt))
}

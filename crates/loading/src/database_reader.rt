// Reading a database's text: "Reading a book tests the form before the store's length, 8 entries a row."
ghost use Rattle.std.specs.Prelude.{◌≡◌, ◌≤◌};
ghost use Rattle.relation.specs.Rows.{columns};
ghost use Rattle.database.specs.Stored.{table_limit};
ghost use Rattle.database.specs.declared.Refusal.TheVariants.{DatabaseForm};
ghost use Rattle.text.specs.Texts.{read_tables, table_entries};
ghost use Rattle.text.specs.Replies.{database_reply, load_tables, store_after};
ghost use Rattle.text.specs.Lines.{ended};
ghost use Rattle.text.specs.Cursors.{Placed, rest_at};
ghost use Rattle.loading.specs.Loading.{stores, read_entries, MayStore, text_reply, text_or, tables_behind, OnForm};

use crate::table_reader::{ReadText, no_tables, read_tables};
use database::{Database, Refusal, TABLES};
use text::line_reader::{Cursor, read_opening};

// Behind the last due line: what is left of the text is bad.
fn at_end(text: &[u8], c: Cursor, read: ReadText) -> Result<ReadText, Refusal>
    ensures { result ≡ text_or read (ended DatabaseForm (rest_at text.now c)) }
{
    if c.at < text.len() {
        Err(Refusal::DatabaseForm(c.line))
    } else {
        Ok(read)
    }
}

// The announced tables, and nothing after the last.
fn read_behind(
    text: &[u8],
    first: Cursor,
    count: u32,
    store: &mut [u32],
    write: bool,
) -> Result<ReadText, Refusal>
    requires { Placed first × (count ≤ table_limit) × MayStore table_entries write 0 store.old (tables_behind columns text.now first count) }
    ensures value { result ≡ text_reply (tables_behind columns text.now first count) }
    ensures store_after { store.new ≡ stores write 0 (read_entries table_entries (tables_behind columns text.now first count)) store.old }
{
    match read_tables(text, first, count, store, write) {
        Ok((read, c)) => at_end(text, c, read),
        Err(bad) => Err(Refusal::DatabaseForm(bad.line)),
    }
}

// A walk over a whole text.
fn read_text(text: &[u8], store: &mut [u32], write: bool) -> Result<ReadText, Refusal>
    requires { MayStore table_entries write 0 store.old (read_tables columns text.now) }
    ensures value { result ≡ text_reply (read_tables columns text.now) }
    ensures store_after { store.new ≡ stores write 0 (read_entries table_entries (read_tables columns text.now)) store.old }
{
    match read_opening(text, b"tables=", TABLES as u32) {
        Ok((count, first)) => read_behind(text, first, count, store, write),
        Err(bad) => Err(Refusal::DatabaseForm(bad.line)),
    }
}

// The rows of a text on the form are stored if the store has room for their entries.
fn store_rows(text: &[u8], store: &mut [u32], size: usize) -> Result<Database, Refusal>
    requires { OnForm text.now size }
    ensures value { result ≡ database_reply columns (load_tables columns text.now store.old) }
    ensures store_after { store.new ≡ store_after (load_tables columns text.now store.old) store.old }
{
    if store.len() < size {
        return Err(Refusal::ShortSlice);
    }
    let read = read_text(text, store, true)?;
    Ok(read.database)
}

// Reads a database's text and stores its rows from the store's start on. A refusal leaves the store as it was. "A book of zero bytes shall mean
// the same as `guide=1` and `tables=0`."
pub fn read_database(text: &[u8], store: &mut [u32]) -> Result<Database, Refusal>
    ensures value { result ≡ database_reply columns (load_tables columns text.now store.old) }
    ensures store_after { store.new ≡ store_after (load_tables columns text.now store.old) store.old }
{
    if text.is_empty() {
        let database = no_tables();
        return Ok(database);
    }
    let seen = read_text(text, store, false)?;
    store_rows(text, store, seen.size)
}

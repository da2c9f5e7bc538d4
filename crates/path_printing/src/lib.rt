// What the program `path` prints for the bytes of its two files (02, U6): the sheet of the path over the book, or the refusal.
#![tactic(auto)]

ghost use Rattle.std.specs.Prelude.{◌≡◌, ◌≤◌, length};
ghost use Rattle.text.specs.Replies.{query_reply};
ghost use Rattle.output.specs.Replies.{write_reply, slice_after};
ghost use Rattle.answering.specs.Stages.{reply_room};
ghost use Rattle.path_printing.specs.Printed.{path_over, path_bytes};

use answering::{BYTES_TAKEN, STORED_TAKEN, cause};
use database::Refusal;
use loading::read_database;
use path_queries::read_path;
use path_reading::check_path;
use query::{NODES, Query};
use query_writing::write_query;
use relation::COLUMNS;
use writing::write_refusal;

const STORE: usize = COLUMNS * STORED_TAKEN;

// The sheet of a path over a book's text.
fn read_over(path: &[u8], book: &[u8]) -> Result<Query, Refusal>
    ensures { result ≡ query_reply (path_over path.now book.now) }
{
    check_path(path)?;
    if BYTES_TAKEN < book.len() {
        return Err(Refusal::ShortSlice);
    }
    let mut store = [0u32; STORE];
    let database = read_database(book, &mut store[..])?;
    read_path(path, database, &store[..], NODES)
}

// What `path` prints, written into a lent slice; it always fits into the bytes that the program lends.
pub fn print_path(path: &[u8], book: &[u8], out: &mut [u8]) -> Result<usize, Refusal>
    ensures { (result ≡ write_reply (path_bytes path.now book.now) out.old)
        × (out.new ≡ slice_after (path_bytes path.now book.now) out.old)
        × (length (path_bytes path.now book.now) ≤ reply_room) }
{
    let read = read_over(path, book);
    let Ok(query) = read else {
        return write_refusal(cause(read), out);
    };
    write_query(query, out)
}

// Printing refusals and sheets.
use database::Refusal;
use query::Query;
use query_writing::write_query;
use std::io;
use writing::write_refusal;

// Room for a refusal or a sheet.
const ROOM: usize = 4096;

fn print_written(rt: &impl Print, written: Result<usize, Refusal>, text: &[u8]) -> io::Result<()> {
    match written {
        Ok(n) if n <= text.len() => rt.write_all(&text[..n]),
        Ok(_) => Ok(()),
        Err(_) => println!(rt; "short"),
    }
}

pub(crate) fn print_refusal(rt: &impl Print, refusal: Refusal) -> io::Result<()> {
    let mut out = [0u8; ROOM];
    let written = write_refusal(refusal, &mut out);
    print_written(rt, written, &out)
}

pub(crate) fn print_query(rt: &impl Print, query: Query) -> io::Result<()> {
    let mut out = [0u8; ROOM];
    let written = write_query(query, &mut out);
    print_written(rt, written, &out)
}

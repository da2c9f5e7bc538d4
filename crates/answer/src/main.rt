// Reads `sheet.txt`, `book.txt` and `steps.txt` of the folder that it is run in and prints the answer. What is printed for the bytes read is
// `engine::answer`; here files are read and the bytes written. A write that fails ends the program with its error.
#![tactic(auto)]

use engine::BYTES_TAKEN;
use files::read_file;
use std::io;

// One byte more than is taken, so that a file over the limit is noticed.
const ROOM: usize = BYTES_TAKEN + 1;

// Room for every reply.
const REPLY: usize = 4096;

fn main(rt: HostRuntime) -> io::Result<()> {
    let mut sheet = [0u8; ROOM];
    let mut book = [0u8; ROOM];
    let mut steps = [0u8; ROOM];
    let mut out = [0u8; REPLY];
    let sheet_end = read_file(&rt, "sheet.txt", &mut sheet);
    let book_end = read_file(&rt, "book.txt", &mut book);
    let steps_end = read_file(&rt, "steps.txt", &mut steps);
    let written = engine::answer(
        &sheet[..sheet_end],
        &book[..book_end],
        &steps[..steps_end],
        &mut out,
    );
    let Ok(end) = written else {
        return Ok(()); // every reply has room
    };
    rt.write_all(&out[..end])
}

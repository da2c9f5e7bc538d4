// Reads `path.txt` and `book.txt` of the folder that it is run in and prints the path's sheet. What is printed for the bytes read is
// `engine::print_path`; here files are read and the bytes written. A write that fails ends the program with its error.
#![tactic(auto)]

use engine::{BYTES_TAKEN, PATH_BYTES};
use files::read_file;
use std::io;

// One byte more than is taken, so that a file over the limit is noticed.
const PATH_ROOM: usize = PATH_BYTES + 1;

const BOOK_ROOM: usize = BYTES_TAKEN + 1;

// Room for every reply.
const REPLY: usize = 4096;

fn main(rt: HostRuntime) -> io::Result<()> {
    let mut path = [0u8; PATH_ROOM];
    let mut book = [0u8; BOOK_ROOM];
    let mut out = [0u8; REPLY];
    let path_end = read_file(&rt, "path.txt", &mut path);
    let book_end = read_file(&rt, "book.txt", &mut book);
    let written = engine::print_path(&path[..path_end], &book[..book_end], &mut out);
    let Ok(end) = written else {
        return Ok(()); // every reply has room
    };
    rt.write_all(&out[..end])
}

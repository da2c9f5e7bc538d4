// Reading the files of the folder that a program is run in.
#![tactic(auto)]

ghost use Rattle.std.specs.Prelude.{◌≡◌, ◌≤◌, length, take};

use std::fs;
use std::io::Read;
use std::rt::Files;

// How many bytes were read until the slice is full, the file ends or a read fails.
pub fn read_full(file: &mut impl Read, bytes: &mut [u8]) -> usize
    ensures bound { result ≤ length bytes.new }
    ensures part { result ≡ length (take result bytes.new) }
{
    let mut done = 0;
    while done < bytes.len() {
        let n = file.read(&mut bytes[done..]).unwrap_or(0);
        if n == 0 {
            break;
        }
        done += n;
    }
    done
}

// How many bytes of a file were read: "an unreadable file counts as empty".
pub fn read_file(rt: &impl Files, name: &str, bytes: &mut [u8]) -> usize
    ensures bound { result ≤ length bytes.new }
    ensures part { result ≡ length (take result bytes.new) }
{
    match fs::open(rt, name) {
        Ok(mut file) => read_full(&mut file, bytes),
        Err(_) => 0,
    }
}

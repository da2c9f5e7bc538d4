// Lines of a text and what stands in them: a word, or a key with numbers behind it.
ghost use Rattle.std.specs.Prelude.{◌≡◌, ℕ, ◌+◌, ◌≤◌, length, drop};
ghost use Rattle.text.specs.Lines.{after, if_one, if_two};
ghost use Rattle.laws.specs.Options.{mapped, present};
ghost use Rattle.text.specs.Numbers.{numbers};
ghost use Rattle.text.specs.Cursors.{cursor, Placed, due_line, behind, unnumbered, word_form, count_form, opened_at};
ghost use Rattle.text.specs.Readings.{is_word, before, numbers_behind, paired};

use crate::number_reader::read_number;
use byte_classes::is_byte;

// A place in a text, and the number of the line that begins there.
#[derive(Clone, Copy, Debug, PartialEq, Eq)]
pub struct Cursor {
    pub at: usize,
    pub line: usize,
}

// The number of the first line that is off the form or isn't there.
#[derive(Clone, Copy, Debug, PartialEq, Eq)]
pub struct BadLine {
    pub line: usize,
}

// Where a byte stands first from a position on, or the end of the text.
pub fn find(text: &[u8], at: usize, b: u8) -> usize
    ensures { result ≡ at + before b (drop at text.now) }
{
    for i in at..text.len() {
        if is_byte(text[i], b) {
            return i;
        }
    }
    at.max(text.len())
}

// A line begins with a key.
pub fn starts(line: &[u8], key: &[u8]) -> bool
    ensures { result ≡ present (after key.now line.now) }
{
    if line.len() < key.len() {
        return false;
    }
    for i in 0..key.len() {
        if !is_byte(line[i], key[i]) {
            return false;
        }
    }
    true
}

// A line is a word.
pub fn is_word(line: &[u8], word: &[u8]) -> bool
    ensures { result ≡ is_word word.now line.now }
{
    line.len() == word.len() && starts(line, word)
}

// A key and one number.
pub fn read_one(line: &[u8], key: &[u8]) -> Option<u32>
    ensures { result ≡ if_one (λ n. n) (numbers_behind key.now line.now) }
{
    if starts(line, key) {
        let (at, end) = (key.len(), line.len());
        read_number(&line[at..end])
    } else {
        None
    }
}

// A key and two numbers with a comma between.
pub fn read_two(line: &[u8], key: &[u8]) -> Option<(u32, u32)>
    ensures { result ≡ if_two paired (numbers_behind key.now line.now) }
{
    if starts(line, key) {
        read_pair(line, key.len())
    } else {
        None
    }
}

// Two numbers with a comma between, from a position on.
fn read_pair(line: &[u8], at: usize) -> Option<(u32, u32)>
    requires { at ≤ length line.now }
    ensures { result ≡ if_two paired (numbers (drop at line.now)) }
{
    let comma = find(line, at, b',');
    if line.len() <= comma {
        return None;
    }
    let a = read_number(&line[at..comma])?;
    let b = read_number(&line[comma + 1..])?;
    Some((a, b))
}

// A due line that is a word.
pub(crate) fn due_word(text: &[u8], c: Cursor, word: &[u8]) -> Option<Cursor>
    requires { Placed c }
    ensures { result ≡ mapped behind (due_line (word_form word.now) text.now c) }
{
    let end = find(text, c.at, b'\n');
    if text.len() <= end {
        return None;
    }
    if is_word(&text[c.at..end], word) {
        Some(Cursor {
            at: end + 1,
            line: c.line + 1,
        })
    } else {
        None
    }
}

// A key and one number, at most a given one.
fn read_count(line: &[u8], key: &[u8], most: u32) -> Option<u32>
    ensures { result ≡ count_form key.now most line.now }
{
    let n = read_one(line, key)?;
    if n <= most { Some(n) } else { None }
}

// The line with a count that begins at a place of a text, whatever its number.
pub fn due_count(text: &[u8], at: usize, key: &[u8], most: u32) -> Option<(u32, usize)>
    ensures { (line : ℕ) → result ≡ mapped unnumbered (due_line (count_form key.now most) text.now (cursor at line)) }
{
    let end = find(text, at, b'\n');
    if text.len() <= end {
        return None;
    }
    let n = read_count(&text[at..end], key, most)?;
    Some((n, end + 1))
}

// The lines that open a text: `guide=1`, and a line with a count.
pub fn read_opening(text: &[u8], key: &[u8], most: u32) -> Result<(u32, Cursor), BadLine>
    ensures { result ≡ opened_at key.now most text.now }
{
    let start = Cursor { at: 0, line: 1 };
    let Some(second) = due_word(text, start, b"guide=1") else {
        return Err(BadLine { line: 1 });
    };
    let Some((n, at)) = due_count(text, second.at, key, most) else {
        return Err(BadLine { line: second.line });
    };
    Ok((
        n,
        Cursor {
            at,
            line: second.line + 1,
        },
    ))
}

// Reading numbers "with commas between": no more are wanted than there are columns.
ghost use Rattle.std.specs.Prelude.{◌≡◌, [], ◌≤◌, ◌<◌, length, drop, get_or};
ghost use Rattle.laws.specs.Options.{mapped};
ghost use Rattle.relation.specs.Rows.{columns};
ghost use Rattle.text.specs.Numbers.{numbers};
ghost use Rattle.text.specs.Readings.{numbers_behind};
ghost use Rattle.row_reading.specs.NumberArrays.{numbers_of, with_number, few};

use relation::COLUMNS;
use text::line_reader::{find, starts};
use text::number_reader::read_number;

// The first numbers of the array.
#[derive(Clone, Copy)]
pub struct Numbers {
    pub count: usize,
    pub values: [u32; COLUMNS],
}

fn no_numbers() -> Numbers
    ensures { result ≡ numbers_of [] }
{
    Numbers {
        count: 0,
        values: [0; COLUMNS],
    }
}

fn with_number(numbers: Numbers, n: u32) -> Numbers
    requires { numbers.count < columns }
    ensures { result ≡ with_number numbers n }
{
    let at = numbers.count;
    let mut more = numbers;
    more.values[at] = n;
    more.count = at + 1;
    more
}

// The number at an index.
pub fn number_at(numbers: Numbers, k: usize) -> usize
    requires { k < columns }
    ensures { result ≡ get_or numbers.values k 0 }
{
    numbers.values[k] as usize
}

// Numbers with commas between from a position of a line on; none where they are off the form or more than there are columns.
fn read_numbers(line: &[u8], from: usize) -> Option<Numbers>
    requires { from ≤ length line.now }
    ensures { result ≡ mapped numbers_of (few columns (numbers (drop from line.now))) }
{
    let mut found = no_numbers();
    let mut at = from;
    while found.count < COLUMNS {
        let end = find(line, at, b',');
        let n = read_number(&line[at..end])?;
        found = with_number(found, n);
        if line.len() <= end {
            return Some(found);
        }
        at = end + 1;
    }
    None
}

// The numbers behind a key.
pub fn read_list(line: &[u8], key: &[u8]) -> Option<Numbers>
    ensures { result ≡ mapped numbers_of (few columns (numbers_behind key.now line.now)) }
{
    if starts(line, key) {
        read_numbers(line, key.len())
    } else {
        None
    }
}

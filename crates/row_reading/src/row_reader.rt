// Reading the lines `cols=` and `row=` of a book's tables.
ghost use Rattle.std.specs.Prelude.{◌≡◌, ◌&&◌, ◌≤◌, ltb, replicate};
ghost use Rattle.laws.specs.Lists.{every};
ghost use Rattle.laws.specs.Options.{mapped};
ghost use Rattle.relation.specs.Rows.{columns};
ghost use Rattle.text.specs.Lines.{ascending, cols_line, filled, row_line};
ghost use Rattle.row_reading.specs.NumberArrays.{numbers_of, listed};
ghost use Rattle.text.specs.Cursors.{Placed, due_line};
ghost use Rattle.row_reading.specs.RowReading.{cols_due, values_row, as_row, row_due, above_of};

use crate::list_reader::{Numbers, number_at, read_list};
use relation::{COLUMNS, Row};
use row_ops::changes::with_slot;
use row_ops::rows::less;
use text::line_reader::{Cursor, find};

// "strictly ascending columns"
fn are_columns(numbers: Numbers) -> bool
    requires { numbers.count ≤ columns }
    ensures { result ≡ ascending (listed numbers) && every (λ c. ltb c columns) (listed numbers) }
{
    let count = numbers.count;
    let mut low: usize = 0;
    for k in 0..count {
        let c = number_at(numbers, k);
        if c < low {
            return false;
        }
        if COLUMNS <= c {
            return false;
        }
        low = c + 1;
    }
    true
}

// The columns of a `cols=` line.
fn read_cols(line: &[u8]) -> Option<Numbers>
    ensures { result ≡ mapped numbers_of (cols_line columns line.now) }
{
    let found = read_list(line, b"cols=")?;
    if are_columns(found) {
        Some(found)
    } else {
        None
    }
}

// A due `cols=` line: its columns, and the place behind it.
pub fn due_cols(text: &[u8], c: Cursor) -> Option<(Numbers, Cursor)>
    requires { Placed c }
    ensures { result ≡ cols_due (due_line (cols_line columns) text.now c) }
{
    let end = find(text, c.at, b'\n');
    if text.len() <= end {
        return None;
    }
    let cols = read_cols(&text[c.at..end])?;
    Some((
        cols,
        Cursor {
            at: end + 1,
            line: c.line + 1,
        },
    ))
}

// A row with these values in these columns, in column order.
fn row_of(cols: Numbers, values: Numbers) -> Row
    requires { (cols.count ≤ columns) × (values.count ≡ cols.count) }
    ensures { result.slots ≡ filled (replicate columns 0) (listed cols) (listed values) }
{
    let count = cols.count;
    let mut row = Row {
        slots: [0; COLUMNS],
    };
    for k in 0..count {
        let c = number_at(cols, k);
        let value = values.values[k];
        row = with_slot(row, c, value);
    }
    row
}

// The row of a `row=` line: exactly as many values as its table has columns.
fn read_values(line: &[u8], cols: Numbers) -> Option<Row>
    requires { cols.count ≤ columns }
    ensures { result ≡ mapped as_row (values_row columns (listed cols) line.now) }
{
    let values = read_list(line, b"row=")?;
    if values.count != cols.count {
        return None;
    }
    Some(row_of(cols, values))
}

// "Rows strictly ascend": the row of a `row=` line, if it is the first or follows the one above.
fn read_row(line: &[u8], cols: Numbers, above: Option<Row>) -> Option<Row>
    requires { cols.count ≤ columns }
    ensures { result ≡ mapped as_row (row_line columns (listed cols) (above_of above) line.now) }
{
    let row = read_values(line, cols)?;
    let Some(above) = above else {
        return Some(row);
    };
    if less(above, row) { Some(row) } else { None }
}

// A due `row=` line: its row, and the place behind it.
pub fn due_row(text: &[u8], c: Cursor, cols: Numbers, above: Option<Row>) -> Option<(Row, Cursor)>
    requires { Placed c × (cols.count ≤ columns) }
    ensures { result ≡ row_due (due_line (row_line columns (listed cols) (above_of above)) text.now c) }
{
    let end = find(text, c.at, b'\n');
    if text.len() <= end {
        return None;
    }
    let row = read_row(&text[c.at..end], cols, above)?;
    Some((
        row,
        Cursor {
            at: end + 1,
            line: c.line + 1,
        },
    ))
}

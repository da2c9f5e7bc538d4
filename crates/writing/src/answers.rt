// Writing an answer's text into a lent slice. It is measured first: nothing is written where the slice is short.
ghost use Rattle.std.specs.Prelude.{◌≡◌, ◌+◌, ◌≤◌, min, length};
ghost use mathlib.Core.List.{◌∷◌, ◌++◌, map, flat_map};
ghost use Rattle.laws.specs.Lists.{when◌then◌else◌, tabulate};
ghost use Rattle.relation.specs.Rows.{columns as width, slot, cols_of, rows_of};
ghost use Rattle.text.specs.Numbers.{bytes, comma, digits, comma_digits};
ghost use Rattle.text.specs.Texts.{line_text, column_list, answer_text};
ghost use Rattle.output.specs.Replies.{write_reply, slice_after};
ghost use Rattle.output.specs.Sinks.{Puts};
ghost use Rattle.writing.specs.Rooms.{answer_room};

use database::Refusal;
use output::{Lent, Measure, Sink, put_bytes, put_number, put_one};
use relation::{COLUMNS, Columns};

// An entry that isn't there reads as 0.
fn entry(values: &[u32], c: usize) -> u32
    ensures { result ≡ slot values.now c }
{
    if c < values.len() { values[c] } else { 0 }
}

fn put_value<S: Sink>(first: bool, n: usize, sink: &mut S)
    ensures { Puts S.put (when first then digits n else comma ∷ digits n) sink.old sink.new }
{
    if first {
        return put_number(n, sink);
    }
    sink.put_byte(44);
    put_number(n, sink)
}

// The values of a set's columns, with commas between.
fn put_values<S: Sink>(columns: Columns, values: &[u32], sink: &mut S)
    ensures { Puts S.put (comma_digits (map (slot values.now) (column_list width (cols_of width columns)))) sink.old sink.new }
{
    let mut first = true;
    for c in 0..COLUMNS {
        if columns.has[c] {
            let n = entry(values, c) as usize;
            put_value(first, n, sink);
            first = false;
        }
    }
}

// A line of a key and the values of a set's columns.
fn put_row<S: Sink>(key: &[u8], columns: Columns, values: &[u32], sink: &mut S)
    ensures { Puts S.put (line_text (key.now ++ comma_digits (map (slot values.now) (column_list width (cols_of width columns))))) sink.old sink.new }
{
    put_bytes(key, sink);
    put_values(columns, values, sink);
    sink.put_byte(10)
}

// Where the next row begins, or the end of the entries.
fn next_row(from: usize, entries: usize) -> usize
    requires { from ≤ entries }
    ensures { result ≡ min (from + width) entries }
{
    from + COLUMNS.min(entries - from)
}

// The lines of the rows. Once the sink is over, no row behind it can change that.
fn put_rows<S: Sink>(columns: Columns, rows: &[u32], count: usize, sink: &mut S)
    ensures { Puts S.put (flat_map (λ x. line_text (bytes "row=" ++ comma_digits (map (slot x) (column_list width (cols_of width columns)))))
        (rows_of width count rows.now)) sink.old sink.new }
{
    let mut from = 0;
    for r in 0..count {
        if sink.is_over() {
            return;
        }
        put_row(b"row=", columns, &rows[from..], sink);
        from = next_row(from, rows.len());
    }
}

// The columns' numbers, in the place of a row's values.
fn column_numbers() -> [u32; COLUMNS]
    ensures { result ≡ tabulate (λ c. c) width }
{
    let mut numbers = [0u32; COLUMNS];
    for c in 0..COLUMNS {
        numbers[c] = c as u32;
    }
    numbers
}

fn put_answer<S: Sink>(columns: Columns, rows: &[u32], count: usize, ran: u32, sink: &mut S)
    ensures { Puts S.put (answer_text width columns (rows_of width count rows.now) ran) sink.old sink.new }
{
    let numbers = column_numbers();
    put_bytes(b"guide=1\n", sink);
    put_row(b"cols=", columns, &numbers, sink);
    put_one(b"rows=", count, sink);
    put_rows(columns, rows, count, sink);
    put_one(b"ran=", ran as usize, sink)
}

// "header, columns, row count, rows ascending, lines run". The rows' entries stand one row behind the other; those that aren't there read as 0.
pub fn write_answer(
    columns: Columns,
    rows: &[u32],
    count: usize,
    ran: u32,
    out: &mut [u8],
) -> Result<usize, Refusal>
    ensures { (result ≡ write_reply (answer_text width columns (rows_of width count rows.now) ran) out.old)
        × (out.new ≡ slice_after (answer_text width columns (rows_of width count rows.now) ran) out.old)
        × (length (answer_text width columns (rows_of width count rows.now) ran) ≤ answer_room width count) }
{
    let mut measure = Measure::of(out);
    put_answer(columns, rows, count, ran, &mut measure);
    if out.len() < measure.size {
        return Err(Refusal::ShortSlice);
    }
    put_answer(columns, rows, count, ran, &mut Lent { out, at: 0 });
    Ok(measure.size)
}

// Reading a book's tables: "for each table `cols=` …, `rows=R` (0–4,096), and R lines `row=`". The same walk looks at the forms and, with
// `write`, stores the rows from a place of the store on.
ghost use Rattle.std.specs.Prelude.{◌≡◌, true, [], ◌+◌, ◌*◌, ◌≤◌, ◌<◌, length};
ghost use Rattle.std.specs.Prelude.{None};
ghost use borrow.Rule.Slice.PartMut.{put_mid};
ghost use Rattle.laws.specs.Lists.{member};
ghost use Rattle.relation.specs.Rows.{columns};
ghost use Rattle.database.specs.Stored.{rows_limit, table_limit};
ghost use Rattle.text.specs.Lines.{many};
ghost use Rattle.text.specs.Texts.{read_rows, read_table, database_value};
ghost use Rattle.text.specs.Cursors.{rest_at, Placed};
ghost use Rattle.row_reading.specs.NumberArrays.{listed};
ghost use Rattle.loading.specs.Loading.{stores, read_entries, MayStore, Walks, Reads, row_entries, table_stored, cols_set, GoodTable, tables_stored, GoodTables, with_table};

use column_sets::no_columns;
use database::{Database, TABLE_ROWS, TABLES};
use relation::{COLUMNS, Columns, Row};
use row_reading::list_reader::{Numbers, number_at};
use row_reading::row_reader::{due_cols, due_row};
use text::line_reader::{BadLine, Cursor, due_count};

// A table's columns and row count.
#[derive(Clone, Copy)]
pub struct ReadTable {
    pub columns: Columns,
    pub rows: usize,
}

// Tables behind each other: the database, and how many entries its rows take.
#[derive(Clone, Copy)]
pub struct ReadText {
    pub database: Database,
    pub size: usize,
}

// A row's slots from a place of the store on.
fn put_row(store: &mut [u32], at: usize, row: Row)
    requires { at + columns ≤ length store.old }
    ensures { store.new ≡ put_mid at columns store.old row.slots }
{
    for c in 0..COLUMNS {
        store[at + c] = row.slots[c];
    }
}

// The row is stored only where the walk writes.
fn store_row(store: &mut [u32], at: usize, row: Row, write: bool)
    requires { write ≡ true → at + columns ≤ length store.old }
    ensures { store.new ≡ stores write at row.slots store.old }
{
    if write {
        put_row(store, at, row);
    }
}

// So many `row=` lines, each after the one above, and the place behind them.
fn read_rows(
    text: &[u8],
    first: Cursor,
    cols: Numbers,
    count: u32,
    store: &mut [u32],
    from: usize,
    write: bool,
) -> Result<Cursor, BadLine>
    requires { Placed first × (cols.count ≤ columns) × (from ≤ table_limit * (rows_limit * columns)) × (count ≤ rows_limit)
        × MayStore row_entries write from store.old (read_rows columns (listed cols) count None (rest_at text.now first)) }
    ensures walks { Walks text.now result (read_rows columns (listed cols) count None (rest_at text.now first)) (λ rows. length rows ≡ count) }
    ensures store_after { store.new ≡ stores write from
        (read_entries row_entries (read_rows columns (listed cols) count None (rest_at text.now first))) store.old }
{
    let mut c = first;
    let mut above = None;
    let mut at = from;
    for i in 0..count {
        let Some((row, next)) = due_row(text, c, cols, above) else {
            return Err(BadLine { line: c.line });
        };
        store_row(store, at, row, write);
        above = Some(row);
        at += COLUMNS;
        c = next;
    }
    Ok(c)
}

// Whether a column is in a list.
fn lists(cols: Numbers, c: usize) -> bool
    requires { cols.count ≤ columns }
    ensures { result ≡ member c (listed cols) }
{
    let count = cols.count;
    for k in 0..count {
        if c == number_at(cols, k) {
            return true;
        }
    }
    false
}

// The set of a list's columns.
fn columns_of(cols: Numbers) -> Columns
    requires { cols.count ≤ columns }
    ensures { result ≡ cols_set (listed cols) }
{
    let mut set = no_columns();
    for c in 0..COLUMNS {
        set.has[c] = lists(cols, c);
    }
    set
}

// A table: its columns, its row count and its rows.
fn read_table(
    text: &[u8],
    c: Cursor,
    store: &mut [u32],
    from: usize,
    write: bool,
) -> Result<(ReadTable, Cursor), BadLine>
    requires { Placed c × (from ≤ table_limit * (rows_limit * columns))
        × MayStore table_stored write from store.old (read_table columns (rest_at text.now c)) }
    ensures walks { Reads text.now result (read_table columns (rest_at text.now c)) GoodTable }
    ensures store_after { store.new ≡ stores write from
        (read_entries table_stored (read_table columns (rest_at text.now c))) store.old }
{
    let Some((cols, second)) = due_cols(text, c) else {
        return Err(BadLine { line: c.line });
    };
    let Some((count, at)) = due_count(text, second.at, b"rows=", TABLE_ROWS as u32) else {
        return Err(BadLine { line: second.line });
    };
    let first = Cursor {
        at,
        line: second.line + 1,
    };
    let next = read_rows(text, first, cols, count, store, from, write)?;
    let table = ReadTable {
        columns: columns_of(cols),
        rows: count as usize,
    };
    Ok((table, next))
}

// A database without tables.
pub(crate) fn no_tables() -> Database
    ensures { result ≡ database_value columns [] }
{
    let none = no_columns();
    Database {
        tables: 0,
        columns: [none; TABLES],
        rows: [0; TABLES],
    }
}

// The database with one more table.
fn with_table(database: Database, columns: Columns, rows: usize) -> Database
    requires { database.tables < table_limit }
    ensures { result ≡ with_table database columns rows }
{
    let at = database.tables;
    let mut more = database;
    more.columns[at] = columns;
    more.rows[at] = rows;
    more.tables = at + 1;
    more
}

// So many tables.
pub(crate) fn read_tables(
    text: &[u8],
    first: Cursor,
    count: u32,
    store: &mut [u32],
    write: bool,
) -> Result<(ReadText, Cursor), BadLine>
    requires { Placed first × (count ≤ table_limit)
        × MayStore tables_stored write 0 store.old (many (read_table columns) count (rest_at text.now first)) }
    ensures walks { Reads text.now result (many (read_table columns) count (rest_at text.now first)) GoodTables }
    ensures store_after { store.new ≡ stores write 0
        (read_entries tables_stored (many (read_table columns) count (rest_at text.now first))) store.old }
{
    let mut database = no_tables();
    let mut c = first;
    let mut at: usize = 0;
    for i in 0..count {
        let (table, next) = read_table(text, c, store, at, write)?;
        database = with_table(database, table.columns, table.rows);
        at += COLUMNS * table.rows;
        c = next;
    }
    Ok((ReadText { database, size: at }, c))
}

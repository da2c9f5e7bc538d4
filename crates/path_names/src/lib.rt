// The names of a path over a book (02, U6): "A table outside the book gets 10, wrong columns get 9 …; the first such name in the path decides."
#![tactic(auto)]

ghost use Rattle.std.specs.Prelude.{◌≡◌, ◌<◌};
ghost use Rattle.relation.specs.Rows.{columns, columns_of};
ghost use Rattle.database.specs.Stored.{schema};
ghost use Rattle.database.specs.Refusals.{accepted, verdict, no_fault};
ghost use Rattle.paths.specs.Grammar.{PropertyPath};
ghost use Rattle.paths.specs.Reader.{path_limit, read_path};
ghost use Rattle.paths.specs.Sheets.{ends, names, name_faults};
ghost use Rattle.path_names.specs.Names.{name_verdict, digit_next, named_next};

use byte_classes::{ByteClass, class_of};
use column_sets::{no_columns, same_columns, with_column};
use database::{Database, Refusal, table_columns};
use relation::Columns;
use scoping::first_pass::accept_if;

// The first refusal among the names read, and among those before the last of them, which a second digit changes.
#[derive(Clone, Copy)]
pub struct Named {
    pub before: Result<(), Refusal>,
    pub all: Result<(), Refusal>,
    pub digit: bool, // the byte before is a digit
}

// "columns 0 and 1 only"
#[tactic(auto, using(node_columns::proofs::ColumnNodes::with_same))]
fn end_columns() -> Columns
    ensures { result ≡ columns_of columns ends }
{
    with_column(with_column(no_columns(), 0), 1)
}

fn check_name(database: Database, t: usize) -> Result<(), Refusal>
    ensures { result ≡ name_verdict (schema columns database) t }
{
    let known = t < database.tables;
    accept_if(known, Refusal::NoTable(0))?;
    let linked = same_columns(table_columns(database, t), end_columns());
    accept_if(linked, Refusal::ColumnFault(0))
}

// A digit is a name, and a second digit makes another of the name 1.
fn with_digit(database: Database, named: Named, d: usize) -> Named
    requires { d < 10 }
    ensures { result ≡ digit_next (schema columns database) named named.digit d }
{
    let (before, t) = if named.digit {
        (named.before, 10 + d)
    } else {
        (named.all, d)
    };
    Named {
        before,
        all: before.and(check_name(database, t)),
        digit: true,
    }
}

// One byte more.
fn with_byte(database: Database, named: Named, b: u8) -> Named
    ensures { result ≡ named_next (schema columns database) named b }
{
    match class_of(b) {
        ByteClass::Digit(d) => with_digit(database, named, usize::from(d)),
        _ => Named {
            digit: false,
            ..named
        },
    }
}

// 10 or 9 of a path's text, by its first bad name. Of a text that is no path nothing is said.
pub fn check_names(path: &[u8], database: Database) -> Result<(), Refusal>
    ensures { (p : PropertyPath) → read_path path_limit path.now ≡ accepted p
        → result ≡ verdict (no_fault (name_faults (schema columns database) (names p))) }
{
    let mut named = Named {
        before: Ok(()),
        all: Ok(()),
        digit: false,
    };
    for &b in path {
        named = with_byte(database, named, b);
    }
    named.all
}

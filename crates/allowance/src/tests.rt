// What a run tests before 17: one function for each call that runs a query, or could.
ghost use Rattle.std.specs.Prelude.{◌≡◌, min};
ghost use Rattle.relation.specs.Rows.{columns};
ghost use Rattle.database.specs.Stored.{schema};
ghost use Rattle.query.specs.Lines.{node_limit};
ghost use Rattle.query.specs.Facts.{checked_value};
ghost use Rattle.machine.specs.Run.{runnable};

use checking::check;
use database::{Database, Refusal, TABLE_ROWS};
use query::{Checked, Query};

// "the book (11), the sheet (1 to 10 in order), 16": the split sheet with the facts of its nodes, or the refusal.
pub fn runnable(
    query: Query,
    database: Database,
    store: &[u32],
    limit: usize,
    rows: usize,
) -> Result<Checked, Refusal>
    ensures { result ≡ checked_value (schema columns database) query (runnable columns (min limit node_limit) query database store.now rows) }
{
    let checked = check(query, database, store, limit)?;
    if rows == 0 || TABLE_ROWS < rows {
        return Err(Refusal::RowLimit);
    }
    Ok(checked)
}

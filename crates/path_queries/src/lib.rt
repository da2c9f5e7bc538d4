// Reading a property path over a stored book into a sheet (02, U6): 21, "tested first, 11 next", then 10 or 9 by the first bad name, then 2.
#![tactic(auto)]

ghost use Rattle.std.specs.Prelude.{◌≡◌, min};
ghost use Rattle.relation.specs.Rows.{columns};
ghost use Rattle.query.specs.Lines.{node_limit};
ghost use Rattle.text.specs.Replies.{query_reply};
ghost use Rattle.paths.specs.Sheets.{path_nodes};

use database::{Database, Refusal, check_database};
use path_names::check_names;
use path_reading::check_path;
use path_sheets::write_path;
use query::Query;

// The sheet of a path's text, with room for at most NODES nodes, or the refusal.
pub fn read_path(
    path: &[u8],
    database: Database,
    store: &[u32],
    limit: usize,
) -> Result<Query, Refusal>
    ensures { result ≡ query_reply (path_nodes columns (min limit node_limit) path.now database store.now) }
{
    check_path(path)?;
    check_database(database, store)?;
    check_names(path, database)?;
    write_path(path, limit)
}

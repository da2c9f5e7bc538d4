// "Steps test the book and the sheet as a run does, then 12 to 15 in order", or 12, 2 and 22.
ghost use Rattle.std.specs.Prelude.{◌≡◌, min};
ghost use Rattle.relation.specs.Rows.{columns};
ghost use Rattle.query.specs.Lines.{node_limit};
ghost use Rattle.rewrite.specs.Rewrite.{rewrite, rewritten};

use super::write::rewrite_checked;
use checking::check;
use database::Database;
use query::{NODES, Query};
use rewrite::Unchanged;

// The step of a kind at a node: the rule's query, in which every `mu` is split, or the query as given beside the refusal. No node count over `limit` is
// taken.
pub fn rewrite(
    query: Query,
    database: Database,
    store: &[u32],
    limit: usize,
    kind: u32,
    node: u32,
) -> Result<Query, Unchanged>
    ensures { result ≡ rewritten query (rewrite columns (min limit node_limit) query database store.now kind node) }
{
    let checked = check(query, database, store, limit).map_err(|refusal| Unchanged {
        query,
        refusal,
    })?;
    rewrite_checked(checked, limit.min(NODES), kind, node).map_err(|split| Unchanged {
        query,
        ..split
    })
}

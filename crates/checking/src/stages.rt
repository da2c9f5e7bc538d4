// Document 01's "Checking": 11 for the database; 2, then 1, 3, 20, 4 to 8, and 9 and 10 for the query. From 4 on it sees the split sheet only, which it hands
// on with what it tells of each of its nodes.
ghost use Rattle.std.specs.Prelude.{◌≡◌, ◌≤◌, min};
ghost use Rattle.relation.specs.Rows.{columns};
ghost use Rattle.database.specs.Stored.{schema};
ghost use Rattle.query.specs.Lines.{node_limit, nodes, term_of};
ghost use Rattle.query.specs.Check.{split_of, check_query, check_over};
ghost use Rattle.query.specs.Facts.{checked_value};
ghost use Rattle.query.specs.Shape.{Shaped, Formed};
ghost use Rattle.checking.specs.CheckStages.{pass_term, check_term};

use super::second_pass::second_pass;
use database::{Database, Refusal, check_database};
use node_columns::column_sets;
use query::forms::check_form;
use query::shape::shape;
use query::{Checked, Facts, NODES, Query};
use scoping::first_pass::first_pass;
use scoping::free::free_sets;
use splitting::split;

// "First pass, lowest node first, then lowest number: 4 to 8. Second pass, lowest node: 9 or 10." And the facts, all of the split sheet.
fn check_passes(
    query: Query,
    split: Query,
    database: Database,
    start: [usize; NODES],
) -> Result<Checked, Refusal>
    requires { Shaped split start × Formed split × (split ≡ split_of query (term_of (nodes split))) }
    ensures { result ≡ checked_value (schema columns database) query (pass_term (schema columns database) (term_of (nodes split))) }
{
    let free = free_sets(split, start);
    let columns = column_sets(split, database, start);
    first_pass(split, start, free)?;
    second_pass(split, database, start, columns)?;
    Ok(Checked {
        query: split,
        facts: Facts {
            start,
            free,
            columns,
        },
    })
}

// 20, and what comes behind. The split sheet reads to a term, so its shape is never refused.
fn check_split(query: Query, database: Database, start: [usize; NODES]) -> Result<Checked, Refusal>
    requires { Shaped query start × Formed query }
    ensures { result ≡ checked_value (schema columns database) query (check_term query (schema columns database)) }
{
    let sheet = split(query, start, free_sets(query, start))?;
    check_passes(query, sheet, database, shape(sheet).unwrap())
}

// 3, and what comes behind.
fn check_shape(query: Query, database: Database) -> Result<Checked, Refusal>
    requires { (1 ≤ query.count) × (query.count ≤ node_limit) × Formed query }
    ensures { result ≡ checked_value (schema columns database) query (check_term query (schema columns database)) }
{
    check_split(query, database, shape(query)?)
}

// The check of a query over a database's columns. No node count over `limit` is taken.
pub fn check_query(query: Query, database: Database, limit: usize) -> Result<Checked, Refusal>
    ensures { result ≡ checked_value (schema columns database) query (check_query (min limit node_limit) query (schema columns database)) }
{
    check_form(query, limit)?;
    check_shape(query, database)
}

// "A sheet is checked over a book if neither gets a number from 1 to 11", nor 20: 11 first, then the check of the query.
pub fn check(
    query: Query,
    database: Database,
    store: &[u32],
    limit: usize,
) -> Result<Checked, Refusal>
    ensures { result ≡ checked_value (schema columns database) query (check_over columns (min limit node_limit) query database store.now) }
{
    check_database(database, store)?;
    check_query(query, database, limit)
}

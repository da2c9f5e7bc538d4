// Lists of steps, and the run of what they leave: demand 3.
ghost use Rattle.std.specs.Prelude.{◌≡◌, min, Ok};
ghost use Rattle.relation.specs.Rows.{columns, rows_of};
ghost use Rattle.query.specs.Lines.{node_limit};
ghost use Rattle.machine.specs.declared.Ran.{Ran};
ghost use Rattle.machine.specs.Run.{run_query, begin, ran_of, workspace_after, answer_after};
ghost use Rattle.run.specs.Answered.{Means};
ghost use Rattle.engine.specs.Demands.{left_by};

use database::{Database, Refusal};
use machine::Ran;
use query::Query;
use rewriting::rewrite;
use run::run;

// The query that a list of steps leaves: kinds and nodes, in turn.
pub fn rewrite_each(
    query: Query,
    database: Database,
    store: &[u32],
    limit: usize,
    steps: &[u32],
) -> Query
    ensures { result ≡ left_by columns (min limit node_limit) query database store.now steps.now }
{
    let mut held = query;
    for i in 0..steps.len() / 2 {
        let (kind, node) = (steps[2 * i], steps[2 * i + 1]);
        held = match rewrite(held, database, store, limit, kind, node) {
            Ok(next) => next,
            Err(unchanged) => unchanged.query,
        };
    }
    held
}

// The run of what a list of steps leaves. The clause `meaning` is demand 3: whatever the list, a finished run's answer is the FIRST query's meaning.
pub fn run_rewritten(
    query: Query,
    database: Database,
    store: &[u32],
    limit: usize,
    steps: &[u32],
    rows: usize,
    budget: u32,
    workspace: &mut [u32],
    answer: &mut [u32],
) -> Result<Ran, Refusal>
    ensures value { (result ≡ ran_of (run_query columns (min limit node_limit) (left_by columns (min limit node_limit) query database store.now steps.now)
        database store.now rows budget workspace.old answer.old))
        × (workspace.new ≡ workspace_after (begin columns (min limit node_limit)
        (left_by columns (min limit node_limit) query database store.now steps.now)
        database store.now rows budget workspace.old) workspace.old)
        × (answer.new ≡ answer_after (run_query columns (min limit node_limit)
        (left_by columns (min limit node_limit) query database store.now steps.now)
        database store.now rows budget workspace.old answer.old) answer.old) }
    ensures meaning { (told : Ran) → result ≡ Ok told
        → Means columns (min limit node_limit) query database store.now told.columns (rows_of columns told.rows answer.new) }
{
    let held = rewrite_each(query, database, store, limit, steps);
    run(
        held, database, store, limit, rows, budget, workspace, answer,
    )
}

// The wall panel: the desk's functions at the panel's limits. No function here takes a node limit or a row limit, so 16 never arises.
#![tactic(auto)]

ghost use Rattle.std.specs.Prelude.{◌≡◌, ◌≢◌, List, ℕ, ◌≤◌, length, Ok};
ghost use Rattle.relation.specs.Rows.{columns, rows_of};
ghost use Rattle.database.specs.declared.Refusal.TheVariants.{BudgetSpent};
ghost use Rattle.database.specs.Stored.{schema};
ghost use Rattle.database.specs.Refusals.{refused, verdict};
ghost use Rattle.query.specs.Check.{check_over};
ghost use Rattle.query.specs.Facts.{checked_value};
ghost use Rattle.text.specs.Texts.{read_nodes};
ghost use Rattle.text.specs.Replies.{query_reply};
ghost use Rattle.paths.specs.Sheets.{path_nodes};
ghost use Rattle.rewrite.specs.Rewrite.{rewrite, rewritten};
ghost use Rattle.plan.specs.Plan.{compile};
ghost use Rattle.compiling.specs.Compiled.{compiled_value};
ghost use Rattle.machine.specs.declared.Ran.{Ran};
ghost use Rattle.machine.specs.declared.Progress.TheVariants.{Finished};
ghost use Rattle.allowance.specs.declared.Allowed.{Allowed};
ghost use Rattle.machine.specs.Limits.{panel_limits};
ghost use Rattle.machine.specs.Run.{allowance, begin, run_query, ran_of, answer_after, workspace_after};
ghost use Rattle.machine.specs.Pauses.{begin_run, begin_again, resume, progress_of, ordinary, stop_verdict, workspace_left, answer_left};
ghost use Rattle.allowance.specs.Allowances.{allowance_value};
ghost use Rattle.run.specs.Answered.{Gave, Means};
ghost use Rattle.engine.specs.Demands.{left_by};

use allowance::Allowed;
use database::{Database, Refusal};
use machine::{Pause, Progress, Ran};
use plan::Plan;
use query::{Checked, Query};
use relation::COLUMNS;
use rewrite::Unchanged;

// "It takes at most 32 nodes"
pub const PANEL_NODES: usize = 32;

// "and fixes the row limit at 64."
pub const PANEL_ROWS: usize = 64;

// The entries of a workspace that is enough for every checked sheet of the panel: a register a node and one more a fix, of which there are fewer than
// half as many as nodes.
pub const PANEL_WORKSPACE: usize = (PANEL_NODES + (PANEL_NODES - 1) / 2)
    * (1 + COLUMNS * PANEL_ROWS);

// Reads a sheet's text: 33 nodes give 2 at line 2, after 1.
pub fn read_query(text: &[u8]) -> Result<Query, Refusal>
    ensures { result ≡ query_reply (read_nodes columns panel_limits.nodes text.now) }
{
    reading::read_query(text, PANEL_NODES)
}

// Reads a property path over a stored book: 33 nodes give 2 with place 0.
pub fn read_path(path: &[u8], database: Database, store: &[u32]) -> Result<Query, Refusal>
    ensures { result ≡ query_reply (path_nodes columns panel_limits.nodes path.now database store.now) }
{
    path_queries::read_path(path, database, store, PANEL_NODES)
}

// Checks a query over a stored book: 33 nodes give 2 with place 0.
pub fn check(query: Query, database: Database, store: &[u32]) -> Result<Checked, Refusal>
    ensures { result ≡ checked_value (schema columns database) query (check_over columns panel_limits.nodes query database store.now) }
{
    checking::check(query, database, store, PANEL_NODES)
}

// The step of a kind at a node: the rule's query, or the query as given beside the refusal.
pub fn rewrite(
    query: Query,
    database: Database,
    store: &[u32],
    kind: u32,
    node: u32,
) -> Result<Query, Unchanged>
    ensures { result ≡ rewritten query (rewrite columns panel_limits.nodes query database store.now kind node) }
{
    rewriting::rewrite(query, database, store, PANEL_NODES, kind, node)
}

// The plan of a checked query.
pub fn compile(query: Query, database: Database, store: &[u32]) -> Result<Plan, Refusal>
    ensures { result ≡ compiled_value (compile columns panel_limits.nodes query database store.now) }
{
    compiling::compile(query, database, store, PANEL_NODES)
}

// The plan of a checked query, with the product of its number of lines and the panel's L: by the clause `enough` a run with this budget or more is never
// refused with 19.
pub fn allowance(query: Query, database: Database, store: &[u32]) -> Result<Allowed, Refusal>
    ensures value { result ≡ allowance_value (allowance columns panel_limits.nodes query database store.now panel_limits.rows) }
    ensures enough { (given : Allowed) → result ≡ Ok given → (budget : ℕ) → given.budget ≤ budget → (workspace answer : List ℕ)
        → run_query columns panel_limits.nodes query database store.now panel_limits.rows budget workspace answer ≢ refused BudgetSpent }
{
    allowance::allowance(query, database, store, PANEL_NODES, PANEL_ROWS)
}

// A query's run over a stored book: a register of 65 rows gives 18. The clause `meaning` is demand 2; by the clause `enough` a run that lends
// PANEL_WORKSPACE entries begins with every checked query, and never gets 17 for its workspace.
pub fn run(
    query: Query,
    database: Database,
    store: &[u32],
    budget: u32,
    workspace: &mut [u32],
    answer: &mut [u32],
) -> Result<Ran, Refusal>
    ensures value { (result ≡ ran_of (run_query columns panel_limits.nodes query database store.now panel_limits.rows budget workspace.old answer.old))
        × (workspace.new ≡ workspace_after (begin columns panel_limits.nodes query database store.now panel_limits.rows budget workspace.old) workspace.old)
        × (answer.new ≡ answer_after (run_query columns panel_limits.nodes query database store.now panel_limits.rows budget workspace.old answer.old) answer.old) }
    ensures meaning { (told : Ran) → result ≡ Ok told
        → Means columns panel_limits.nodes query database store.now told.columns (rows_of columns told.rows answer.new) }
    ensures enough { PANEL_WORKSPACE ≤ length workspace.old
        → begin columns panel_limits.nodes query database store.now panel_limits.rows budget workspace.old
        ≡ check_over columns panel_limits.nodes query database store.now }
{
    run::run(
        query,
        database,
        store,
        PANEL_NODES,
        PANEL_ROWS,
        budget,
        workspace,
        answer,
    )
}

// A query's run over a stored book, which can be gone on with. The clauses `meaning` and `enough` are those of `run`.
pub fn begin_run(
    query: Query,
    database: Database,
    store: &[u32],
    budget: u32,
    workspace: &mut [u32],
    answer: &mut [u32],
) -> Result<Progress, Refusal>
    ensures value { (result ≡ progress_of (begin_run columns panel_limits.nodes query database store.now panel_limits.rows budget workspace.old answer.old))
        × (workspace.new ≡ workspace_left columns panel_limits.rows (begin columns panel_limits.nodes query database store.now panel_limits.rows budget workspace.old)
        (begin_run columns panel_limits.nodes query database store.now panel_limits.rows budget workspace.old answer.old) workspace.old)
        × (answer.new ≡ answer_left (begin_run columns panel_limits.nodes query database store.now panel_limits.rows budget workspace.old answer.old) answer.old) }
    ensures told { stop_verdict result ≡ verdict (ordinary (begin_run columns panel_limits.nodes query database store.now panel_limits.rows budget workspace.old answer.old)) }
    ensures meaning { (told : Ran) → result ≡ Ok (Finished told)
        → Means columns panel_limits.nodes query database store.now told.columns (rows_of columns told.rows answer.new) }
    ensures enough { PANEL_WORKSPACE ≤ length workspace.old
        → begin columns panel_limits.nodes query database store.now panel_limits.rows budget workspace.old
        ≡ check_over columns panel_limits.nodes query database store.now }
{
    run::begin_run(
        query,
        database,
        store,
        PANEL_NODES,
        PANEL_ROWS,
        budget,
        workspace,
        answer,
    )
}

// Goes on from a pause, whose registers stand in the workspace, with a further allowance. The clause `meaning` is demand 2, for pauses that the engine gave; the
// clause `enough` is that of `run`.
pub fn resume(
    query: Query,
    database: Database,
    store: &[u32],
    pause: Pause,
    budget: u32,
    workspace: &mut [u32],
    answer: &mut [u32],
) -> Result<Progress, Refusal>
    ensures value { (result ≡ progress_of (resume columns panel_limits.nodes query database store.now panel_limits.rows budget pause workspace.old answer.old))
        × (workspace.new ≡ workspace_left columns panel_limits.rows (begin_again columns panel_limits.nodes query database store.now panel_limits.rows budget pause workspace.old)
        (resume columns panel_limits.nodes query database store.now panel_limits.rows budget pause workspace.old answer.old) workspace.old)
        × (answer.new ≡ answer_left (resume columns panel_limits.nodes query database store.now panel_limits.rows budget pause workspace.old answer.old) answer.old) }
    ensures told { stop_verdict result ≡ verdict (ordinary (resume columns panel_limits.nodes query database store.now panel_limits.rows budget pause workspace.old answer.old)) }
    ensures meaning { Gave columns panel_limits.nodes query database store.now panel_limits.rows pause workspace.old
        → (told : Ran) → result ≡ Ok (Finished told)
        → Means columns panel_limits.nodes query database store.now told.columns (rows_of columns told.rows answer.new) }
    ensures enough { PANEL_WORKSPACE ≤ length workspace.old
        → begin columns panel_limits.nodes query database store.now panel_limits.rows budget workspace.old
        ≡ check_over columns panel_limits.nodes query database store.now }
{
    run::resume(
        query,
        database,
        store,
        PANEL_NODES,
        PANEL_ROWS,
        pause,
        budget,
        workspace,
        answer,
    )
}

// The run of what a list of steps leaves: kinds and nodes, in turn, each step made at the panel. The clause `meaning` is demand 3: whatever the list, a
// finished run's answer is the FIRST query's meaning; the clause `enough` is that of `run`.
pub fn run_rewritten(
    query: Query,
    database: Database,
    store: &[u32],
    steps: &[u32],
    budget: u32,
    workspace: &mut [u32],
    answer: &mut [u32],
) -> Result<Ran, Refusal>
    ensures value { (result ≡ ran_of (run_query columns panel_limits.nodes (left_by columns panel_limits.nodes query database store.now steps.now)
        database store.now panel_limits.rows budget workspace.old answer.old))
        × (workspace.new ≡ workspace_after (begin columns panel_limits.nodes
        (left_by columns panel_limits.nodes query database store.now steps.now)
        database store.now panel_limits.rows budget workspace.old) workspace.old)
        × (answer.new ≡ answer_after (run_query columns panel_limits.nodes
        (left_by columns panel_limits.nodes query database store.now steps.now)
        database store.now panel_limits.rows budget workspace.old answer.old) answer.old) }
    ensures meaning { (told : Ran) → result ≡ Ok told
        → Means columns panel_limits.nodes query database store.now told.columns (rows_of columns told.rows answer.new) }
    ensures enough { PANEL_WORKSPACE ≤ length workspace.old
        → begin columns panel_limits.nodes (left_by columns panel_limits.nodes query database store.now steps.now)
        database store.now panel_limits.rows budget workspace.old
        ≡ check_over columns panel_limits.nodes (left_by columns panel_limits.nodes query database store.now steps.now)
        database store.now }
{
    engine::run_rewritten(
        query,
        database,
        store,
        PANEL_NODES,
        steps,
        PANEL_ROWS,
        budget,
        workspace,
        answer,
    )
}

// The panel's calls: the desk's without `limit` and `rows`.
ghost use Rattle.std.specs.Prelude.{◌≡◌};
ghost use Rattle.relation.specs.Rows.{columns};
ghost use Rattle.database.specs.Refusals.{verdict};
ghost use Rattle.machine.specs.Limits.{panel_limits};
ghost use Rattle.machine.specs.Run.{workspace_after, answer_after};
ghost use Rattle.machine.specs.Pauses.{ordinary, workspace_left, answer_left};
ghost use Rattle.flat.specs.Flat.{status, flat_nodes, flat_query, flat_run, flat_slots, flat_plan, flat_budget};
ghost use Rattle.capi.specs.Calls.{after, read_flat, path_flat, check_flat, rewrite_flat, begin_flat, run_flat, begin_part_flat, begin_again_flat, begin_run_flat, resume_flat, paused_after, compile_flat, allowance_flat};

use super::calls::{
    capeshard_allowance, capeshard_check, capeshard_compile, capeshard_read_path,
    capeshard_read_query, capeshard_rewrite, capeshard_run,
};
use super::part_calls::{capeshard_begin, capeshard_resume};
use panel::{PANEL_NODES, PANEL_ROWS};

// Reads a sheet's text into a flat query.
#[unsafe(no_mangle)]
pub extern "C" fn capeshard_panel_read_query(text: &[u8], query: &mut [u32]) -> u64
    ensures { (result ≡ status (verdict (read_flat panel_limits.nodes text.now query.old)))
        × (query.new ≡ after flat_nodes (read_flat panel_limits.nodes text.now query.old) query.old) }
{
    capeshard_read_query(text, PANEL_NODES, query)
}

// Reads a property path over a flat database and its store into a flat query.
#[unsafe(no_mangle)]
pub extern "C" fn capeshard_panel_read_path(
    path: &[u8],
    database: &[u32],
    store: &[u32],
    query: &mut [u32],
) -> u64
    ensures { (result ≡ status (verdict (path_flat panel_limits.nodes path.now database.now store.now query.old)))
        × (query.new ≡ after flat_nodes (path_flat panel_limits.nodes path.now database.now store.now query.old) query.old) }
{
    capeshard_read_path(path, database, store, PANEL_NODES, query)
}

// Checks a flat query over a flat database and its store.
#[unsafe(no_mangle)]
pub extern "C" fn capeshard_panel_check(query: &[u32], database: &[u32], store: &[u32]) -> u64
    ensures { result ≡ status (verdict (check_flat panel_limits.nodes query.now database.now store.now)) }
{
    capeshard_check(query, database, store, PANEL_NODES)
}

// Rewrites a flat query by a kind at a node; a refusal leaves it as it was.
#[unsafe(no_mangle)]
pub extern "C" fn capeshard_panel_rewrite(
    query: &mut [u32],
    database: &[u32],
    store: &[u32],
    kind: u32,
    node: u32,
) -> u64
    ensures { (result ≡ status (verdict (rewrite_flat panel_limits.nodes query.old database.now store.now kind node)))
        × (query.new ≡ after flat_query (rewrite_flat panel_limits.nodes query.old database.now store.now kind node) query.old) }
{
    capeshard_rewrite(query, database, store, PANEL_NODES, kind, node)
}

// Runs a flat query: the rows of its answer in `answer`, and in `out` the answer's columns, its row count and the lines run.
#[unsafe(no_mangle)]
pub extern "C" fn capeshard_panel_run(
    query: &[u32],
    database: &[u32],
    store: &[u32],
    budget: u32,
    workspace: &mut [u32],
    answer: &mut [u32],
    out: &mut [u32],
) -> u64
    ensures { (result ≡ status (verdict (run_flat panel_limits.nodes query.now database.now store.now panel_limits.rows budget workspace.old out.old answer.old)))
        × (workspace.new ≡ workspace_after (begin_flat panel_limits.nodes query.now database.now store.now panel_limits.rows budget workspace.old out.old) workspace.old)
        × (answer.new ≡ answer_after (run_flat panel_limits.nodes query.now database.now store.now panel_limits.rows budget workspace.old out.old answer.old) answer.old)
        × (out.new ≡ after flat_run (run_flat panel_limits.nodes query.now database.now store.now panel_limits.rows budget workspace.old out.old answer.old) out.old) }
{
    capeshard_run(
        query,
        database,
        store,
        PANEL_NODES,
        PANEL_ROWS,
        budget,
        workspace,
        answer,
        out,
    )
}

// Runs a flat query; where the budget is spent, the pause stands in `pause` and its registers in the workspace.
#[unsafe(no_mangle)]
pub extern "C" fn capeshard_panel_begin(
    query: &[u32],
    database: &[u32],
    store: &[u32],
    budget: u32,
    workspace: &mut [u32],
    answer: &mut [u32],
    out: &mut [u32],
    pause: &mut [u32],
) -> u64
    ensures { (result ≡ status (verdict (ordinary (begin_run_flat panel_limits.nodes query.now database.now store.now panel_limits.rows budget workspace.old out.old pause.old answer.old))))
        × (workspace.new ≡ workspace_left columns panel_limits.rows (begin_part_flat panel_limits.nodes query.now database.now store.now panel_limits.rows budget workspace.old out.old pause.old)
        (begin_run_flat panel_limits.nodes query.now database.now store.now panel_limits.rows budget workspace.old out.old pause.old answer.old) workspace.old)
        × (answer.new ≡ answer_left (begin_run_flat panel_limits.nodes query.now database.now store.now panel_limits.rows budget workspace.old out.old pause.old answer.old) answer.old)
        × (out.new ≡ after flat_run (ordinary (begin_run_flat panel_limits.nodes query.now database.now store.now panel_limits.rows budget workspace.old out.old pause.old answer.old)) out.old)
        × (pause.new ≡ paused_after (begin_run_flat panel_limits.nodes query.now database.now store.now panel_limits.rows budget workspace.old out.old pause.old answer.old) pause.old) }
{
    let rows = PANEL_ROWS;
    capeshard_begin(
        query,
        database,
        store,
        PANEL_NODES,
        rows,
        budget,
        workspace,
        answer,
        out,
        pause,
    )
}

// Goes on from the pause in `pause`, whose registers stand in the workspace, with a further allowance.
#[unsafe(no_mangle)]
pub extern "C" fn capeshard_panel_resume(
    query: &[u32],
    database: &[u32],
    store: &[u32],
    budget: u32,
    workspace: &mut [u32],
    answer: &mut [u32],
    out: &mut [u32],
    pause: &mut [u32],
) -> u64
    ensures { (result ≡ status (verdict (ordinary (resume_flat panel_limits.nodes query.now database.now store.now panel_limits.rows budget workspace.old out.old pause.old answer.old))))
        × (workspace.new ≡ workspace_left columns panel_limits.rows (begin_again_flat panel_limits.nodes query.now database.now store.now panel_limits.rows budget workspace.old out.old pause.old)
        (resume_flat panel_limits.nodes query.now database.now store.now panel_limits.rows budget workspace.old out.old pause.old answer.old) workspace.old)
        × (answer.new ≡ answer_left (resume_flat panel_limits.nodes query.now database.now store.now panel_limits.rows budget workspace.old out.old pause.old answer.old) answer.old)
        × (out.new ≡ after flat_run (ordinary (resume_flat panel_limits.nodes query.now database.now store.now panel_limits.rows budget workspace.old out.old pause.old answer.old)) out.old)
        × (pause.new ≡ paused_after (resume_flat panel_limits.nodes query.now database.now store.now panel_limits.rows budget workspace.old out.old pause.old answer.old) pause.old) }
{
    let rows = PANEL_ROWS;
    capeshard_resume(
        query,
        database,
        store,
        PANEL_NODES,
        rows,
        budget,
        workspace,
        answer,
        out,
        pause,
    )
}

// Compiles a flat query into a flat plan.
#[unsafe(no_mangle)]
pub extern "C" fn capeshard_panel_compile(
    query: &[u32],
    database: &[u32],
    store: &[u32],
    plan: &mut [u32],
) -> u64
    ensures { (result ≡ status (verdict (compile_flat panel_limits.nodes query.now database.now store.now plan.old)))
        × (plan.new ≡ after flat_slots (compile_flat panel_limits.nodes query.now database.now store.now plan.old) plan.old) }
{
    capeshard_compile(query, database, store, PANEL_NODES, plan)
}

// Compiles a flat query into a flat plan, and tells in `out` the product of its number of lines and the panel's row limit.
#[unsafe(no_mangle)]
pub extern "C" fn capeshard_panel_allowance(
    query: &[u32],
    database: &[u32],
    store: &[u32],
    plan: &mut [u32],
    out: &mut [u32],
) -> u64
    ensures { (result ≡ status (verdict (allowance_flat panel_limits.nodes query.now database.now store.now panel_limits.rows plan.old out.old)))
        × (plan.new ≡ after flat_plan (allowance_flat panel_limits.nodes query.now database.now store.now panel_limits.rows plan.old out.old) plan.old)
        × (out.new ≡ after flat_budget (allowance_flat panel_limits.nodes query.now database.now store.now panel_limits.rows plan.old out.old) out.old) }
{
    capeshard_allowance(query, database, store, PANEL_NODES, PANEL_ROWS, plan, out)
}

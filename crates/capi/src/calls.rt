// The calls: each decodes its flat slices, calls the engine once, and encodes what that replies.
ghost use Rattle.std.specs.Prelude.{◌≡◌, min};
ghost use Rattle.database.specs.Refusals.{verdict};
ghost use Rattle.query.specs.Lines.{node_limit};
ghost use Rattle.text.specs.Replies.{store_after};
ghost use Rattle.machine.specs.Run.{workspace_after, answer_after};
ghost use Rattle.flat.specs.Flat.{status, flat_nodes, flat_query, flat_run, flat_slots, flat_plan, flat_budget};
ghost use Rattle.capi.specs.Calls.{after, Told, read_flat, path_flat, load_flat, flat_tables, check_flat, rewrite_flat, begin_flat, run_flat, compile_flat, allowance_flat};

use database::Refusal;
use flat::{
    ALLOWANCE_ROOM, DATABASE_ROOM, PLAN_ROOM, QUERY_ROOM, RUN_ROOM, decode_database, decode_query,
    encode_database, encode_query, encode_run, have_room, room_for, status,
};
use flat_plans::encode_plan;

#[tactic(auto, using(text::proofs::QueryValue::nodes_value))]
fn read_query(text: &[u8], limit: usize, query: &mut [u32]) -> Result<(), Refusal>
    ensures { Told flat_nodes query.old (read_flat (min limit node_limit) text.now query.old) result query.new }
{
    room_for(QUERY_ROOM, query)?;
    let read = reading::read_query(text, limit)?;
    encode_query(read, query);
    Ok(())
}

// Reads a sheet's text into a flat query.
#[unsafe(no_mangle)]
pub extern "C" fn capeshard_read_query(text: &[u8], limit: usize, query: &mut [u32]) -> u64
    ensures { (result ≡ status (verdict (read_flat (min limit node_limit) text.now query.old)))
        × (query.new ≡ after flat_nodes (read_flat (min limit node_limit) text.now query.old) query.old) }
{
    status(read_query(text, limit, query))
}

#[tactic(auto, using(text::proofs::QueryValue::nodes_value))]
fn read_path(
    path: &[u8],
    database: &[u32],
    store: &[u32],
    limit: usize,
    query: &mut [u32],
) -> Result<(), Refusal>
    ensures { Told flat_nodes query.old (path_flat (min limit node_limit) path.now database.now store.now query.old) result query.new }
{
    have_room(query, database)?;
    let read = path_queries::read_path(path, decode_database(database), store, limit)?;
    encode_query(read, query);
    Ok(())
}

// Reads a property path over a flat database and its store into a flat query.
#[unsafe(no_mangle)]
pub extern "C" fn capeshard_read_path(
    path: &[u8],
    database: &[u32],
    store: &[u32],
    limit: usize,
    query: &mut [u32],
) -> u64
    ensures { (result ≡ status (verdict (path_flat (min limit node_limit) path.now database.now store.now query.old)))
        × (query.new ≡ after flat_nodes (path_flat (min limit node_limit) path.now database.now store.now query.old) query.old) }
{
    status(read_path(path, database, store, limit, query))
}

#[tactic(auto, using(laws::proofs::FlatMaps::flat_map_none))]
fn read_database(text: &[u8], database: &mut [u32], store: &mut [u32]) -> Result<(), Refusal>
    ensures { Told flat_tables database.old (load_flat text.now database.old store.old) result database.new
        × (store.new ≡ store_after (load_flat text.now database.old store.old) store.old) }
{
    room_for(DATABASE_ROOM, database)?;
    let read = loading::read_database(text, store)?;
    encode_database(read, database);
    Ok(())
}

// Reads a book's text into a flat database, its rows into a store.
#[unsafe(no_mangle)]
pub extern "C" fn capeshard_read_database(
    text: &[u8],
    database: &mut [u32],
    store: &mut [u32],
) -> u64
    ensures { (result ≡ status (verdict (load_flat text.now database.old store.old)))
        × (database.new ≡ after flat_tables (load_flat text.now database.old store.old) database.old)
        × (store.new ≡ store_after (load_flat text.now database.old store.old) store.old) }
{
    status(read_database(text, database, store))
}

fn check(query: &[u32], database: &[u32], store: &[u32], limit: usize) -> Result<(), Refusal>
    ensures { result ≡ verdict (check_flat (min limit node_limit) query.now database.now store.now) }
{
    have_room(query, database)?;
    checking::check(decode_query(query), decode_database(database), store, limit)?;
    Ok(())
}

// Checks a flat query over a flat database and its store.
#[unsafe(no_mangle)]
pub extern "C" fn capeshard_check(
    query: &[u32],
    database: &[u32],
    store: &[u32],
    limit: usize,
) -> u64
    ensures { result ≡ status (verdict (check_flat (min limit node_limit) query.now database.now store.now)) }
{
    status(check(query, database, store, limit))
}

fn rewrite(
    query: &mut [u32],
    database: &[u32],
    store: &[u32],
    limit: usize,
    kind: u32,
    node: u32,
) -> Result<(), Refusal>
    ensures { Told flat_query query.old (rewrite_flat (min limit node_limit) query.old database.now store.now kind node) result query.new }
{
    have_room(query, database)?;
    let given = decode_query(query);
    let next = rewriting::rewrite(given, decode_database(database), store, limit, kind, node)?;
    encode_query(next, query);
    Ok(())
}

// Rewrites a flat query by a kind at a node; a refusal leaves it as it was.
#[unsafe(no_mangle)]
pub extern "C" fn capeshard_rewrite(
    query: &mut [u32],
    database: &[u32],
    store: &[u32],
    limit: usize,
    kind: u32,
    node: u32,
) -> u64
    ensures { (result ≡ status (verdict (rewrite_flat (min limit node_limit) query.old database.now store.now kind node)))
        × (query.new ≡ after flat_query (rewrite_flat (min limit node_limit) query.old database.now store.now kind node) query.old) }
{
    status(rewrite(query, database, store, limit, kind, node))
}

fn run(
    query: &[u32],
    database: &[u32],
    store: &[u32],
    limit: usize,
    rows: usize,
    budget: u32,
    workspace: &mut [u32],
    answer: &mut [u32],
    out: &mut [u32],
) -> Result<(), Refusal>
    ensures { Told flat_run out.old (run_flat (min limit node_limit) query.now database.now store.now rows budget workspace.old out.old answer.old) result out.new
        × (workspace.new ≡ workspace_after (begin_flat (min limit node_limit) query.now database.now store.now rows budget workspace.old out.old) workspace.old)
        × (answer.new ≡ answer_after (run_flat (min limit node_limit) query.now database.now store.now rows budget workspace.old out.old answer.old) answer.old) }
{
    have_room(query, database)?;
    room_for(RUN_ROOM, out)?;
    let told = run::run(
        decode_query(query),
        decode_database(database),
        store,
        limit,
        rows,
        budget,
        workspace,
        answer,
    )?;
    encode_run(told, out);
    Ok(())
}

// Runs a flat query: the rows of its answer in `answer`, and in `out` the answer's columns, its row count and the lines run.
#[unsafe(no_mangle)]
pub extern "C" fn capeshard_run(
    query: &[u32],
    database: &[u32],
    store: &[u32],
    limit: usize,
    rows: usize,
    budget: u32,
    workspace: &mut [u32],
    answer: &mut [u32],
    out: &mut [u32],
) -> u64
    ensures { (result ≡ status (verdict (run_flat (min limit node_limit) query.now database.now store.now rows budget workspace.old out.old answer.old)))
        × (workspace.new ≡ workspace_after (begin_flat (min limit node_limit) query.now database.now store.now rows budget workspace.old out.old) workspace.old)
        × (answer.new ≡ answer_after (run_flat (min limit node_limit) query.now database.now store.now rows budget workspace.old out.old answer.old) answer.old)
        × (out.new ≡ after flat_run (run_flat (min limit node_limit) query.now database.now store.now rows budget workspace.old out.old answer.old) out.old) }
{
    status(run(
        query, database, store, limit, rows, budget, workspace, answer, out,
    ))
}

fn compile(
    query: &[u32],
    database: &[u32],
    store: &[u32],
    limit: usize,
    plan: &mut [u32],
) -> Result<(), Refusal>
    ensures { Told flat_slots plan.old (compile_flat (min limit node_limit) query.now database.now store.now plan.old) result plan.new }
{
    have_room(query, database)?;
    room_for(PLAN_ROOM, plan)?;
    let built = compiling::compile(decode_query(query), decode_database(database), store, limit)?;
    encode_plan(built, plan);
    Ok(())
}

// Compiles a flat query into a flat plan.
#[unsafe(no_mangle)]
pub extern "C" fn capeshard_compile(
    query: &[u32],
    database: &[u32],
    store: &[u32],
    limit: usize,
    plan: &mut [u32],
) -> u64
    ensures { (result ≡ status (verdict (compile_flat (min limit node_limit) query.now database.now store.now plan.old)))
        × (plan.new ≡ after flat_slots (compile_flat (min limit node_limit) query.now database.now store.now plan.old) plan.old) }
{
    status(compile(query, database, store, limit, plan))
}

fn allowance(
    query: &[u32],
    database: &[u32],
    store: &[u32],
    limit: usize,
    rows: usize,
    plan: &mut [u32],
    out: &mut [u32],
) -> Result<(), Refusal>
    ensures { Told flat_plan plan.old (allowance_flat (min limit node_limit) query.now database.now store.now rows plan.old out.old) result plan.new
        × (out.new ≡ after flat_budget (allowance_flat (min limit node_limit) query.now database.now store.now rows plan.old out.old) out.old) }
{
    have_room(query, database)?;
    room_for(PLAN_ROOM, plan)?;
    room_for(ALLOWANCE_ROOM, out)?;
    let allowed = allowance::allowance(
        decode_query(query),
        decode_database(database),
        store,
        limit,
        rows,
    )?;
    encode_plan(allowed.plan, plan);
    out[0] = allowed.budget;
    Ok(())
}

// Compiles a flat query into a flat plan, and tells in `out` the product of its number of lines and the row limit.
#[unsafe(no_mangle)]
pub extern "C" fn capeshard_allowance(
    query: &[u32],
    database: &[u32],
    store: &[u32],
    limit: usize,
    rows: usize,
    plan: &mut [u32],
    out: &mut [u32],
) -> u64
    ensures { (result ≡ status (verdict (allowance_flat (min limit node_limit) query.now database.now store.now rows plan.old out.old)))
        × (plan.new ≡ after flat_plan (allowance_flat (min limit node_limit) query.now database.now store.now rows plan.old out.old) plan.old)
        × (out.new ≡ after flat_budget (allowance_flat (min limit node_limit) query.now database.now store.now rows plan.old out.old) out.old) }
{
    status(allowance(query, database, store, limit, rows, plan, out))
}

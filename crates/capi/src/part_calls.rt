// The calls of a run that can be gone on with, over flat slices.
ghost use Rattle.std.specs.Prelude.{◌≡◌, min};
ghost use Rattle.relation.specs.Rows.{columns};
ghost use Rattle.database.specs.declared.Refusal.TheVariants.{ShortSlice};
ghost use Rattle.database.specs.Refusals.{verdict, require};
ghost use Rattle.query.specs.Lines.{node_limit};
ghost use Rattle.machine.specs.Pauses.{ordinary, workspace_left, answer_left};
ghost use Rattle.flat.specs.Flat.{status, flat_run};
ghost use Rattle.capi.specs.Calls.{after, Told, part_room, begin_part_flat, begin_again_flat, begin_run_flat, resume_flat, paused_after};

use database::Refusal;
use flat::{
    PAUSE_ROOM, RUN_ROOM, decode_database, decode_pause, decode_query, encode_progress, have_room,
    room_for, status,
};

// Refuses the flat slices if one is short.
fn part_room(query: &[u32], database: &[u32], out: &[u32], pause: &[u32]) -> Result<(), Refusal>
    ensures { result ≡ verdict (require (part_room query.now database.now out.now pause.now) ShortSlice) }
{
    have_room(query, database)?;
    room_for(RUN_ROOM, out)?;
    room_for(PAUSE_ROOM, pause)
}

fn begin(
    query: &[u32],
    database: &[u32],
    store: &[u32],
    limit: usize,
    rows: usize,
    budget: u32,
    workspace: &mut [u32],
    answer: &mut [u32],
    out: &mut [u32],
    pause: &mut [u32],
) -> Result<(), Refusal>
    ensures { Told flat_run out.old (ordinary (begin_run_flat (min limit node_limit) query.now database.now store.now rows budget workspace.old out.old pause.old answer.old)) result out.new
        × (workspace.new ≡ workspace_left columns rows (begin_part_flat (min limit node_limit) query.now database.now store.now rows budget workspace.old out.old pause.old)
        (begin_run_flat (min limit node_limit) query.now database.now store.now rows budget workspace.old out.old pause.old answer.old) workspace.old)
        × (answer.new ≡ answer_left (begin_run_flat (min limit node_limit) query.now database.now store.now rows budget workspace.old out.old pause.old answer.old) answer.old)
        × (pause.new ≡ paused_after (begin_run_flat (min limit node_limit) query.now database.now store.now rows budget workspace.old out.old pause.old answer.old) pause.old) }
{
    part_room(query, database, out, pause)?;
    let progress = run::begin_run(
        decode_query(query),
        decode_database(database),
        store,
        limit,
        rows,
        budget,
        workspace,
        answer,
    )?;
    encode_progress(progress, out, pause)
}

// Runs a flat query as `capeshard_run` does; where the budget is spent, the pause stands in `pause` and its registers in the workspace.
#[unsafe(no_mangle)]
pub extern "C" fn capeshard_begin(
    query: &[u32],
    database: &[u32],
    store: &[u32],
    limit: usize,
    rows: usize,
    budget: u32,
    workspace: &mut [u32],
    answer: &mut [u32],
    out: &mut [u32],
    pause: &mut [u32],
) -> u64
    ensures { (result ≡ status (verdict (ordinary (begin_run_flat (min limit node_limit) query.now database.now store.now rows budget workspace.old out.old pause.old answer.old))))
        × (workspace.new ≡ workspace_left columns rows (begin_part_flat (min limit node_limit) query.now database.now store.now rows budget workspace.old out.old pause.old)
        (begin_run_flat (min limit node_limit) query.now database.now store.now rows budget workspace.old out.old pause.old answer.old) workspace.old)
        × (answer.new ≡ answer_left (begin_run_flat (min limit node_limit) query.now database.now store.now rows budget workspace.old out.old pause.old answer.old) answer.old)
        × (out.new ≡ after flat_run (ordinary (begin_run_flat (min limit node_limit) query.now database.now store.now rows budget workspace.old out.old pause.old answer.old)) out.old)
        × (pause.new ≡ paused_after (begin_run_flat (min limit node_limit) query.now database.now store.now rows budget workspace.old out.old pause.old answer.old) pause.old) }
{
    status(begin(
        query, database, store, limit, rows, budget, workspace, answer, out, pause,
    ))
}

fn resume(
    query: &[u32],
    database: &[u32],
    store: &[u32],
    limit: usize,
    rows: usize,
    budget: u32,
    workspace: &mut [u32],
    answer: &mut [u32],
    out: &mut [u32],
    pause: &mut [u32],
) -> Result<(), Refusal>
    ensures { Told flat_run out.old (ordinary (resume_flat (min limit node_limit) query.now database.now store.now rows budget workspace.old out.old pause.old answer.old)) result out.new
        × (workspace.new ≡ workspace_left columns rows (begin_again_flat (min limit node_limit) query.now database.now store.now rows budget workspace.old out.old pause.old)
        (resume_flat (min limit node_limit) query.now database.now store.now rows budget workspace.old out.old pause.old answer.old) workspace.old)
        × (answer.new ≡ answer_left (resume_flat (min limit node_limit) query.now database.now store.now rows budget workspace.old out.old pause.old answer.old) answer.old)
        × (pause.new ≡ paused_after (resume_flat (min limit node_limit) query.now database.now store.now rows budget workspace.old out.old pause.old answer.old) pause.old) }
{
    part_room(query, database, out, pause)?;
    let place = decode_pause(pause);
    let progress = run::resume(
        decode_query(query),
        decode_database(database),
        store,
        limit,
        rows,
        place,
        budget,
        workspace,
        answer,
    )?;
    encode_progress(progress, out, pause)
}

// Goes on from the pause in `pause`, whose registers stand in the workspace, with a further allowance.
#[unsafe(no_mangle)]
pub extern "C" fn capeshard_resume(
    query: &[u32],
    database: &[u32],
    store: &[u32],
    limit: usize,
    rows: usize,
    budget: u32,
    workspace: &mut [u32],
    answer: &mut [u32],
    out: &mut [u32],
    pause: &mut [u32],
) -> u64
    ensures { (result ≡ status (verdict (ordinary (resume_flat (min limit node_limit) query.now database.now store.now rows budget workspace.old out.old pause.old answer.old))))
        × (workspace.new ≡ workspace_left columns rows (begin_again_flat (min limit node_limit) query.now database.now store.now rows budget workspace.old out.old pause.old)
        (resume_flat (min limit node_limit) query.now database.now store.now rows budget workspace.old out.old pause.old answer.old) workspace.old)
        × (answer.new ≡ answer_left (resume_flat (min limit node_limit) query.now database.now store.now rows budget workspace.old out.old pause.old answer.old) answer.old)
        × (out.new ≡ after flat_run (ordinary (resume_flat (min limit node_limit) query.now database.now store.now rows budget workspace.old out.old pause.old answer.old)) out.old)
        × (pause.new ≡ paused_after (resume_flat (min limit node_limit) query.now database.now store.now rows budget workspace.old out.old pause.old answer.old) pause.old) }
{
    status(resume(
        query, database, store, limit, rows, budget, workspace, answer, out, pause,
    ))
}

// All registers of a workspace, and the whole test of 23.
ghost use Rattle.std.specs.Prelude.{◌≡◌};
ghost use Rattle.algebra.specs.Term.{Term};
ghost use Rattle.relation.specs.Rows.{columns};
ghost use Rattle.database.specs.declared.Database.{Database};
ghost use Rattle.database.specs.Stored.{schema};
ghost use Rattle.machine.specs.Pauses.{pause_ok};
ghost use Rattle.pauses.specs.Tested.{Laid, CanLay, places_ok, Tests, CanTest};

use super::places::{node_ok, zeros};
use machine::Pause;
use query::nodes::{has_step, node_at};
use query::{Facts, Query};
use relation::COLUMNS;

// "up to 4,294,967,295 in all"
const MOST_LINES: u32 = u32::MAX;

// Whether each register may hold what it holds, "one holder a node, in node order, then one more a fix", and all other entries are zero.
fn registers_ok(query: Query, facts: Facts, limit: usize, ws: &[u32]) -> bool
    requires { CanLay columns query facts limit ws.now }
    ensures { (d : Database) (t : Term) → Laid columns query facts limit ws.now d t
        → result ≡ places_ok columns limit (schema columns d) t ws.now }
{
    let count = query.count;
    let mut registers = count; // the next fix's delta register
    for i in 0..count {
        let node = node_at(query, i);
        if !node_ok(ws, limit, node, facts.columns[i], i, registers) {
            return false;
        }
        if has_step(node) {
            registers += 1;
        }
    }
    let used = registers * (1 + COLUMNS * limit);
    zeros(ws, used, ws.len() - used)
}

// Whether a run can go on from a pause with a further allowance, in a workspace with room for its registers. lines: those of the plan.
pub fn pause_ok(
    query: Query,
    facts: Facts,
    lines: usize,
    limit: usize,
    budget: u32,
    pause: Pause,
    ws: &[u32],
) -> bool
    requires { CanTest columns query facts lines limit ws.now }
    ensures { (d : Database) (t : Term) → Tests columns query facts lines limit ws.now d t
        → result ≡ pause_ok (schema columns d) limit budget t pause ws.now }
{
    let next = pause.next as usize;
    if next == 0 || lines < next {
        return false;
    }
    budget <= MOST_LINES - pause.ran && registers_ok(query, facts, limit, ws)
}

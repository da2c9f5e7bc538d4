// Plans in flat slices.
#![tactic(auto)]

ghost use Rattle.std.specs.Prelude.{◌≡◌, ◌<◌, ◌≤◌, ◌+◌, length};
ghost use Rattle.std.proofs.lemmas.List.Edits.{sets};
ghost use Rattle.plan.specs.declared.Op.TheVariants.{Filter, Pair};
ghost use Rattle.flat.specs.Flat.{over, op_line, flat_op, slot_of, plan_room, plan_slots, flat_slots};

use algebra::{Condition, Pairing};
use flat::encode::{bits_of, entry, put_line};
use flat::{FlatLine, FlatOp, SLOT_ENTRIES};
use plan::{LINES, Op, Plan, Slot};

fn op_line(code: u32, to: usize, a: usize, b: usize, c: usize) -> FlatOp
    ensures { result ≡ op_line code to a b c }
{
    FlatOp {
        code,
        to: entry(to),
        a: entry(a),
        b: entry(b),
        c: entry(c),
    }
}

fn pair_op(to: usize, left: usize, right: usize, pairing: Pairing) -> FlatOp
    ensures { result ≡ flat_op (Pair to left right pairing) }
{
    let line = FlatLine::from(pairing);
    op_line(line.code, to, left, right, 0)
}

fn filter_op(to: usize, from: usize, condition: Condition) -> FlatOp
    ensures { result ≡ flat_op (Filter to from condition) }
{
    let line = FlatLine::from(condition);
    op_line(line.code, to, from, line.a as usize, line.b as usize)
}

// The code and the numbers of a plan line.
fn flat_op(op: Op) -> FlatOp
    ensures { result ≡ flat_op op }
{
    match op {
        Op::Table { to, table } => op_line(1, to, table, 0, 0),
        Op::Fact { to, column, value } => op_line(3, to, column, value as usize, 0),
        Op::Pair {
            to,
            left,
            right,
            pairing,
        } => pair_op(to, left, right, pairing),
        Op::Filter {
            to,
            from,
            condition,
        } => filter_op(to, from, condition),
        Op::Copy {
            to,
            from,
            column,
            new,
        } => op_line(11, to, from, column, new),
        Op::Drop { to, from, column } => op_line(12, to, from, column, 0),
        Op::Last { to, from, column } => op_line(16, to, from, column, 0),
        Op::LoopStart {
            total,
            delta,
            from,
            path,
        } => op_line(14, total, delta, from, path),
        Op::LoopNext {
            total,
            delta,
            from,
            path,
        } => op_line(13, total, delta, from, path),
    }
}

// Writes a line's entries.
fn put_slot(slot: Slot, out: &mut [u32], at: usize)
    requires { at + 6 < length out.old }
    ensures { out.new ≡ sets out.old at (slot_of slot) }
{
    let line = flat_op(slot.op);
    let first = bits_of(slot.left);
    let second = bits_of(slot.right);
    let head = FlatLine {
        code: line.code,
        a: line.to,
        b: line.a,
    };
    let tail = FlatLine {
        code: line.b,
        a: line.c,
        b: first,
    };
    put_line(head, out, at);
    put_line(tail, out, at + 3);
    out[at + 6] = second;
}

// Writes a plan's line count and lines; the entries behind them stay.
pub fn encode_plan(plan: Plan, out: &mut [u32])
    requires { plan_room ≤ length out.old }
    ensures { out.new ≡ over (flat_slots (plan_slots plan)) out.old }
{
    let count = plan.count.min(LINES);
    for i in 0..count {
        put_slot(plan.ops[i], out, 1 + SLOT_ENTRIES * i);
    }
    out[0] = entry(count);
}

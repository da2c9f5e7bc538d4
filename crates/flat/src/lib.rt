// Queries, databases, plans and what a run tells in flat slices of u32.
//
// A query takes QUERY_ROOM entries: its node count, then for each of NODES lines a code and two numbers, 0 where the line has none. The codes:
// 1 table=a, 2 var=a, 3 fact=a,b, 4 pair=union, 5 pair=join, 6 pair=except, 7 eq=a,b, 8 ne=a,b, 9 max=a,b, 10 same=a,b, 11 copy=a,b, 12 drop=a,
// 13 fix=a, 15 mu=a, 16 last=a. A line with another code is off the form (1 with its node). Lines past the count mean nothing.
//
// A database takes DATABASE_ROOM entries: its table count, then for each of TABLES tables its columns, column c with worth 2^c, and its row count.
// A column over the highest makes the table off the form (11 with its number).
//
// A run tells three entries: the columns of its answer as above, its row count, and the lines run.
//
// A pause takes two entries: the next plan line, counted from 1, and the lines run.
//
// A plan takes PLAN_ROOM entries: its line count, then seven a line, namely a code, the register that it writes, three numbers in the order of the
// fields of plan::Op, and the columns of a pair's operands. The codes are those of the node lines; 13 is a fix's own line, 14 its start, which no node line has.
//
// An allowance takes one entry.
//
// A verdict is 0 if it accepts, else the refusal's number times 2^32 and its place; a place over 4,294,967,295 is given as that.
#![tactic(auto)]

mod decode; // decode.rt: from flat slices to values
pub mod encode; // encode.rt: from values to flat slices

use database::TABLES;
pub use decode::{decode_database, decode_pause, decode_query, have_room, room_for};
pub use encode::{encode_database, encode_progress, encode_query, encode_run, status};
use query::NODES;

pub const LINE_ENTRIES: usize = 3;

pub const QUERY_ROOM: usize = 1 + LINE_ENTRIES * NODES;

pub const TABLE_ENTRIES: usize = 2;

pub const DATABASE_ROOM: usize = 1 + TABLE_ENTRIES * TABLES;

pub const RUN_ROOM: usize = 3;

pub const PAUSE_ROOM: usize = 2;

pub const SLOT_ENTRIES: usize = 7;

pub const PLAN_ROOM: usize = 1 + SLOT_ENTRIES * NODES;

pub const ALLOWANCE_ROOM: usize = 1;

// A plan line as a code and four numbers.
#[derive(Clone, Copy, Debug, PartialEq, Eq)]
pub struct FlatOp {
    pub code: u32,
    pub to: u32,
    pub a: u32,
    pub b: u32,
    pub c: u32,
}

// A node line as a code and two numbers.
#[derive(Clone, Copy, Debug, PartialEq, Eq)]
pub struct FlatLine {
    pub code: u32,
    pub a: u32,
    pub b: u32,
}

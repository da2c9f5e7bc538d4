// The sheet of an accepted path's text (02, U6), by one pass over the bytes that stops as soon as there is no room.
#![tactic(auto)]

ghost use Rattle.std.specs.Prelude.{◌≡◌, min};
ghost use Rattle.database.specs.Refusals.{accepted};
ghost use Rattle.query.specs.Lines.{node_limit};
ghost use Rattle.text.specs.Replies.{query_reply};
ghost use Rattle.paths.specs.Grammar.{PropertyPath};
ghost use Rattle.paths.specs.Reader.{path_limit, read_path};
ghost use Rattle.paths.specs.Sheets.{lines_within};

use database::Refusal;
use path_reading::{PATH_BYTES, sign_of};
use query::{NODES, Query};
use signs::no_writing;

mod put_lines; // put_lines.rt: lines put behind a sheet's
mod signs; // signs.rt: what each sign does

// The lines written so far, and how many there may be.
#[derive(Clone, Copy)]
pub struct Sheet {
    pub query: Query,
    pub limit: usize,
}

// What stands before an operand since the start or a parenthesis: alternatives, a sequence, a `^`; the line at which the operand begins, and
// the recursions before it.
#[derive(Clone, Copy)]
pub struct Before {
    pub alternatives: bool,
    pub sequence: bool,
    pub inverted: bool,
    pub first: usize,
    pub number: usize,
}

// numbers: the recursions so far; ended: an operand has been read, so that a digit is its second one; outer: what stands before the open
// parentheses, the outermost first.
#[derive(Clone, Copy)]
pub struct Writing {
    pub sheet: Sheet,
    pub numbers: usize,
    pub ended: bool,
    pub before: Before,
    pub depth: usize,
    pub outer: [Before; PATH_BYTES],
}

// The sheet of a path's text, or 2 where it has more nodes than the limit. Of a text that is no path nothing is said.
pub fn write_path(path: &[u8], limit: usize) -> Result<Query, Refusal>
    ensures { (p : PropertyPath) → read_path path_limit path.now ≡ accepted p → result ≡ query_reply (lines_within (min limit node_limit) p) }
{
    let mut writing = no_writing(limit.min(NODES));
    for (i, &b) in path.iter().enumerate() {
        if i == PATH_BYTES {
            return Err(Refusal::NodeCount(0));
        }
        writing.next(sign_of(b)).ok_or(Refusal::NodeCount(0))?;
    }
    writing
        .sheet
        .path_end(writing.before)
        .ok_or(Refusal::NodeCount(0))?;
    Ok(writing.sheet.query)
}

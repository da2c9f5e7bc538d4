// Reading a path's text (02, U6): 21 with its place, by one pass over the bytes that keeps what may follow and how many parentheses are open.
#![tactic(auto)]

ghost use Rattle.std.specs.Prelude.{◌≡◌, ◌&&◌, ◌≤◌, eqb};
ghost use Rattle.database.specs.Refusals.{verdict};
ghost use Rattle.paths.specs.Reader.{sign, path_limit, read_path};
ghost use Rattle.path_reading.specs.Modes.{due_next, after_next, primary_next, one_next, mode_next, depth_next, is_ended};

use byte_classes::{ByteClass, class_of};
use database::Refusal;
use paths::Sign;

// "1 to 128 bytes"
pub const PATH_BYTES: usize = 128;

const BAR: u8 = b'|';

const SLASH: u8 = b'/';

const CARET: u8 = b'^';

const CROSS: u8 = b'+';

const OPENING: u8 = b'(';

const CLOSING: u8 = b')';

// What may follow the bytes read: a primary or `^` is due; a primary is due; the name 1, which may go on as 10 to 15; a primary has ended; its `+` too.
#[derive(Clone, Copy, Debug, PartialEq, Eq)]
pub enum Mode {
    Due,
    Turned,
    NameOne,
    Primary,
    Complete,
}

#[tactic(auto, unfolding(paths::specs::Reader::sign), using(byte_classes::proofs::Bytes::no_digit))]
pub fn sign_of(b: u8) -> Sign
    ensures { result ≡ sign b }
{
    if let ByteClass::Digit(d) = class_of(b) {
        return Sign::Digit(d);
    }
    match b {
        BAR => Sign::Alternate,
        SLASH => Sign::Follow,
        CARET => Sign::Invert,
        CROSS => Sign::Repeat,
        OPENING => Sign::Enter,
        CLOSING => Sign::Leave,
        _ => Sign::Other,
    }
}

// A primary is due, behind `^` or not.
fn due_next(turned: bool, sign: Sign) -> Option<Mode>
    ensures { result ≡ due_next turned sign }
{
    match sign {
        Sign::Digit(1) => Some(Mode::NameOne),
        Sign::Digit(_) => Some(Mode::Primary),
        Sign::Invert if !turned => Some(Mode::Turned),
        Sign::Enter => Some(Mode::Due),
        _ => None,
    }
}

// An operand has ended, its `+` too.
fn after_next(depth: usize, sign: Sign) -> Option<Mode>
    ensures { result ≡ after_next depth sign }
{
    match sign {
        Sign::Alternate | Sign::Follow => Some(Mode::Due),
        Sign::Leave if depth != 0 => Some(Mode::Primary),
        _ => None,
    }
}

// A primary has ended: `+` may follow.
fn primary_next(depth: usize, sign: Sign) -> Option<Mode>
    ensures { result ≡ primary_next depth sign }
{
    match sign {
        Sign::Repeat => Some(Mode::Complete),
        _ => after_next(depth, sign),
    }
}

// The name 1: a second digit may follow, which makes 10 to 15.
fn one_next(depth: usize, sign: Sign) -> Option<Mode>
    ensures { result ≡ one_next depth sign }
{
    match sign {
        Sign::Digit(d) if d < 6 => Some(Mode::Primary),
        _ => primary_next(depth, sign),
    }
}

// One byte more: what may follow it, if it may stand there.
fn next_mode(mode: Mode, depth: usize, sign: Sign) -> Option<Mode>
    ensures { result ≡ mode_next mode depth sign }
{
    match mode {
        Mode::Due => due_next(false, sign),
        Mode::Turned => due_next(true, sign),
        Mode::NameOne => one_next(depth, sign),
        Mode::Primary => primary_next(depth, sign),
        Mode::Complete => after_next(depth, sign),
    }
}

// How many parentheses are open behind it.
fn next_depth(depth: usize, sign: Sign) -> usize
    requires { depth ≤ path_limit }
    ensures { result ≡ depth_next depth sign }
{
    match sign {
        Sign::Enter => depth + 1,
        Sign::Leave => depth.saturating_sub(1),
        _ => depth,
    }
}

// The text may end here.
fn finished(mode: Mode, depth: usize) -> bool
    ensures { result ≡ is_ended mode && eqb depth 0 }
{
    matches!(mode, Mode::NameOne | Mode::Primary | Mode::Complete) && depth == 0
}

// 21, or that the text is a path.
pub fn check_path(text: &[u8]) -> Result<(), Refusal>
    ensures { result ≡ verdict (read_path path_limit text.now) }
{
    let mut mode = Mode::Due;
    let mut depth = 0;
    for (i, &b) in text.iter().enumerate() {
        if i == PATH_BYTES {
            return Err(Refusal::PathForm(i + 1));
        }
        let sign = sign_of(b);
        mode = next_mode(mode, depth, sign).ok_or(Refusal::PathForm(i + 1))?;
        depth = next_depth(depth, sign);
    }
    if finished(mode, depth) {
        return Ok(());
    }
    Err(Refusal::PathForm(text.len() + 1))
}

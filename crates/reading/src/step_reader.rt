// Reading a line of a steps file: "lines `step=kind,node`".
ghost use Rattle.std.specs.Prelude.{◌≡◌, ℕ};
ghost use Rattle.laws.specs.Options.{mapped};
ghost use Rattle.text.specs.Lines.{step_line};
ghost use Rattle.text.specs.Cursors.{cursor, due_line, unnumbered};

use text::Step;
use text::line_reader::{find, read_two};

// A steps line without its last byte.
pub fn read_step(line: &[u8]) -> Option<Step>
    ensures { result ≡ step_line line.now }
{
    let (kind, node) = read_two(line, b"step=")?;
    Some(Step { kind, node })
}

// The steps line that begins at a place of a steps file, whatever its number, and the place behind it.
pub fn due_step(text: &[u8], at: usize) -> Option<(Step, usize)>
    ensures { (line : ℕ) → result ≡ mapped unnumbered (due_line step_line text.now (cursor at line)) }
{
    let end = find(text, at, b'\n');
    if text.len() <= end {
        return None;
    }
    let step = read_step(&text[at..end])?;
    Some((step, end + 1))
}

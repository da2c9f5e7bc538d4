// What each sign of an accepted path does to what is written.
ghost use Rattle.std.specs.Prelude.{◌≡◌};
ghost use Rattle.laws.specs.Options.{mapped};
ghost use Rattle.path_sheets.specs.BySign.{no_before, no_writing, due_with, ended_with, by_digit, by_bar, by_slash, by_caret, by_plus, by_enter, by_leave, by_sign};

use super::{Before, Sheet, Writing};
use path_reading::PATH_BYTES;
use paths::Sign;
use query::{NODES, Node};
use reading::no_nodes;

// Nothing stands before the first operand.
fn no_before() -> Before
    ensures { result ≡ no_before }
{
    Before {
        alternatives: false,
        sequence: false,
        inverted: false,
        first: 0,
        number: 0,
    }
}

pub fn no_writing(limit: usize) -> Writing
    ensures { result ≡ no_writing limit }
{
    let before = no_before();
    Writing {
        sheet: Sheet {
            query: no_nodes(),
            limit,
        },
        numbers: 0,
        ended: false,
        before,
        depth: 0,
        outer: [before; PATH_BYTES],
    }
}

// Each step is made in place. Where its lines find no room the answer is None, and of what is then written nothing is said.
impl Writing {
    // An operand is due behind the lines.
    fn due(&mut self, alternatives: bool, sequence: bool)
        ensures { self.new ≡ due_with self.old self.old.sheet alternatives sequence }
    {
        self.ended = false;
        self.before = Before {
            alternatives,
            sequence,
            inverted: false,
            first: self.sheet.query.count,
            number: self.numbers,
        };
    }

    // An operand has ended with the lines, and with these recursions.
    fn end(&mut self, numbers: usize)
        ensures { self.new ≡ ended_with self.old self.old.sheet numbers }
    {
        self.numbers = numbers;
        self.ended = true;
    }

    // A name, or the second digit of one, whose line takes the place of the first one's.
    fn digit(&mut self, d: u8) -> Option<()>
        ensures { mapped (λ _. self.new) result ≡ by_digit self.old d }
    {
        let t = u32::from(d);
        if self.ended {
            self.sheet.replace(self.before.first, Node::Table(10 + t));
        } else {
            self.sheet.put(Node::Table(t))?;
        }
        self.ended = true;
        Some(())
    }

    // `|`
    fn bar(&mut self) -> Option<()>
        ensures { mapped (λ _. self.new) result ≡ by_bar self.old }
    {
        self.sheet.path_end(self.before)?;
        self.due(true, false);
        Some(())
    }

    // `/`
    #[tactic(auto, using(crate::proofs::PutLines::put_append))]
    fn slash(&mut self) -> Option<()>
        ensures { mapped (λ _. self.new) result ≡ by_slash self.old }
    {
        self.sheet.sequence_end(self.before)?;
        self.sheet.to_middle()?;
        self.due(self.before.alternatives, true);
        Some(())
    }

    // `^`
    fn caret(&mut self)
        ensures { self.new ≡ by_caret self.old }
    {
        self.ended = false;
        self.before.inverted = true;
    }

    // `+`: the operand's recursions come twice, and the plus's own behind them.
    fn plus(&mut self) -> Option<()>
        ensures { mapped (λ _. self.new) result ≡ by_plus self.old }
    {
        let numbers = self.numbers.min(NODES);
        let by = numbers.saturating_sub(self.before.number);
        let v = numbers + by;
        self.sheet.plus_end(self.before.first, by, v as u32)?;
        self.end(v + 1);
        Some(())
    }

    // `(`
    fn enter(&mut self)
        ensures { self.new ≡ by_enter self.old }
    {
        let depth = self.depth;
        if PATH_BYTES <= depth {
            return;
        }
        self.outer[depth] = self.before;
        self.depth = depth + 1;
        self.due(false, false);
    }

    // `)`: the parenthesis is an operand behind what stands before it.
    fn leave(&mut self) -> Option<()>
        ensures { mapped (λ _. self.new) result ≡ by_leave self.old }
    {
        let depth = self.depth.saturating_sub(1);
        if PATH_BYTES <= depth {
            return Some(());
        }
        self.sheet.path_end(self.before)?;
        self.end(self.numbers);
        self.before = self.outer[depth];
        self.depth = depth;
        Some(())
    }

    // One byte more, by its sign, if its lines find room.
    pub fn next(&mut self, sign: Sign) -> Option<()>
        ensures { mapped (λ _. self.new) result ≡ by_sign self.old sign }
    {
        match sign {
            Sign::Digit(d) => self.digit(d),
            Sign::Alternate => self.bar(),
            Sign::Follow => self.slash(),
            Sign::Invert => {
                self.caret();
                Some(())
            }
            Sign::Repeat => self.plus(),
            Sign::Enter => {
                self.enter();
                Some(())
            }
            Sign::Leave => self.leave(),
            Sign::Other => Some(()),
        }
    }
}

// Lines put behind a sheet's, as far as there is room.
ghost use Rattle.std.specs.Prelude.{◌≡◌, [], ◌∷◌, ◌+◌, ◌-◌, ◌≤◌, min};
ghost use Rattle.laws.specs.Options.{mapped};
ghost use Rattle.query.specs.Lines.{node_limit};
ghost use Rattle.paths.specs.Patterns.{to_middle, from_middle, exchange};
ghost use Rattle.paths.specs.Written.{turn_end};
ghost use Rattle.path_sheets.specs.Put.{put_line, put_all, lines_if, sequence_last, path_last, raised_low, again_lines, plus_lines, replaced};

use super::{Before, Sheet};
use algebra::Pairing;
use query::{Line, NODES, Node, Query};
use reading::with_node;

// The lines are put in place. Where one finds no room the answer is None, and of what the sheet then holds nothing is said.
impl Sheet {
    // One line more, if there is room.
    #[tactic(auto, unfolding(crate::specs::Put::put_line))]
    pub fn put(&mut self, node: Node) -> Option<()>
        ensures { mapped (λ _. self.new) result ≡ put_line self.old node }
    {
        if self.limit <= self.query.count {
            return None;
        }
        self.query = with_node(self.query, node);
        Some(())
    }

    // Behind the left side of a sequence.
    #[tactic(auto, unfolding(crate::specs::Put::put_all))]
    pub fn to_middle(&mut self) -> Option<()>
        ensures { mapped (λ _. self.new) result ≡ put_all self.old to_middle }
    {
        self.put(Node::Copy(1, 2))?;
        self.put(Node::Drop(1))
    }

    // Behind its right side.
    #[tactic(auto, unfolding(crate::specs::Put::put_all))]
    fn from_middle(&mut self) -> Option<()>
        ensures { mapped (λ _. self.new) result ≡ put_all self.old from_middle }
    {
        self.put(Node::Copy(0, 2))?;
        self.put(Node::Drop(0))?;
        self.put(Node::Pair(Pairing::Join))?;
        self.put(Node::Drop(2))
    }

    // Behind the operand of an inverse.
    #[tactic(auto, unfolding(crate::specs::Put::put_all))]
    fn exchange(&mut self) -> Option<()>
        ensures { mapped (λ _. self.new) result ≡ put_all self.old exchange }
    {
        self.put(Node::Copy(0, 2))?;
        self.put(Node::Drop(0))?;
        self.put(Node::Copy(1, 0))?;
        self.put(Node::Drop(1))?;
        self.put(Node::Copy(2, 1))?;
        self.put(Node::Drop(2))
    }

    #[tactic(auto, unfolding(crate::specs::Put::put_all))]
    fn turn_end(&mut self, inverted: bool) -> Option<()>
        ensures { mapped (λ _. self.new) result ≡ put_all self.old (turn_end inverted) }
    {
        if inverted { self.exchange() } else { Some(()) }
    }

    #[tactic(auto, unfolding(crate::specs::Put::put_all))]
    fn middle_end(&mut self, sequence: bool) -> Option<()>
        ensures { mapped (λ _. self.new) result ≡ put_all self.old (lines_if sequence from_middle) }
    {
        if sequence {
            self.from_middle()
        } else {
            Some(())
        }
    }

    #[tactic(auto, unfolding(crate::specs::Put::put_all), using(crate::proofs::PutLines::put_single))]
    fn union_end(&mut self, alternatives: bool) -> Option<()>
        ensures { mapped (λ _. self.new) result ≡ put_all self.old (lines_if alternatives (Node.Pair Pairing.Union ∷ [])) }
    {
        if alternatives {
            self.put(Node::Pair(Pairing::Union))
        } else {
            Some(())
        }
    }

    // The lines that end a sequence.
    #[tactic(auto, using(crate::proofs::PutLines::put_append))]
    pub fn sequence_end(&mut self, before: Before) -> Option<()>
        ensures { mapped (λ _. self.new) result ≡ put_all self.old (sequence_last before) }
    {
        self.turn_end(before.inverted)?;
        self.middle_end(before.sequence)
    }

    // The lines that end a whole path.
    #[tactic(auto, using(crate::proofs::PutLines::put_append))]
    pub fn path_end(&mut self, before: Before) -> Option<()>
        ensures { mapped (λ _. self.new) result ≡ put_all self.old (path_last before) }
    {
        self.sequence_end(before)?;
        self.union_end(before.alternatives)
    }

    // The lines of a query from an index on, up to another, with their numbers raised.
    fn put_again(&mut self, source: &Query, first: usize, end: usize, by: usize) -> Option<()>
        requires { (end ≤ node_limit) × (by ≤ node_limit) }
        ensures { mapped (λ _. self.new) result ≡ put_all self.old (again_lines source.now first end by) }
    {
        for i in first..end {
            self.put(raise_line(source.lines[i].node, by))?;
        }
        Some(())
    }

    // Behind the operand of a plus, which begins at the line first: v is the plus's number.
    #[tactic(auto, unfolding(crate::specs::Put::put_all), using(crate::proofs::PutLines::put_append, crate::proofs::PutLines::put_single))]
    pub fn plus_end(&mut self, first: usize, by: usize, v: u32) -> Option<()>
        requires { by ≤ node_limit }
        ensures { mapped (λ _. self.new) result ≡ put_all self.old (plus_lines self.old.query first by v) }
    {
        let source = self.query;
        let end = source.count.min(NODES);
        self.put(Node::Var(v))?;
        self.to_middle()?;
        self.put_again(&source, first, end, by)?;
        self.from_middle()?;
        self.put(Node::Fix(v))
    }

    // The sheet with another line at an index.
    pub fn replace(&mut self, at: usize, node: Node)
        ensures { self.new ≡ replaced self.old at node }
    {
        if NODES <= at {
            return;
        }
        self.query.lines[at] = Line { node };
    }
}

// A recursion number raised; an accepted path's are far below the bound.
fn raise_number(v: u32, by: usize) -> u32
    requires { by ≤ node_limit }
    ensures { result ≡ min v node_limit + by }
{
    ((v as usize).min(NODES) + by) as u32
}

// A line with its recursion number raised.
fn raise_line(node: Node, by: usize) -> Node
    requires { by ≤ node_limit }
    ensures { result ≡ raised_low by node }
{
    match node {
        Node::Var(v) => Node::Var(raise_number(v, by)),
        Node::Fix(v) => Node::Fix(raise_number(v, by)),
        Node::Mu(v) => Node::Mu(raise_number(v, by)),
        _ => node,
    }
}

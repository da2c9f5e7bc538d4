// Rewriting a query by the papers' kinds: the columns used along a fix's path, the moves of lines, and what a step hands back. These are inner functions,
// for a query that has been checked.
#![tactic(auto)]

ghost use Rattle.std.specs.Prelude.{◌≡◌};

use database::Refusal;
use query::Query;

pub mod nodes; // nodes.rt: the line of a node and what the check tells of it
pub mod path; // path.rt: the columns used along the path of a fix
pub mod splice; // splice.rt: the moves of lines by which the rules write their sheets

// "Refusals hand back the sheet as given": what a refused step tells.
#[derive(Clone, Copy)]
pub struct Unchanged {
    pub query: Query,
    pub refusal: Refusal,
}

// What a `?` tells of it, where the query as given is of no use.
impl From<Unchanged> for Refusal {
    ghost from_gives = { λ unchanged refusal. refusal ≡ unchanged.refusal };

    fn from(unchanged: Unchanged) -> Refusal {
        unchanged.refusal
    }
}

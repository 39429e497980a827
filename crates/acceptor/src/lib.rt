// One pass over an expression that accepts it, or is in doubt: then the three passes of `passes` answer. Most
// expressions are accepted here. Straight code, up to the first jump, needs no table; code with jumps has two from its
// first jump on.
#![tactic(auto)]

ghost use Rattle.std.specs.Prelude.{◌≤◌, ◌<◌, length, IfSome};
ghost use Rattle.sizes.specs.Sizes.{expression_most};
ghost use Rattle.acceptor.specs.Joining.StraightCode.{Following, Accepts};

pub use crate::branching::Progress;
use crate::straight::Straight;
use verdict::Accepted;

mod branching;
mod effects;
mod straight;

// The answer for an expression that is accepted, and whether an instruction of it is a setv.
#[derive(Clone, Copy)]
pub struct Acceptance {
    pub answer: Accepted,
    pub sets: bool,
}

// Where the pass over straight code stands, or has stopped: the offset, the height there, the instructions before it, the
// greatest height, and whether one of them is a setv.
#[derive(Clone, Copy)]
pub struct Stop {
    pub at: usize,
    pub height: usize,
    pub count: usize,
    pub greatest: usize,
    pub sets: bool,
}

// An expression is accepted, or the pass is in doubt.
pub fn accept(e: &[u8]) -> Option<Acceptance>
    requires { length e.now ≤ expression_most }
    ensures { IfSome result (Accepts e.now) }
{
    match straight::follow(e)? {
        Straight::Accepted(acceptance) => Some(acceptance),
        Straight::Branches(stop) => accept_branching(e, stop),
    }
}

// The rest of it, from its first jump on, or from an end that is not its last byte.
fn accept_branching(e: &[u8], from: Stop) -> Option<Acceptance>
    requires { (length e.now ≤ expression_most) × Following e.now from }
    ensures { IfSome result (Accepts e.now) }
{
    if e.len() <= 128 {
        branching::follow::<128>(e, from)
    } else {
        branching::follow::<{ sizes::EXPRESSION_MOST }>(e, from)
    }
}

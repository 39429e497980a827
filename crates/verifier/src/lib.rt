// The verifier of agent expressions: the entries. Most expressions are accepted in one pass; where that pass is in
// doubt, the three passes answer.
#![tactic(auto)]

ghost use Rattle.std.specs.Prelude.{◌≡◌, false};
ghost use Rattle.verdict.specs.Verdict.{verdict, verdict_of, SetsNothing};

use isa::Rows;
use refusals::{Reason, Refusal};
use verdict::Accepted;

// An answer, and whether a setv may occur: where `sets` is false, no instruction of the expression is one.
#[derive(Clone, Copy)]
pub struct Noted {
    pub answer: Result<Accepted, Refusal>,
    pub sets: bool,
}

// The verifier.
pub fn verify(e: &[u8]) -> Result<Accepted, Refusal>
    ensures { verdict_of result ≡ verdict e.now }
{
    verify_noting(e).answer
}

// The same, for a caller that keeps variables and wants to know whether they may change.
pub fn verify_noting(e: &[u8]) -> Noted
    ensures { (verdict_of result.answer ≡ verdict e.now) × (result.sets ≡ false → SetsNothing e.now) }
{
    if sizes::EXPRESSION_MOST < e.len() {
        return Noted {
            answer: Err(Refusal::at(Reason::ExpressionSize, 0)),
            sets: true,
        };
    }
    match acceptor::accept(e) {
        Some(accepted) => Noted {
            answer: Ok(accepted.answer),
            sets: accepted.sets,
        },
        None => in_doubt(e),
    }
}

// The three passes answer. Their tables have a frame of their own, which an accepted expression does without.
#[inline(never)]
fn in_doubt(e: &[u8]) -> Noted
    ensures { (verdict_of result.answer ≡ verdict e.now) × (result.sets ≡ false → SetsNothing e.now) }
{
    Noted {
        answer: passes::verify_by(&Rows::new(), e),
        sets: true,
    }
}

// The verdict, for a caller that already holds the rows.
pub fn verify_by(rows: &Rows, e: &[u8]) -> Result<Accepted, Refusal>
    ensures { verdict_of result ≡ verdict e.now }
{
    passes::verify_by(rows, e)
}

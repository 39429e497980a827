// The three passes of document 01, "Verifying", over the bytes of an expression: they answer for any bytes.
#![tactic(auto)]

ghost use Rattle.std.specs.Prelude.{◌≡◌, ◌+◌, ◌*◌, ◌≤◌, length};
ghost use Rattle.sizes.specs.Sizes.{expression_most};
ghost use Rattle.verdict.specs.Verdict.{verdict, verdict_of};

use crate::brought::Brought;
use crate::pass1::Found;
use isa::Rows;
use refusals::{Reason, Refusal};
use verdict::Accepted;

pub mod brought;
mod pass1;
mod pass2;
pub mod pass3;

// The verdict, for a caller that holds the rows. Short expressions have short tables, which are soon cleared.
pub fn verify_by(rows: &Rows, e: &[u8]) -> Result<Accepted, Refusal>
    ensures { verdict_of result ≡ verdict e.now }
{
    if e.is_empty() || sizes::EXPRESSION_MOST < e.len() {
        return Err(Refusal::at(Reason::ExpressionSize, 0));
    }
    if e.len() <= 128 {
        return verify_within::<128, 42>(rows, e);
    }
    verify_within::<{ sizes::EXPRESSION_MOST }, 341>(rows, e)
}

// The three passes, over tables for so many bytes and jumps. A jump has three bytes, and the last instruction is none.
fn verify_within<const BYTES: usize, const JUMPS: usize>(
    rows: &Rows,
    e: &[u8],
) -> Result<Accepted, Refusal>
    requires size { (1 ≤ length e.now) × (length e.now ≤ expression_most) }
    requires room { (length e.now ≤ BYTES) × (length e.now ≤ 3 * JUMPS + 2) × (BYTES ≤ 1024) × (JUMPS ≤ 1024) }
    ensures { verdict_of result ≡ verdict e.now }
{
    let mut found = Found::<BYTES, JUMPS>::new();
    let mut brought = Brought::<BYTES>::new();
    let count = pass1::scan(rows, e, &mut found)?;
    pass2::aim(e, &found)?;
    pass3::measure(rows, e, count, &mut brought)
}

// The height with which each instruction of an accepted expression is reached, for listings. It leans on the verifier's
// page of promises: since two walks to one instruction arrive at one height, each walk's height can be stored as it
// comes.
#![tactic(auto)]

ghost use Rattle.std.specs.Prelude.{◌≡◌, ◌≢◌, ◌<◌, None, length, get_or, replicate};
ghost use Rattle.isa.specs.Decode.{next};
ghost use Rattle.isa.specs.Joining.Rows.{IsRow};
ghost use Rattle.sizes.specs.Sizes.{expression_most};
ghost use Rattle.verdict.specs.Pass3.{unreached};
ghost use Rattle.verdict.specs.Acceptance.{Acceptable};
ghost use Rattle.heights.specs.Arrivals.{marked, NoMark, Arrivals, Answered};
ghost use Rattle.heights.specs.Joining.Filling.{AtTarget, AtNext, Room, Stored, Filling};

use isa::{Row, Rows};
use refusals::Refusal;
use verdict::Accepted;

// For each offset the height with which walks arrive there, if any does.
pub type HeightTable = [Option<u8>; sizes::EXPRESSION_MOST];

// The verifier's answer, and the heights. Of a refused expression no offset has one.
pub fn heights(e: &[u8], heights: &mut HeightTable) -> Result<Accepted, Refusal>
    ensures answered { Answered e.now result (marked heights.new) }
    ensures no_mark { NoMark heights.new }
{
    *heights = [None; sizes::EXPRESSION_MOST];
    let rows = Rows::new();
    let accepted = verifier::verify_by(&rows, e)?;
    fill(&rows, e, heights);
    Ok(accepted)
}

// The starts in rising order: all walks that arrive at a start have arrived before its turn. The next start lies behind
// the operands of this one, so that no range has them.
fn fill(rows: &Rows, e: &[u8], heights: &mut HeightTable)
    requires acceptable { Acceptable e.now }
    requires blank { heights.old ≡ replicate expression_most None }
    ensures arrivals { Arrivals e.now (marked heights.new) }
    ensures no_mark { NoMark heights.new }
{
    heights[0] = Some(0);
    let mut at = 0;
    while at < e.len() {
        let row = rows.of(e[at]);
        step(row, e, at, heights);
        at += 1 + usize::from(row.operands);
    }
}

// One start: the walks that reach it go on. The N of pick N is both needed and left, so that the row is enough.
fn step(row: Row, e: &[u8], at: usize, heights: &mut HeightTable)
    requires at { at < length e.now }
    requires row { IsRow (get_or e.now at 0) row }
    requires filling { Filling e.now at (marked heights.old) }
    requires no_mark { NoMark heights.old }
    ensures filling { Filling e.now (next e.now at) (marked heights.new) }
    ensures no_mark { NoMark heights.new }
{
    let Some(height) = heights[at] else {
        return;
    };
    let after = height - row.needed + row.left;
    store_at_target(row, e, at, after, heights);
    store_at_next(row, e, at, after, heights);
}

// They arrive at its target, where it is a jump.
fn store_at_target(row: Row, e: &[u8], at: usize, after: u8, heights: &mut HeightTable)
    requires row { IsRow (get_or e.now at 0) row }
    requires room { Room e.now at (marked heights.old) }
    requires no_mark { (after ≢ unreached) × NoMark heights.old }
    ensures stored { Stored (AtTarget e.now at) after (marked heights.old) (marked heights.new) }
    ensures no_mark { NoMark heights.new }
{
    if row.kind.is_jump() {
        let target = isa::operand_at(e, at, 2) as usize;
        heights[target] = Some(after);
    }
}

// They arrive at the next start, where that may follow.
fn store_at_next(row: Row, e: &[u8], at: usize, after: u8, heights: &mut HeightTable)
    requires row { IsRow (get_or e.now at 0) row }
    requires room { Room e.now at (marked heights.old) }
    requires no_mark { (after ≢ unreached) × NoMark heights.old }
    ensures stored { Stored (AtNext e.now at) after (marked heights.old) (marked heights.new) }
    ensures no_mark { NoMark heights.new }
{
    if row.kind.goes_on() {
        let next = at + 1 + usize::from(row.operands);
        heights[next] = Some(after);
    }
}

// Pass 2: every jump, reached or not, aims at a start greater than its own offset. It goes over the jumps that pass 1
// noted.
ghost use Rattle.std.specs.Prelude.{◌≡◌, true, ◌≤◌, length};
ghost use Rattle.sizes.specs.Sizes.{expression_most};
ghost use Rattle.refusals.specs.Numbers.{number_or_0};
ghost use Rattle.isa.specs.Decode.{jumps};
ghost use Rattle.isa.specs.Starts.{is_start};
ghost use Rattle.verdict.specs.Pass1.{Decodes};
ghost use Rattle.verdict.specs.Pass2.{fault2};
ghost use Rattle.passes.specs.Joining.Tables.{Marked, JumpsNoted, Aimed};

use crate::pass1::Found;
use refusals::{Reason, Refusal};

// The refusal of pass 2 at the jump at `at`.
fn fault_at(e: &[u8], marks: &[bool], at: usize) -> Result<(), Reason>
    requires { (length e.now ≤ expression_most) × Decodes e.now × Marked e.now marks.now × (is_start e.now at ≡ true) × (jumps e.now at ≡ true) }
    ensures { number_or_0 result ≡ fault2 e.now at }
{
    let target = isa::operand_at(e, at, 2) as usize;
    if e.len() <= target || !marks[target] {
        return Err(Reason::JumpNoStart);
    }
    if target <= at {
        return Err(Reason::JumpNotForward);
    }
    Ok(())
}

// Every jump aims well, or the refusal of pass 2.
pub(crate) fn aim<const BYTES: usize, const JUMPS: usize>(
    e: &[u8],
    found: &Found<BYTES, JUMPS>,
) -> Result<(), Refusal>
    requires { (length e.now ≤ expression_most) × Decodes e.now × Marked e.now found.now.marks × JumpsNoted e.now found.now.jumps found.now.noted }
    ensures { Aimed e.now result }
{
    for jump in &found.jumps[..found.noted] {
        let at = usize::from(*jump);
        match fault_at(e, &found.marks, at) {
            Ok(()) => {}
            Err(reason) => return Err(Refusal::at(reason, at)),
        }
    }
    Ok(())
}

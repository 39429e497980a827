// Pass 3: the heights of the stack in rising offset, and with them the greatest height and the longest walk. From one
// start to the next height and distance go along in locals; the tables hold what jumps bring.
ghost use Rattle.std.specs.Prelude.{◌≡◌, ◌≢◌, List, ℕ, ◌≤◌, ◌<◌, leb, length, get_or};
ghost use Rattle.sizes.specs.Sizes.{expression_most};
ghost use Rattle.isa.specs.Classes.{kind_pick, kind_goto, kind_if_goto};
ghost use Rattle.isa.specs.Decode.{kind_at, next as next_start, needed as needed_cells, left as left_cells};
ghost use Rattle.isa.specs.Joining.Rows.{kind_of, IsRow};
ghost use Rattle.isa.specs.Starts.{starts};
ghost use Rattle.isa.specs.Walk.{one};
ghost use Rattle.verdict.specs.Pass1.{Decodes};
ghost use Rattle.verdict.specs.Pass2.{Aims};
ghost use Rattle.verdict.specs.Pass3.{unreached, differing, arrive, raise, at_target, runs_off_end, pass3};
ghost use Rattle.verdict.specs.Verdict.{verdict_of, after3};
ghost use Rattle.passes.specs.Joining.Tables.{carried, Unmeasured, Passing, Incoming, Standing, ReachedStart, Effected, Brings, FlowsFrom, ReachedStep, Turned};

use crate::brought;
use crate::brought::{Brought, Flow};
use isa::{Kind, Row, Rows, Stack};
use refusals::{Reason, Refusal};
use verdict::Accepted;

// What flows on to the next start; the greatest height and the longest walk so far.
#[derive(Clone, Copy)]
pub struct Carry {
    pub height: usize,
    pub distance: usize,
    pub greatest: usize,
    pub longest: usize,
}

// What comes to the start `at`: by jumps, and from the start before it.
fn incoming<const N: usize>(at: usize, height: usize, distance: usize, brought: &Brought<N>) -> Flow
    requires { (at < N) × (height < 256) × (get_or brought.now.heights at 0 ≡ unreached → get_or brought.now.distances at 0 ≡ 0) }
    ensures { Incoming (get_or brought.now.heights at 0) (get_or brought.now.distances at 0) height distance result }
{
    let here = brought.at(at);
    if here.height == brought::UNREACHED {
        return Flow { height, distance };
    }
    if height == brought::UNREACHED {
        return here;
    }
    Flow {
        height: brought::joined_with(here.height, height),
        distance: here.distance.max(distance),
    }
}

// What an instruction that needs and leaves so many cells makes of what it is reached with, or its refusal.
fn effect_by(carry: Carry, needed: usize, left: usize, is_off: bool) -> Result<Carry, Reason>
    requires { (carry.height < 256) × (carry.height ≢ differing) × (carry.distance ≤ 1024) × (left < 512) }
    ensures { (e : List ℕ) (k : ℕ) → needed ≡ needed_cells e k → left ≡ left_cells e k → is_off ≡ runs_off_end e k → Effected e k carry.height carry.distance carry.greatest carry.longest (carried result) }
{
    if !Stack::has(carry.height, needed) {
        return Err(Reason::CellsTooFew);
    }
    let height = carry.height - needed + left;
    if !Stack::fits(height) {
        return Err(Reason::CellsTooMany);
    }
    if is_off {
        return Err(Reason::RunsOff);
    }
    Ok(Carry {
        height,
        distance: carry.distance + 1,
        greatest: carry.greatest.max(height),
        ..carry
    })
}

// What arrives at the target of an instruction of that kind, where it is a jump.
fn bring<const N: usize>(kind: Kind, e: &[u8], at: usize, after: Carry, brought: &mut Brought<N>)
    requires kind { kind_of kind ≡ kind_at e.now at }
    requires start { Passing e.now at × (length e.now ≤ N) × (after.height < 256) × (after.distance < 65536) }
    ensures { (brought.new.heights ≡ at_target e.now at (arrive after.height) brought.old.heights) × (brought.new.distances ≡ at_target e.now at (raise after.distance) brought.old.distances) }
{
    if kind.is_jump() {
        let target = isa::operand_at(e, at, 2) as usize;
        brought.arrive(
            target,
            Flow {
                height: after.height,
                distance: after.distance,
            },
        );
    }
}

// What flows on from an instruction of that kind: nothing from a goto, nor from an end, where a walk ends.
fn flowing(kind: Kind, after: Carry) -> Carry
    ensures { FlowsFrom (kind_of kind) after.height after.distance after.greatest after.longest result }
{
    match kind {
        Kind::Goto => Carry {
            height: brought::UNREACHED,
            ..after
        },
        Kind::End => Carry {
            height: brought::UNREACHED,
            longest: after.longest.max(after.distance),
            ..after
        },
        _ => after,
    }
}

// A jump: its effect, and what arrives at its target.
fn step_jump<const N: usize>(
    row: Row,
    e: &[u8],
    at: usize,
    is_off: bool,
    carry: Carry,
    brought: &mut Brought<N>,
) -> Result<Carry, Reason>
    requires row { IsRow (get_or e.now at 0) row }
    requires reached { ReachedStart e.now at carry.height carry.distance brought.old.heights brought.old.distances }
    requires jump { (kind_goto ≤ kind_of row.kind) × (kind_of row.kind ≤ kind_if_goto) × (is_off ≡ runs_off_end e.now at) }
    ensures { Effected e.now at carry.height carry.distance carry.greatest carry.longest (carried result) × Brings e.now at carry.height carry.distance (carried result) brought.old.heights brought.old.distances brought.new.heights brought.new.distances }
{
    let needed = usize::from(row.needed);
    let left = usize::from(row.left);
    let after = effect_by(carry, needed, left, is_off)?;
    bring(row.kind, e, at, after, brought);
    Ok(after)
}

// A reached start whose instruction is pick, a jump or an end. The N of pick N comes on top of its row.
fn step_other<const N: usize>(
    row: Row,
    e: &[u8],
    at: usize,
    is_past: bool,
    carry: Carry,
    brought: &mut Brought<N>,
) -> Result<Carry, Reason>
    requires row { IsRow (get_or e.now at 0) row }
    requires kind { kind_pick ≤ kind_of row.kind }
    requires reached { ReachedStart e.now at carry.height carry.distance brought.old.heights brought.old.distances }
    requires past { is_past ≡ leb (length e.now) (next_start e.now at) }
    ensures { ReachedStep e.now at carry.height carry.distance carry.greatest carry.longest (carried result) brought.old.heights brought.old.distances brought.new.heights brought.new.distances }
{
    match row.kind {
        Kind::Pick => {
            let picked = isa::picked_at(row, e, at);
            let needed = usize::from(row.needed) + picked;
            let left = usize::from(row.left) + picked;
            effect_by(carry, needed, left, is_past)
        }
        Kind::IfGoto => step_jump(row, e, at, is_past, carry, brought),
        Kind::Goto => {
            let after = step_jump(row, e, at, false, carry, brought)?;
            Ok(flowing(row.kind, after))
        }
        _ => {
            let needed = usize::from(row.needed);
            let left = usize::from(row.left);
            let after = effect_by(carry, needed, left, false)?;
            Ok(flowing(row.kind, after))
        }
    }
}

// A reached start. Most instructions have no N on top of their row and no target, and the next start follows.
fn step_reached<const N: usize>(
    row: Row,
    e: &[u8],
    at: usize,
    next: usize,
    carry: Carry,
    brought: &mut Brought<N>,
) -> Result<Carry, Reason>
    requires row { IsRow (get_or e.now at 0) row }
    requires reached { ReachedStart e.now at carry.height carry.distance brought.old.heights brought.old.distances }
    requires next { next ≡ next_start e.now at }
    ensures { ReachedStep e.now at carry.height carry.distance carry.greatest carry.longest (carried result) brought.old.heights brought.old.distances brought.new.heights brought.new.distances }
{
    let is_past = e.len() <= next;
    match row.kind {
        Kind::Unknown | Kind::Unsupported | Kind::Ext | Kind::Variable | Kind::Plain => {
            let needed = usize::from(row.needed);
            let left = usize::from(row.left);
            effect_by(carry, needed, left, is_past)
        }
        _ => step_other(row, e, at, is_past, carry, brought),
    }
}

// One start: what comes to it, and its refusal or what it passes on.
fn step<const N: usize>(
    row: Row,
    e: &[u8],
    at: usize,
    next: usize,
    carry: Carry,
    brought: &mut Brought<N>,
) -> Result<Carry, Reason>
    requires row { IsRow (get_or e.now at 0) row }
    requires standing { Standing e.now at carry.height carry.distance brought.old.heights brought.old.distances }
    requires next { next ≡ next_start e.now at }
    ensures { Turned e.now at brought.old.heights brought.old.distances carry.height carry.distance carry.greatest carry.longest (carried result) brought.new.heights brought.new.distances }
{
    let flow = incoming(at, carry.height, carry.distance, brought);
    let here = Carry {
        height: flow.height,
        distance: flow.distance,
        ..carry
    };
    if here.height == brought::UNREACHED {
        return Ok(here);
    }
    if here.height == brought::DIFFERING {
        return Err(Reason::HeightsDiffer);
    }
    step_reached(row, e, at, next, here, brought)
}

// The answer of an expression of so many instructions for which passes 1 and 2 hold.
pub(crate) fn measure<const N: usize>(
    rows: &Rows,
    e: &[u8],
    count: usize,
    brought: &mut Brought<N>,
) -> Result<Accepted, Refusal>
    requires sound { (length e.now ≤ expression_most) × Decodes e.now × Aims e.now }
    requires count { count ≡ length (starts e.now) }
    requires unmeasured { Unmeasured e.now brought.old.heights brought.old.distances }
    ensures { verdict_of result ≡ after3 e.now (pass3 one e.now) }
{
    // An instruction's length says where the next one starts, so that no range has the offsets.
    let mut at = 0;
    let mut carry = Carry {
        height: 0,
        distance: 0,
        greatest: 0,
        longest: 0,
    };
    while at < e.len() {
        let row = rows.known(e[at]);
        let next = at + 1 + usize::from(row.operands);
        match step(row, e, at, next, carry, brought) {
            Ok(after) => carry = after,
            Err(reason) => return Err(Refusal::at(reason, at)),
        }
        at = next;
    }
    Ok(Accepted {
        count,
        greatest: carry.greatest as u8,
        longest: carry.longest,
    })
}

// Code with jumps, from its first jump on. What jumps bring stands in tables, as in pass 3. Every start must be reached: a
// goto or an end is followed by a target. That each target is a start is known by counting: as many are met as were
// noted.
ghost use Rattle.std.specs.Prelude.{◌≡◌, ◌+◌, ◌≤◌, ◌<◌, List, ℕ, length, get_or, max, IfSome};
ghost use Rattle.sizes.specs.Sizes.{expression_most};
ghost use Rattle.acceptor.specs.Joining.Instruction.{IsEnd, IsJump};
ghost use Rattle.acceptor.specs.Joining.StraightCode.{Following, Accepts};
ghost use Rattle.acceptor.specs.Joining.CodeWithJumps.{Joins, JumpsOn, FromJumps, Branching, BranchingJoined, Turns};

use crate::effects::{Effect, Onward, Start};
use crate::{Acceptance, Stop};
use isa::Stack;
use passes::brought::{Brought, Flow, UNREACHED};
use verdict::Accepted;

// Where the pass stands: the offset, the height and the distance that flow in; the instructions before it; the greatest
// height; the longest walk to an end; how many targets were noted, and how many of them were met as starts; whether a
// setv came.
#[derive(Clone, Copy)]
pub struct Progress {
    pub at: usize,
    pub height: usize,
    pub distance: usize,
    pub count: usize,
    pub greatest: usize,
    pub longest: usize,
    pub noted: usize,
    pub met: usize,
    pub sets: bool,
}

// What one start leads to: the next start, or the answer.
#[derive(Clone, Copy)]
pub(crate) enum Turn {
    On(Progress),
    Accepted(Acceptance),
}

// What jumps have brought to a start meets what flows in: the same height, or doubt.
fn join<const N: usize>(s: Progress, brought: &Brought<N>) -> Option<Progress>
    requires { (s.at < N) × (s.met ≤ 1024) }
    ensures { IfSome result (Joins (get_or brought.now.heights s.at 0) (get_or brought.now.distances s.at 0) s) }
{
    let flow = brought.at(s.at);
    if flow.height == UNREACHED {
        return Some(s);
    }
    if flow.height != s.height {
        return None;
    }
    Some(Progress {
        distance: flow.distance.max(s.distance),
        met: s.met + 1,
        ..s
    })
}

// Nothing flows in to this start: what jumps have brought there. No height that was brought is above the greatest: where
// this one is, nothing was.
fn from_jumps<const N: usize>(s: Progress, brought: &Brought<N>) -> Option<Progress>
    requires { s.at < N }
    ensures { IfSome result (FromJumps brought.now.heights brought.now.distances s) }
{
    let flow = brought.at(s.at);
    if s.greatest < flow.height {
        return None;
    }
    Some(Progress {
        height: flow.height,
        distance: flow.distance,
        ..s
    })
}

// A jump that needs so many cells and leaves none: what arrives at its target arrives at the next start too. That lies
// within the bytes.
fn jump<const N: usize>(
    e: &[u8],
    s: Progress,
    needed: usize,
    brought: &mut Brought<N>,
) -> Option<Progress>
    requires { BranchingJoined e.now s brought.old.heights brought.old.distances × IsJump e.now s.at needed }
    ensures { IfSome result (JumpsOn e.now s brought.old.heights brought.old.distances brought.new.heights brought.new.distances) }
{
    if e.len() - s.at < 4 || Stack::DEPTH < s.height || s.height < needed {
        return None;
    }
    let target = isa::operand_at(e, s.at, 2) as usize;
    if target <= s.at || e.len() <= target {
        return None;
    }
    let is_new = brought.at(target).height == UNREACHED;
    let height = s.height - needed;
    let distance = s.distance + 1;
    brought.arrive(target, Flow { height, distance });
    Some(Progress {
        at: s.at + 3,
        height,
        distance,
        count: s.count + 1,
        noted: s.noted + usize::from(is_new),
        ..s
    })
}

// An end that is the last byte. Where as many targets were met as noted, each is a start.
fn at_last(e: &[u8], s: Progress, longest: usize) -> Option<Acceptance>
    requires { s.count ≤ 1024 }
    ensures { (hs ds : List ℕ) → BranchingJoined e.now s hs ds → IsEnd e.now s.at → s.at + 1 ≡ length e.now → longest ≡ max s.longest (s.distance + 1) → IfSome result (Accepts e.now) }
{
    if s.noted != s.met || Stack::DEPTH < s.greatest {
        return None;
    }
    let answer = Accepted {
        count: s.count + 1,
        greatest: s.greatest as u8,
        longest,
    };
    Some(Acceptance {
        answer,
        sets: s.sets,
    })
}

// An end: the last byte, or the next start is reached by jumps.
fn at_end<const N: usize>(e: &[u8], s: Progress, brought: &Brought<N>) -> Option<Turn>
    requires { BranchingJoined e.now s brought.now.heights brought.now.distances × IsEnd e.now s.at }
    ensures { IfSome result (Turns e.now s.at brought.now.heights brought.now.distances) }
{
    let longest = s.longest.max(s.distance + 1);
    if s.at + 1 == e.len() {
        return Some(Turn::Accepted(at_last(e, s, longest)?));
    }
    let next = Progress {
        at: s.at + 1,
        count: s.count + 1,
        longest,
        ..s
    };
    Some(Turn::On(from_jumps(next, brought)?))
}

// Behind an instruction that goes on to the next start.
fn behind(s: Progress, onward: Onward, sets: bool) -> Progress
    requires { (s.distance ≤ 1024) × (s.count ≤ 1024) }
    ensures { result ≡ record s { at = onward.at; height = onward.height; distance = s.distance + 1; count = s.count + 1; greatest = onward.greatest; sets = sets } }
{
    Progress {
        at: onward.at,
        height: onward.height,
        distance: s.distance + 1,
        count: s.count + 1,
        greatest: onward.greatest,
        sets,
        ..s
    }
}

// One start: what comes to it, and what it passes on. What `Branching` says is of the expression, the state and the lent
// tables together: no one struct has all three.
fn at_start<const N: usize>(e: &[u8], flowing: Progress, brought: &mut Brought<N>) -> Option<Turn>
    requires { Branching e.now flowing brought.old.heights brought.old.distances }
    ensures { IfSome result (Turns e.now flowing.at brought.new.heights brought.new.distances) }
{
    let s = join(flowing, brought)?;
    let start = Start {
        e,
        at: s.at,
        height: s.height,
        greatest: s.greatest,
    };
    match start.effect()? {
        Effect::On(onward) => Some(Turn::On(behind(s, onward, s.sets))),
        Effect::Sets(onward) => Some(Turn::On(behind(s, onward, true))),
        Effect::IfGoto => Some(Turn::On(jump(e, s, 1, brought)?)),
        Effect::Goto => Some(Turn::On(from_jumps(jump(e, s, 0, brought)?, brought)?)),
        Effect::End => at_end(e, s, brought),
    }
}

// From the first jump to the end of the expression, or to a doubt. The tables have a frame of their own, which straight
// code does without. No range has the starts, as in straight code.
#[inline(never)]
pub(crate) fn follow<const N: usize>(e: &[u8], from: Stop) -> Option<Acceptance>
    requires { Following e.now from × (length e.now ≤ N) × (N ≤ expression_most) }
    ensures { IfSome result (Accepts e.now) }
{
    // Built here: the frame would have what a function answers a second time.
    let mut brought = Brought {
        heights: [verdict::UNREACHED; N],
        distances: [0; N],
    };
    let mut s = Progress {
        at: from.at,
        height: from.height,
        distance: from.count,
        count: from.count,
        greatest: from.greatest,
        longest: 0,
        noted: 0,
        met: 0,
        sets: from.sets,
    };
    while s.at < e.len() {
        match at_start(e, s, &mut brought)? {
            Turn::On(next) => s = next,
            Turn::Accepted(acceptance) => return Some(acceptance),
        }
    }
    None
}

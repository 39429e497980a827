// Straight code: no table, and all that the pass knows in a few numbers.
ghost use Rattle.std.specs.Prelude.{◌≡◌, ◌+◌, ◌≤◌, length, IfSome};
ghost use Rattle.sizes.specs.Sizes.{expression_most};
ghost use Rattle.acceptor.specs.Joining.Instruction.{IsEnd};
ghost use Rattle.acceptor.specs.Joining.StraightCode.{Following, EndsStraight};

use crate::effects::{Effect, Onward, Start};
use crate::{Acceptance, Stop};
use isa::Stack;
use verdict::Accepted;

// How straight code ends: accepted, or with a jump or an end that is not its last byte.
#[derive(Clone, Copy)]
pub(crate) enum Straight {
    Accepted(Acceptance),
    Branches(Stop),
}

// Behind an instruction that goes on to the next start.
fn behind(s: Stop, onward: Onward, sets: bool) -> Stop
    requires { s.count ≤ 1024 }
    ensures { result ≡ record { at = onward.at; height = onward.height; count = s.count + 1; greatest = onward.greatest; sets = sets } }
{
    Stop {
        at: onward.at,
        height: onward.height,
        count: s.count + 1,
        greatest: onward.greatest,
        sets,
    }
}

// An end: straight code is accepted where it is the last byte.
fn at_end(e: &[u8], s: Stop) -> Option<Straight>
    requires { Following e.now s × IsEnd e.now s.at }
    ensures { IfSome result (EndsStraight e.now) }
{
    if s.at + 1 != e.len() {
        return Some(Straight::Branches(s));
    }
    if Stack::DEPTH < s.greatest {
        return None;
    }
    let answer = Accepted {
        count: s.count + 1,
        greatest: s.greatest as u8,
        longest: s.count + 1,
    };
    Some(Straight::Accepted(Acceptance {
        answer,
        sets: s.sets,
    }))
}

// From offset 0 to the first jump or end, or to a doubt. The next start lies behind an instruction's operands, so that no
// range has the starts.
pub(crate) fn follow(e: &[u8]) -> Option<Straight>
    requires { length e.now ≤ expression_most }
    ensures { IfSome result (EndsStraight e.now) }
{
    let mut s = Stop {
        at: 0,
        height: 0,
        count: 0,
        greatest: 0,
        sets: false,
    };
    while s.at < e.len() {
        let start = Start {
            e,
            at: s.at,
            height: s.height,
            greatest: s.greatest,
        };
        s = match start.effect()? {
            Effect::On(onward) => behind(s, onward, s.sets),
            Effect::Sets(onward) => behind(s, onward, true),
            Effect::IfGoto | Effect::Goto => return Some(Straight::Branches(s)),
            Effect::End => return at_end(e, s),
        };
    }
    None
}

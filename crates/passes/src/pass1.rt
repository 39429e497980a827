// Pass 1: instructions follow each other to exactly the end. The same loop marks the starts and notes the jumps, which
// pass 2 needs.
ghost use Rattle.std.specs.Prelude.{◌≡◌, true, false, replicate, slice_set, ◌≤◌, ◌<◌, length};
ghost use Rattle.sizes.specs.Sizes.{expression_most};
ghost use Rattle.refusals.specs.Numbers.{number_or_0};
ghost use Rattle.isa.specs.Classes.{kind_goto, kind_if_goto};
ghost use Rattle.isa.specs.Decode.{is_jump, kind_at, next as next_start};
ghost use Rattle.isa.specs.Joining.Rows.{kind_of};
ghost use Rattle.verdict.specs.Pass1.{fault1};
ghost use Rattle.passes.specs.Joining.Tables.{Unmarked, Notes, Looked, Scanned};

use isa::{Kind, Rows};
use refusals::{Reason, Refusal};

// What pass 1 finds for pass 2: a mark for each offset, whether it is a start, and the starts of the jumps, so many of
// them in front.
#[derive(Drop)]
pub(crate) struct Found<const BYTES: usize, const JUMPS: usize> {
    pub marks: [bool; BYTES],
    pub jumps: [u16; JUMPS],
    pub noted: usize,
    ghost whole: { (length marks ≡ BYTES) × (length jumps ≡ JUMPS) × (noted ≤ JUMPS) },
}

impl<const BYTES: usize, const JUMPS: usize> Found<BYTES, JUMPS> {
    pub fn new() -> Found<BYTES, JUMPS>
        ensures { (result.marks ≡ replicate BYTES false) × (result.jumps ≡ replicate JUMPS 0) × (result.noted ≡ 0) }
    {
        Found {
            marks: [false; BYTES],
            jumps: [0; JUMPS],
            noted: 0,
        }
    }

    // Marks the start `at`.
    fn mark_start(&mut self, at: usize)
        requires start { at < BYTES }
        ensures { (self.new.marks ≡ slice_set self.old.marks at true) × (self.new.noted ≡ self.old.noted) × (self.new.jumps ≡ self.old.jumps) }
    {
        self.marks[at] = true;
    }

    // Marks the start `at`, and notes it where its instruction is a jump.
    fn mark(&mut self, kind: Kind, at: usize)
        requires start { (at < expression_most) × (at < BYTES) }
        requires room { (kind_goto ≤ kind_of kind → kind_of kind ≤ kind_if_goto → self.old.noted < JUMPS) }
        ensures { (self.new.marks ≡ slice_set self.old.marks at true) × Notes (is_jump (kind_of kind)) at self.old.noted self.old.jumps self.new.noted self.new.jumps }
    {
        self.mark_start(at);
        if kind.is_jump() {
            self.jumps[self.noted] = at as u16;
            self.noted += 1;
        }
    }
}

// The refusal of pass 1 at `at`, where the operands are all there.
fn fault_at(kind: Kind, e: &[u8], at: usize) -> Result<(), Reason>
    requires within { next_start e.now at ≤ length e.now }
    requires kind { kind_of kind ≡ kind_at e.now at }
    ensures { number_or_0 result ≡ fault1 e.now at }
{
    match kind {
        Kind::Unknown => Err(Reason::OpcodeUnknown),
        Kind::Unsupported => Err(Reason::OpcodeUnsupported),
        Kind::Ext => {
            if isa::operand_at(e, at, 1) == 0 {
                return Err(Reason::OperandBad);
            }
            Ok(())
        }
        Kind::Variable => {
            if sizes::VARIABLE_COUNT as u64 <= isa::operand_at(e, at, 2) {
                return Err(Reason::OperandBad);
            }
            Ok(())
        }
        _ => Ok(()),
    }
}

// Looks at the instruction at `at`: the offset behind it, or its refusal. Most are plain: they have no refusal here and
// are no jumps.
fn look<const BYTES: usize, const JUMPS: usize>(
    rows: &Rows,
    e: &[u8],
    at: usize,
    found: &mut Found<BYTES, JUMPS>,
) -> Result<usize, Reason>
    requires start { (at < length e.now) × (length e.now ≤ expression_most) × (length e.now ≤ BYTES) }
    requires room { (next_start e.now at ≤ length e.now → kind_goto ≤ kind_at e.now at → kind_at e.now at ≤ kind_if_goto → found.old.noted < JUMPS) }
    ensures { Looked e.now at result found.old.marks found.old.noted found.old.jumps found.new.marks found.new.noted found.new.jumps }
{
    let row = rows.of(e[at]);
    let next = at + 1 + usize::from(row.operands);
    if e.len() < next {
        return Err(Reason::OperandsCut);
    }
    if row.kind == Kind::Plain {
        found.mark_start(at);
        return Ok(next);
    }
    if row.kind.is_jump() {
        found.mark(row.kind, at);
        return Ok(next);
    }
    fault_at(row.kind, e, at)?;
    found.mark_start(at);
    Ok(next)
}

// The number of instructions, or the refusal of pass 1.
pub(crate) fn scan<const BYTES: usize, const JUMPS: usize>(
    rows: &Rows,
    e: &[u8],
    found: &mut Found<BYTES, JUMPS>,
) -> Result<usize, Refusal>
    requires size { length e.now ≤ expression_most }
    requires unmarked { Unmarked e.now found.old.marks found.old.jumps × (found.old.noted ≡ 0) }
    ensures { Scanned e.now result found.new.marks found.new.noted found.new.jumps }
{
    // An instruction's length says where the next one starts, so that no range has the offsets.
    let mut at = 0;
    let mut count = 0;
    while at < e.len() {
        match look(rows, e, at, found) {
            Ok(next) => at = next,
            Err(reason) => return Err(Refusal::at(reason, at)),
        }
        count += 1;
    }
    Ok(count)
}

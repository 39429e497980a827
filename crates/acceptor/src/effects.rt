// What one instruction makes of the height with which it is reached. Operands that are cut short are not tested here: the
// next offset is then not below the length, and the pass is in doubt there.
ghost use Rattle.std.specs.Prelude.{◌≡◌, ◌+◌, ◌≤◌, ◌<◌, max, length, IfSome, OnSome};
ghost use Rattle.sizes.specs.Sizes.{expression_most, variable_count};
ghost use Rattle.isa.specs.Classes.{kind_ext, kind_variable, kind_pick};
ghost use Rattle.isa.specs.Decode.{kind_at, operand, picked};

// What an instruction leaves where it goes on: the offset and the height of the next start, and the greatest height.
#[derive(Clone, Copy)]
pub(crate) struct Onward {
    pub at: usize,
    pub height: usize,
    pub greatest: usize,
}

// How the pass goes on from an instruction: to the next start, to the next start behind a setv, or by a jump or an end.
#[derive(Clone, Copy)]
pub(crate) enum Effect {
    On(Onward),
    Sets(Onward),
    IfGoto,
    Goto,
    End,
}

// A start, the height with which it is reached, and the greatest height so far.
#[derive(Clone, Copy)]
pub(crate) struct Start<'a> {
    pub e: &'a [u8],
    pub at: usize,
    pub height: usize,
    pub greatest: usize,
    ghost inside: { at < length e.now },
    ghost short: { length e.now ≤ expression_most },
    ghost low: { height ≤ 2048 },
    ghost highest: { height ≤ greatest },
}

impl Start<'_> {
    ghost use Rattle.acceptor.specs.Joining.Instruction.{RowLeaves, HasEffect};

    // The greatest height behind an instruction that needs and leaves so many cells. Only one that leaves more can raise
    // it: where both are literals, no other compares.
    fn greatest_after(&self, needed: usize, left: usize, after: usize) -> usize
        requires { left ≤ needed → after ≤ self.now.greatest }
        ensures { result ≡ max self.now.greatest after }
    {
        if left <= needed {
            return self.greatest;
        }
        self.greatest.max(after)
    }

    // An instruction of that row, which has no rule of its own.
    fn by_row(&self, operands: usize, needed: usize, left: usize) -> Option<Onward>
        requires { (operands ≤ 8) × (left ≤ 512) }
        ensures { IfSome result (RowLeaves self.now.at self.now.height self.now.greatest operands needed left) }
    {
        if self.height < needed {
            return None;
        }
        let height = self.height - needed + left;
        Some(Onward {
            at: self.at + 1 + operands,
            height,
            greatest: self.greatest_after(needed, left, height),
        })
    }

    // ext N: N is not 0.
    fn ext(&self) -> Option<Onward>
        requires { kind_at self.now.e.now self.now.at ≡ kind_ext }
        ensures row { IfSome result (RowLeaves self.now.at self.now.height self.now.greatest 1 1 1) }
        ensures operand { OnSome result (1 ≤ operand self.now.e.now self.now.at) }
    {
        if self.e.len() - self.at < 2 {
            return None;
        }
        if isa::operand_at(self.e, self.at, 1) == 0 {
            return None;
        }
        self.by_row(1, 1, 1)
    }

    // A variable is below 64.
    fn variable(&self, needed: usize) -> Option<Onward>
        requires { kind_at self.now.e.now self.now.at ≡ kind_variable }
        ensures row { IfSome result (RowLeaves self.now.at self.now.height self.now.greatest 2 needed 1) }
        ensures operand { OnSome result (operand self.now.e.now self.now.at < variable_count) }
    {
        if self.e.len() - self.at < 3 {
            return None;
        }
        if sizes::VARIABLE_COUNT as u64 <= isa::operand_at(self.e, self.at, 2) {
            return None;
        }
        self.by_row(2, needed, 1)
    }

    // pick N: N comes on top of its row.
    fn pick(&self) -> Option<Onward>
        requires { kind_at self.now.e.now self.now.at ≡ kind_pick }
        ensures { IfSome result (RowLeaves self.now.at self.now.height self.now.greatest 1 (1 + picked self.now.e.now self.now.at) (2 + picked self.now.e.now self.now.at)) }
    {
        if self.e.len() - self.at < 2 {
            return None;
        }
        let n = isa::operand_at(self.e, self.at, 1) as usize;
        self.by_row(1, 1 + n, 2 + n)
    }

    // The instruction at the start. The numbers of a row are literals in its arm, so that no row is read. Neighbours of
    // one row stand in two arms: as one arm they would be tested for as a range before the jump table, which joins them
    // again. In line, since every instruction would pay for a call.
    #[inline(always)]
    pub fn effect(&self) -> Option<Effect>
        ensures { IfSome result (HasEffect self.now.e.now self.now.at self.now.height self.now.greatest) }
    {
        match self.e[self.at] {
            0x02 | 0x04 | 0x06 | 0x08 | 0x0a => Some(Effect::On(self.by_row(0, 2, 1)?)),
            0x0f | 0x11 | 0x13 | 0x15 => Some(Effect::On(self.by_row(0, 2, 1)?)),
            0x03 | 0x05 | 0x07 | 0x09 | 0x0b => Some(Effect::On(self.by_row(0, 2, 1)?)),
            0x10 | 0x14 => Some(Effect::On(self.by_row(0, 2, 1)?)),
            0x0c | 0x2f => Some(Effect::On(self.by_row(0, 2, 0)?)),
            0x0e | 0x12 | 0x17 | 0x19 => Some(Effect::On(self.by_row(0, 1, 1)?)),
            0x18 | 0x1a => Some(Effect::On(self.by_row(0, 1, 1)?)),
            0x0d | 0x2a => Some(Effect::On(self.by_row(1, 1, 1)?)),
            0x30 => Some(Effect::On(self.by_row(2, 1, 1)?)),
            0x22 => Some(Effect::On(self.by_row(1, 0, 1)?)),
            0x23 | 0x26 => Some(Effect::On(self.by_row(2, 0, 1)?)),
            0x24 => Some(Effect::On(self.by_row(4, 0, 1)?)),
            0x25 => Some(Effect::On(self.by_row(8, 0, 1)?)),
            0x28 => Some(Effect::On(self.by_row(0, 1, 2)?)),
            0x29 => Some(Effect::On(self.by_row(0, 1, 0)?)),
            0x2b => Some(Effect::On(self.by_row(0, 2, 2)?)),
            0x33 => Some(Effect::On(self.by_row(0, 3, 3)?)),
            0x16 => Some(Effect::On(self.ext()?)),
            0x2c | 0x2e => Some(Effect::On(self.variable(0)?)),
            0x2d => Some(Effect::Sets(self.variable(1)?)),
            0x32 => Some(Effect::On(self.pick()?)),
            0x20 => Some(Effect::IfGoto),
            0x21 => Some(Effect::Goto),
            0x27 => Some(Effect::End),
            _ => None,
        }
    }
}

// What a person must know of an expression that is meant to collect: the registers that GDB wanted collected and that
// are not, since the agent has no record of a register; and that it contains no instruction that records.
#![tactic(auto)]

ghost use Rattle.std.specs.Prelude.{◌≡◌, ℕ, Bool, ◌/◌, ◌<◌, ◌≤◌, length, get_or};
ghost use Rattle.isa.specs.Starts.{starts};
ghost use Rattle.io.specs.Counts.{IsPrefixLen};
ghost use Rattle.text_buffer.specs.Text.{Appends};
ghost use Rattle.collection_notes.specs.Collection.{any_of, Tests, is_tracing, collects, reads_at, reads_register, is_set, is_in_mask, is_wanted};
ghost use Rattle.collection_notes.specs.Notes.{register_note, wanted_note, mask_notes, register_notes, scope_text, nothing_note};

use text_buffer::TextBuffer;

#[tactic(auto, unfolding(crate::specs::Collection::is_tracing))]
fn is_tracing(opcode: u8) -> bool
    ensures { result ≡ is_tracing opcode }
{
    matches!(opcode, 0x0c | 0x0d | 0x2e..=0x30)
}

// Whether some instruction of the expression passes the test, by the offset where it starts.
fn any_instruction<F: Fn(usize) -> bool>(code: &[u8], test: F) -> bool
    requires { (at : ℕ) → at < length code.now → F.pre test at }
    ensures { (p : ℕ → Bool) → Tests (λ at is. F.post test at is) code.now p → result ≡ any_of p (starts code.now) }
{
    let mut at = 0;
    // An offset is counted by hand: it moves by a whole instruction, which no range does.
    while at < code.len() {
        if test(at) {
            return true;
        }
        at += 1 + usize::from(isa::look_up(code[at]).operands);
    }
    false
}

// Whether the expression contains an instruction that records.
pub fn collects(code: &[u8]) -> bool
    ensures { result ≡ collects code.now }
{
    any_instruction(code, |at| is_tracing(code[at]))
}

// A byte of the expression, and 0 behind its end.
fn byte_at(code: &[u8], at: usize) -> u64
    ensures { (result ≡ get_or code.now at 0) × (result < 256) }
{
    match code.get(at) {
        Some(byte) => u64::from(*byte),
        None => 0,
    }
}

// Whether the instruction at `at` is `reg` of this register.
#[tactic(auto, unfolding(crate::specs::Collection::reads_at))]
fn reads_at(code: &[u8], at: usize, register: u64) -> bool
    requires { at < length code.now }
    ensures { result ≡ reads_at code.now register at }
{
    code[at] == 0x26 && byte_at(code, at + 1) * 256 + byte_at(code, at + 2) == register
}

fn reads_register(code: &[u8], register: u64) -> bool
    ensures { result ≡ reads_register code.now register }
{
    any_instruction(code, |at| reads_at(code, at, register))
}

#[tactic(auto, unfolding(crate::specs::Collection::is_set))]
fn is_set(byte: u8, bit: usize) -> bool
    requires { bit < 8 }
    ensures { result ≡ is_set byte bit }
{
    (byte >> bit) % 2 == 1
}

// Bit j of byte i stands for register 8 i + j.
#[tactic(auto, unfolding(crate::specs::Collection::is_in_mask))]
fn is_in_mask(mask: &[u8], register: usize) -> bool
    requires { register / 8 < length mask.now }
    ensures { result ≡ is_in_mask mask.now register }
{
    is_set(mask[register / 8], register % 8)
}

fn append_register(text: &mut TextBuffer, register: u64)
    ensures count { IsPrefixLen text.new.end text.new.bytes.now }
    ensures text { Appends text.old.bytes.now text.old.end (register_note register) text.new.bytes.now text.new.end }
    ensures lent { text.new.bytes.ghost_name ≡ text.old.bytes.ghost_name }
{
    text.append(b"note: GDB wanted register ");
    text.append_number(register);
    text.append(b" collected; it is not: reg ");
    text.append_number(register);
    text.append(b", setv N, tracev N would collect it\n");
}

// An expression, and GDB's mask of the registers that it wants collected beside it. A register that the expression
// reads may be in the mask for that alone; with `is_all` it counts too.
#[derive(Clone, Copy)]
pub struct Collection<'a> {
    pub code: &'a [u8],
    pub mask: &'a [u8],
    pub is_all: bool,
}

impl<'a> Collection<'a> {
    #[tactic(auto, unfolding(crate::specs::Collection::is_wanted))]
    fn is_wanted(self, register: usize) -> bool
        requires { register / 8 < length self.mask.now }
        ensures { result ≡ is_wanted self.entry.mask.now self.entry.code.now self.entry.is_all register }
    {
        is_in_mask(self.mask, register)
            && (self.is_all || !reads_register(self.code, register as u64))
    }

    // The note of a register, where it is wanted.
    #[tactic(auto, unfolding(crate::specs::Notes::wanted_note))]
    fn append_wanted(self, text: &mut TextBuffer, register: usize)
        requires { register / 8 < length self.mask.now }
        ensures count { IsPrefixLen text.new.end text.new.bytes.now }
        ensures text { Appends text.old.bytes.now text.old.end (wanted_note self.entry.mask.now self.entry.code.now self.entry.is_all register) text.new.bytes.now text.new.end }
        ensures lent { text.new.bytes.ghost_name ≡ text.old.bytes.ghost_name }
    {
        if self.is_wanted(register) {
            append_register(text, register as u64);
            return;
        }
        text.append(b"");
    }

    fn append_each(self, text: &mut TextBuffer)
        requires prefix { IsPrefixLen text.old.end text.old.bytes.now }
        requires mask { length self.mask.now ≤ 8192 }
        ensures count { IsPrefixLen text.new.end text.new.bytes.now }
        ensures text { Appends text.old.bytes.now text.old.end (mask_notes self.entry.mask.now self.entry.code.now self.entry.is_all) text.new.bytes.now text.new.end }
        ensures lent { text.new.bytes.ghost_name ≡ text.old.bytes.ghost_name }
    {
        for register in 0..8 * self.mask.len() {
            self.append_wanted(text, register);
        }
    }

    // Appends a note for each register of the mask that is wanted. `reg` has 16 bits for a register's number.
    pub fn append_registers(self, text: &mut TextBuffer)
        ensures count { IsPrefixLen text.new.end text.new.bytes.now }
        ensures text { Appends text.old.bytes.now text.old.end (register_notes self.entry.mask.now self.entry.code.now self.entry.is_all) text.new.bytes.now text.new.end }
        ensures lent { text.new.bytes.ghost_name ≡ text.old.bytes.ghost_name }
    {
        text.append(b"");
        let some = Collection {
            mask: &self.mask[..self.mask.len().min(8192)],
            ..self
        };
        some.append_each(text);
    }
}

// Appends that nothing is collected.
pub fn append_nothing(text: &mut TextBuffer)
    ensures count { IsPrefixLen text.new.end text.new.bytes.now }
    ensures text { Appends text.old.bytes.now text.old.end nothing_note text.new.bytes.now text.new.end }
    ensures lent { text.new.bytes.ghost_name ≡ text.old.bytes.ghost_name }
{
    text.append(
        b"note: collects nothing: no instruction of it is a trace, trace_quick, trace16, tracenz or tracev\n",
    );
}

// Appends the line that begins the answer for one of several places in the program, by its address.
pub fn append_scope(text: &mut TextBuffer, address: u64)
    ensures count { IsPrefixLen text.new.end text.new.bytes.now }
    ensures text { Appends text.old.bytes.now text.old.end (scope_text address) text.new.bytes.now text.new.end }
    ensures lent { text.new.bytes.ghost_name ≡ text.old.bytes.ghost_name }
{
    text.append(b"Scope: 0x");
    phrases::numbers::append_address(text, address);
    text.append(b"\n");
}

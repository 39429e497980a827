// How every answer names a refusal, and its words.
ghost use Rattle.std.specs.Prelude.{◌≡◌, map};
ghost use Rattle.io.specs.Counts.{IsPrefixLen};
ghost use Rattle.text_buffer.specs.Text.{Appends, bytes_of};
ghost use Rattle.phrases.specs.Refused.{refused_at, refusals, refusal_of};

use text_buffer::TextBuffer;

// By the refusal's number. tests/refusals holds the C header and the bindings to this table.
const WORDS: [&str; 26] = [
    "unknown refusal number", // 0
    "the expression has no bytes, or more than 1024", // 1
    "unknown instruction", // 2
    "this instruction is not supported", // 3
    "the expression ends inside this instruction", // 4
    "ext 0, or a variable number above 63", // 5
    "the jump is not to the start of an instruction", // 6
    "the jump is not forward", // 7
    "paths meet here with unequal stack heights", // 8
    "too few cells on the stack for this instruction", // 9
    "more than 64 cells on the stack", // 10
    "the bytes end before an end instruction", // 11
    "a memory span reaches past the last address", // 12
    "the two memory spans overlap", // 13
    "more than 256 registers", // 14
    "trace buffer too large, or used past its end", // 15
    "the allowed number of steps is used up", // 16
    "division by zero", // 17
    "no register with this number", // 18
    "the memory range cannot be read as a whole", // 19
    "more than 65535 bytes to record at once", // 20
    "too little room left in the trace buffer", // 21
    "the trailer before this offset is broken", // 22
    "a record of the frame is broken", // 23
    "there is no such frame", // 24
    "there is no such record in the frame", // 25
];

// Appends `refused N at offset K`.
pub fn append_refused_at(text: &mut TextBuffer, refusal: u8, offset: usize)
    ensures count { IsPrefixLen text.new.end text.new.bytes.now }
    ensures text { Appends text.old.bytes.now text.old.end (refused_at refusal offset) text.new.bytes.now text.new.end }
    ensures lent { text.new.bytes.ghost_name ≡ text.old.bytes.ghost_name }
{
    text.append(b"refused ");
    text.append_number(u64::from(refusal));
    text.append(b" at offset ");
    text.append_number(offset as u64);
}

fn words() -> &'static [&'static str; 26]
    ensures { map (λ text. text.now) result.now ≡ map bytes_of refusals }
{
    &WORDS
}

// The words of a refusal: no refusal has the number 0, nor one above 25.
fn words_of(number: u8) -> &'static str
    ensures { result.now ≡ bytes_of (refusal_of number) }
{
    match words().get(number as usize) {
        Some(text) => text,
        None => "unknown refusal number",
    }
}

// Appends the words of a refusal.
pub fn append_refusal(text: &mut TextBuffer, number: u8)
    ensures count { IsPrefixLen text.new.end text.new.bytes.now }
    ensures text { Appends text.old.bytes.now text.old.end (bytes_of (refusal_of number)) text.new.bytes.now text.new.end }
    ensures lent { text.new.bytes.ghost_name ≡ text.old.bytes.ghost_name }
{
    text.append(words_of(number).as_bytes());
}

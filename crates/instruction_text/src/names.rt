// The names of the instructions.
ghost use Rattle.std.specs.Prelude.{◌≡◌, ◌<◌, ◌≤◌, IfSome, unwrap_or, position, map};
ghost use Rattle.std.specs.Str.{bytes_eq};
ghost use Rattle.text_buffer.specs.Text.{Appends, bytes_of};
ghost use Rattle.instruction_text.specs.Names.{names, name_of, opcode_of};

use text_buffer::TextBuffer;

// By opcode from 00 to 34. An unknown opcode has none.
const NAMES: [&str; 53] = [
    "", // 00
    "float", // 01
    "add", // 02
    "sub", // 03
    "mul", // 04
    "div_signed", // 05
    "div_unsigned", // 06
    "rem_signed", // 07
    "rem_unsigned", // 08
    "lsh", // 09
    "rsh_signed", // 0a
    "rsh_unsigned", // 0b
    "trace", // 0c
    "trace_quick", // 0d
    "log_not", // 0e
    "bit_and", // 0f
    "bit_or", // 10
    "bit_xor", // 11
    "bit_not", // 12
    "equal", // 13
    "less_signed", // 14
    "less_unsigned", // 15
    "ext", // 16
    "ref8", // 17
    "ref16", // 18
    "ref32", // 19
    "ref64", // 1a
    "ref_float", // 1b
    "ref_double", // 1c
    "ref_long_double", // 1d
    "l_to_d", // 1e
    "d_to_l", // 1f
    "if_goto", // 20
    "goto", // 21
    "const8", // 22
    "const16", // 23
    "const32", // 24
    "const64", // 25
    "reg", // 26
    "end", // 27
    "dup", // 28
    "pop", // 29
    "zero_ext", // 2a
    "swap", // 2b
    "getv", // 2c
    "setv", // 2d
    "tracev", // 2e
    "tracenz", // 2f
    "trace16", // 30
    "", // 31
    "pick", // 32
    "rot", // 33
    "printf", // 34
];

fn names() -> &'static [&'static str; 53]
    ensures { map (λ name. name.now) result.now ≡ map bytes_of names }
{
    &NAMES
}

// The place of the first name that is the word.
fn place_of(names: &[&str], word: &[u8]) -> Option<usize>
    ensures { result ≡ position (λ name. bytes_eq name.now word.now) names.now }
{
    names.iter().position(|name| name.as_bytes() == word)
}

// The opcode with this name.
pub fn opcode_of(word: &[u8]) -> Option<u8>
    ensures opcode { unwrap_or result 53 ≡ opcode_of word.now }
    ensures known { IfSome result (λ opcode. opcode < 53) }
{
    let opcode = place_of(names(), word)?;
    Some(opcode as u8)
}

fn name_of(opcode: u8) -> &'static str
    ensures { result.now ≡ name_of opcode }
{
    match names().get(opcode as usize) {
        Some(name) => name,
        None => "",
    }
}

// Appends the name of an opcode; nothing where it has none.
pub fn append_name(text: &mut TextBuffer, opcode: u8)
    ensures text { Appends text.old.bytes.now text.old.end (name_of opcode) text.new.bytes.now text.new.end }
    ensures lent { text.new.bytes.ghost_name ≡ text.old.bytes.ghost_name }
{
    text.append(name_of(opcode).as_bytes());
}

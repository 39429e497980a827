// The lines of text at the start of the file.
ghost use Rattle.std.specs.Prelude.{◌≡◌};
ghost use Rattle.io.specs.Counts.{IsPrefixLen};
ghost use Rattle.hexadecimal.specs.Hex.{hex_of};
ghost use Rattle.text_buffer.specs.Text.{Appends};
ghost use Rattle.tracefile.specs.Head.{start_text, name_text, variable_text, target_text};

use hexadecimal::encode;
use phrases::numbers::append_address;
use text_buffer::TextBuffer;

pub fn append_start(text: &mut TextBuffer, frames: u64)
    ensures count { IsPrefixLen text.new.end text.new.bytes.now }
    ensures text { Appends text.old.bytes.now text.old.end (start_text frames) text.new.bytes.now text.new.end }
    ensures lent { text.new.bytes.ghost_name ≡ text.old.bytes.ghost_name }
{
    text.append(b"\x7f");
    text.append(b"TRACE0\nR 1\nstatus 0;tunknown:0;tframes:");
    append_address(text, frames);
    text.append(b":tcreated:");
    append_address(text, frames);
    text.append(b"\n");
}

// The name v0, v1 .. of a variable, in hexadecimal as GDB wants it.
fn append_name(text: &mut TextBuffer, number: u64)
    ensures text { Appends text.old.bytes.now text.old.end (hex_of (name_text number)) text.new.bytes.now text.new.end }
    ensures lent { text.new.bytes.ghost_name ≡ text.old.bytes.ghost_name }
{
    let mut room = [0u8; 24];
    let mut name = TextBuffer::new(&mut room);
    name.append(b"v");
    name.append_number(number);
    encode(text, name.written());
}

pub fn append_variable(text: &mut TextBuffer, number: u64)
    ensures count { IsPrefixLen text.new.end text.new.bytes.now }
    ensures text { Appends text.old.bytes.now text.old.end (variable_text number) text.new.bytes.now text.new.end }
    ensures lent { text.new.bytes.ghost_name ≡ text.old.bytes.ghost_name }
{
    text.append(b"tsv ");
    append_address(text, number.wrapping_add(1));
    text.append(b":0:0:");
    append_name(text, number);
    text.append(b"\n");
}

// The architecture, and the empty line that ends the text.
pub fn append_target(text: &mut TextBuffer)
    ensures count { IsPrefixLen text.new.end text.new.bytes.now }
    ensures text { Appends text.old.bytes.now text.old.end target_text text.new.bytes.now text.new.end }
    ensures lent { text.new.bytes.ghost_name ≡ text.old.bytes.ghost_name }
{
    text.append(b"tdesc <?xml version='1.0'?>");
    text.append(b"<target><architecture>i386:x86-64</architecture></target>\n\n");
}

// The bytes of an expression, in lines of hexadecimal.
ghost use Rattle.std.specs.Prelude.{◌≡◌};
ghost use Rattle.io.specs.Counts.{IsPrefixLen};
ghost use Rattle.text_buffer.specs.Text.{Appends};
ghost use Rattle.verify_lines.specs.Bytes.{bytes_line, bytes_text};

use text_buffer::TextBuffer;

fn append_line(text: &mut TextBuffer, bytes: &[u8])
    ensures count { IsPrefixLen text.new.end text.new.bytes.now }
    ensures text { Appends text.old.bytes.now text.old.end (bytes_line bytes.now) text.new.bytes.now text.new.end }
    ensures lent { text.new.bytes.ghost_name ≡ text.old.bytes.ghost_name }
{
    text.append(b"bytes ");
    hexadecimal::encode(text, bytes);
    text.append(b"\n");
}

fn append_lines(text: &mut TextBuffer, code: &[u8])
    requires { IsPrefixLen text.old.end text.old.bytes.now }
    ensures count { IsPrefixLen text.new.end text.new.bytes.now }
    ensures text { Appends text.old.bytes.now text.old.end (bytes_text code.now) text.new.bytes.now text.new.end }
    ensures lent { text.new.bytes.ghost_name ≡ text.old.bytes.ghost_name }
{
    for line in code.chunks(40) {
        append_line(text, line);
    }
}

// Appends the bytes of an expression, 40 a line.
pub fn append_bytes(text: &mut TextBuffer, code: &[u8])
    ensures count { IsPrefixLen text.new.end text.new.bytes.now }
    ensures text { Appends text.old.bytes.now text.old.end (bytes_text code.now) text.new.bytes.now text.new.end }
    ensures lent { text.new.bytes.ghost_name ≡ text.old.bytes.ghost_name }
{
    text.append(b"");
    append_lines(text, code);
}

// Recorded bytes, 16 to a line, in hexadecimal and as characters.
ghost use Rattle.std.specs.Prelude.{◌≡◌, drop};
ghost use Rattle.io.specs.Counts.{IsPrefixLen};
ghost use Rattle.text_buffer.specs.Text.{Appends};
ghost use Rattle.reader.specs.NextRecord.{next_record};
ghost use Rattle.frame_lines.specs.Dump.{cell, column, shown_byte, shown, dump_line, dump_text};

use hexadecimal::append_byte;
use phrases::numbers::append_address;
use reader::Found;
use text_buffer::TextBuffer;

// The byte at place i, or blanks where there is none.
fn append_cell(text: &mut TextBuffer, bytes: &[u8], i: usize)
    ensures text { Appends text.old.bytes.now text.old.end (cell (drop i bytes.now)) text.new.bytes.now text.new.end }
    ensures lent { text.new.bytes.ghost_name ≡ text.old.bytes.ghost_name }
{
    if bytes.len() <= i {
        text.append(b"   ");
        return;
    }
    text.append(b" ");
    append_byte(text, bytes[i]);
}

fn append_column(text: &mut TextBuffer, bytes: &[u8])
    ensures text { Appends text.old.bytes.now text.old.end (column 16 bytes.now) text.new.bytes.now text.new.end }
    ensures lent { text.new.bytes.ghost_name ≡ text.old.bytes.ghost_name }
{
    text.append(b"");
    for i in 0..16 {
        append_cell(text, bytes, i);
    }
}

fn shown_byte(byte: u8) -> u8
    ensures { result ≡ shown_byte byte }
{
    match byte {
        32..=126 => byte,
        _ => b'.',
    }
}

fn append_shown(text: &mut TextBuffer, bytes: &[u8])
    ensures text { Appends text.old.bytes.now text.old.end (shown bytes.now) text.new.bytes.now text.new.end }
    ensures lent { text.new.bytes.ghost_name ≡ text.old.bytes.ghost_name }
{
    text.append(b"");
    for byte in bytes {
        text.append(&[shown_byte(*byte)]);
    }
}

// Appends one line of up to 16 bytes. The hexadecimal column shows no more than 16.
fn append_line(text: &mut TextBuffer, address: u64, bytes: &[u8])
    ensures count { IsPrefixLen text.new.end text.new.bytes.now }
    ensures text { Appends text.old.bytes.now text.old.end (dump_line address bytes.now) text.new.bytes.now text.new.end }
    ensures lent { text.new.bytes.ghost_name ≡ text.old.bytes.ghost_name }
{
    text.append(b"    ");
    append_address(text, address);
    text.append(b" ");
    append_column(text, bytes);
    text.append(b"  |");
    append_shown(text, bytes);
    text.append(b"|\n");
}

// Appends the line of the bytes from `offset` on of the record at `place` of the frame whose records end at `end`.
// Nothing is appended past the last byte, or where there is no memory record.
pub fn append_dump(text: &mut TextBuffer, buffer: &[u8], end: usize, place: usize, offset: usize)
    ensures count { IsPrefixLen text.new.end text.new.bytes.now }
    ensures text { Appends text.old.bytes.now text.old.end (dump_text buffer.now (next_record buffer.now end place) offset) text.new.bytes.now text.new.end }
    ensures lent { text.new.bytes.ghost_name ≡ text.old.bytes.ghost_name }
{
    match reader::next_record(buffer, end, place) {
        Err(refusal) => text.append(b""),
        Ok(found) => match found.record {
            Found::Variable { number, value } => text.append(b""),
            Found::Memory {
                address,
                length,
                place,
            } => {
                if length <= offset {
                    text.append(b"");
                    return;
                }
                let start = place + offset;
                let behind = start + (length - offset).min(16);
                let first = address.wrapping_add(offset as u64);
                append_line(text, first, &buffer[start..behind]);
            }
        },
    }
}

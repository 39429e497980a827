// The frames, in bytes.
ghost use Rattle.std.specs.Prelude.{◌≡◌, ◌≤◌};
ghost use Rattle.io.specs.Counts.{IsPrefixLen};
ghost use Rattle.text_buffer.specs.Text.{Appends};
ghost use Rattle.encoding.specs.LittleEndian.{little_bytes};
ghost use Rattle.frames.specs.Record.{memory, variable, encode};
ghost use Rattle.reader.specs.Located.{walked};
ghost use Rattle.reader.specs.NextRecord.{next_record};
ghost use Rattle.tracefile.specs.Frames.{record_bytes, opening_bytes};

use reader::Found;
use text_buffer::TextBuffer;

fn append_little(text: &mut TextBuffer, value: u64, count: usize)
    requires { count ≤ 8 }
    ensures count { IsPrefixLen text.new.end text.new.bytes.now }
    ensures text { Appends text.old.bytes.now text.old.end (little_bytes count value) text.new.bytes.now text.new.end }
    ensures lent { text.new.bytes.ghost_name ≡ text.old.bytes.ghost_name }
{
    let mut bytes = [0u8; 8];
    encoding::put_little(&mut bytes, 0, value, count);
    text.append(&bytes[0..count]);
}

fn append_memory(text: &mut TextBuffer, address: u64, bytes: &[u8])
    ensures count { IsPrefixLen text.new.end text.new.bytes.now }
    ensures text { Appends text.old.bytes.now text.old.end (encode (memory address bytes.now)) text.new.bytes.now text.new.end }
    ensures lent { text.new.bytes.ghost_name ≡ text.old.bytes.ghost_name }
{
    text.append(b"M");
    append_little(text, address, 8);
    append_little(text, bytes.len() as u64, 2);
    text.append(bytes);
}

fn append_variable(text: &mut TextBuffer, number: u64, value: u64)
    ensures count { IsPrefixLen text.new.end text.new.bytes.now }
    ensures text { Appends text.old.bytes.now text.old.end (encode (variable number value)) text.new.bytes.now text.new.end }
    ensures lent { text.new.bytes.ghost_name ≡ text.old.bytes.ghost_name }
{
    text.append(b"V");
    append_little(text, number, 4);
    append_little(text, value, 8);
}

// The record at `place` of the frame whose records end at `end`, as it stands in the file; nothing where there is none.
pub fn append_record(text: &mut TextBuffer, buffer: &[u8], end: usize, place: usize)
    ensures count { IsPrefixLen text.new.end text.new.bytes.now }
    ensures text { Appends text.old.bytes.now text.old.end (record_bytes buffer.now (next_record buffer.now end place)) text.new.bytes.now text.new.end }
    ensures lent { text.new.bytes.ghost_name ≡ text.old.bytes.ghost_name }
{
    match reader::next_record(buffer, end, place) {
        Err(refusal) => text.append(b""),
        Ok(found) => match found.record {
            Found::Variable { number, value } => append_variable(
                text,
                number.wrapping_add(1),
                value,
            ),
            Found::Memory {
                address,
                length,
                place,
            } => { append_memory(text, address, &buffer[place..place + length]) }
        },
    }
}

// The first 6 bytes of the frame that ends at `end`; nothing where there is none.
pub fn append_opening(text: &mut TextBuffer, buffer: &[u8], end: usize)
    ensures count { IsPrefixLen text.new.end text.new.bytes.now }
    ensures text { Appends text.old.bytes.now text.old.end (opening_bytes (walked buffer.now end)) text.new.bytes.now text.new.end }
    ensures lent { text.new.bytes.ghost_name ≡ text.old.bytes.ghost_name }
{
    match reader::walk(buffer, end) {
        Ok(frame) => {
            append_little(text, u64::from(frame.tag.tracepoint), 2);
            append_little(text, frame.length as u64, 4);
        }
        Err(refusal) => text.append(b""),
    }
}

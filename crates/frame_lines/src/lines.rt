// The lines for a frame, for a record, and for what was shown.
ghost use Rattle.std.specs.Prelude.{◌≡◌};
ghost use Rattle.io.specs.Counts.{IsPrefixLen};
ghost use Rattle.text_buffer.specs.Text.{Appends};
ghost use Rattle.refusals.specs.Refusal.{told};
ghost use Rattle.reader.specs.Read.{counting};
ghost use Rattle.reader.specs.NextRecord.{next_record};
ghost use Rattle.frame_lines.specs.Lines.{frame_refused_text, no_frame_text, no_record_text, some_frame_text, memory_text, variable_record_text, frame_text, record_text, completed_frames_text};

use phrases::numbers::{append_address, append_count, append_value};
use phrases::refused::{append_refusal, append_refused_at};
use reader::{Counted, Found};
use refusals::Refusal;
use text_buffer::TextBuffer;

// `refused N at offset K: WORDS`, without a line end.
fn append_refused(text: &mut TextBuffer, refusal: Refusal)
    ensures count { IsPrefixLen text.new.end text.new.bytes.now }
    ensures text { Appends text.old.bytes.now text.old.end (frame_refused_text (told refusal)) text.new.bytes.now text.new.end }
    ensures lent { text.new.bytes.ghost_name ≡ text.old.bytes.ghost_name }
{
    let number = refusal.reason.number();
    append_refused_at(text, number, refusal.offset);
    text.append(b": ");
    append_refusal(text, number);
}

fn append_no_frame(text: &mut TextBuffer, refusal: Refusal, number: u64)
    ensures count { IsPrefixLen text.new.end text.new.bytes.now }
    ensures text { Appends text.old.bytes.now text.old.end (no_frame_text (told refusal) number) text.new.bytes.now text.new.end }
    ensures lent { text.new.bytes.ghost_name ≡ text.old.bytes.ghost_name }
{
    append_refused(text, refusal);
    text.append(b"\n  asked: frame ");
    text.append_number(number);
    text.append(b"\n");
}

// What the reader refuses of record `index` of frame `number`.
pub fn append_no_record(text: &mut TextBuffer, refusal: Refusal, number: u64, index: u64)
    ensures count { IsPrefixLen text.new.end text.new.bytes.now }
    ensures text { Appends text.old.bytes.now text.old.end (no_record_text (told refusal) number index) text.new.bytes.now text.new.end }
    ensures lent { text.new.bytes.ghost_name ≡ text.old.bytes.ghost_name }
{
    append_refused(text, refusal);
    text.append(b"\n  asked: frame ");
    text.append_number(number);
    text.append(b", record ");
    text.append_number(index);
    text.append(b"\n");
}

fn append_some_frame(text: &mut TextBuffer, number: u64, counted: Counted)
    ensures count { IsPrefixLen text.new.end text.new.bytes.now }
    ensures text { Appends text.old.bytes.now text.old.end (some_frame_text number counted.frame.tag counted.records counted.frame.length) text.new.bytes.now text.new.end }
    ensures lent { text.new.bytes.ghost_name ≡ text.old.bytes.ghost_name }
{
    text.append(b"frame ");
    text.append_number(number);
    text.append(b": tracepoint ");
    text.append_number(u64::from(counted.frame.tag.tracepoint));
    text.append(b", ");
    append_count(text, counted.records as u64, b"record");
    text.append(b", ");
    append_count(text, counted.frame.length as u64, b"byte");
    text.append(b" encoded\n");
}

fn append_memory(text: &mut TextBuffer, index: u64, address: u64, length: usize)
    ensures count { IsPrefixLen text.new.end text.new.bytes.now }
    ensures text { Appends text.old.bytes.now text.old.end (memory_text index address length) text.new.bytes.now text.new.end }
    ensures lent { text.new.bytes.ghost_name ≡ text.old.bytes.ghost_name }
{
    text.append(b"  record ");
    text.append_number(index);
    text.append(b": memory at ");
    append_address(text, address);
    text.append(b", ");
    append_count(text, length as u64, b"byte");
    text.append(b"\n");
}

fn append_variable(text: &mut TextBuffer, index: u64, variable: u64, value: u64)
    ensures count { IsPrefixLen text.new.end text.new.bytes.now }
    ensures text { Appends text.old.bytes.now text.old.end (variable_record_text index variable value) text.new.bytes.now text.new.end }
    ensures lent { text.new.bytes.ghost_name ≡ text.old.bytes.ghost_name }
{
    text.append(b"  record ");
    text.append_number(index);
    text.append(b": variable ");
    text.append_number(variable);
    text.append(b" = ");
    append_value(text, value);
    text.append(b"\n");
}

// Appends the line for the frame that ends at `end`, with its number: what it has, or why it is refused.
pub fn append_frame(text: &mut TextBuffer, buffer: &[u8], end: usize, number: u64)
    ensures count { IsPrefixLen text.new.end text.new.bytes.now }
    ensures text { Appends text.old.bytes.now text.old.end (frame_text number (counting buffer.now end 0)) text.new.bytes.now text.new.end }
    ensures lent { text.new.bytes.ghost_name ≡ text.old.bytes.ghost_name }
{
    match reader::count_records(buffer, end, 0) {
        Ok(counted) => append_some_frame(text, number, counted),
        Err(refusal) => append_no_frame(text, refusal, number),
    }
}

// Appends the line for the record at `place` of the frame whose records end at `end`, with its number; nothing where
// there is none.
pub fn append_record(text: &mut TextBuffer, buffer: &[u8], end: usize, place: usize, index: u64)
    ensures count { IsPrefixLen text.new.end text.new.bytes.now }
    ensures text { Appends text.old.bytes.now text.old.end (record_text index (next_record buffer.now end place)) text.new.bytes.now text.new.end }
    ensures lent { text.new.bytes.ghost_name ≡ text.old.bytes.ghost_name }
{
    match reader::next_record(buffer, end, place) {
        Ok(found) => match found.record {
            Found::Memory {
                address,
                length,
                place,
            } => append_memory(text, index, address, length),
            Found::Variable { number, value } => append_variable(text, index, number, value),
        },
        Err(refusal) => text.append(b""),
    }
}

// Appends the last line: so many were shown, and so many of them refused.
pub fn append_completed(text: &mut TextBuffer, number: u64, word: &[u8], refused: u64)
    ensures count { IsPrefixLen text.new.end text.new.bytes.now }
    ensures text { Appends text.old.bytes.now text.old.end (completed_frames_text number word.now refused) text.new.bytes.now text.new.end }
    ensures lent { text.new.bytes.ghost_name ≡ text.old.bytes.ghost_name }
{
    text.append(b"completed: ");
    append_count(text, number, word);
    if refused == 0 {
        text.append(b"\n");
        return;
    }
    text.append(b", ");
    text.append_number(refused);
    text.append(b" of them refused\n");
}

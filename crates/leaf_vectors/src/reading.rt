// The lines that the frame reader answers.
ghost use Rattle.io.specs.Counts.{IsPrefixLen};

use crate::calls::{Call, Kind};
use crate::text::{append_broken, append_bytes, append_number};
use frames::Tag;
use reader::{Counted, Found, Frame, ReadRecord};
use refusals::Refusal;
use text_buffer::TextBuffer;

// ---- the text of an answer
// A space and a number.
fn append_next(text: &mut TextBuffer, number: u64)
    ensures { IsPrefixLen text.new.end text.new.bytes.now }
{
    text.append(b" ");
    append_number(text, number);
}

fn append_refusal(text: &mut TextBuffer, refusal: Refusal)
    ensures { IsPrefixLen text.new.end text.new.bytes.now }
{
    text.append(b"refused");
    append_next(text, u64::from(refusal.reason.number()));
    append_next(text, refusal.offset as u64);
}

// A word, what the trailer says, and two numbers.
fn append_three(text: &mut TextBuffer, word: &[u8], tag: Tag, a: u64, b: u64)
    ensures { IsPrefixLen text.new.end text.new.bytes.now }
{
    text.append(word);
    append_next(text, u64::from(tag.tracepoint));
    append_next(text, a);
    append_next(text, b);
}

fn append_frame(text: &mut TextBuffer, answer: Result<Frame, Refusal>)
    ensures { IsPrefixLen text.new.end text.new.bytes.now }
{
    match answer {
        Ok(frame) => {
            append_three(
                text,
                b"frame",
                frame.tag,
                frame.start as u64,
                frame.length as u64,
            );
        }
        Err(refusal) => append_refusal(text, refusal),
    }
}

fn append_count(text: &mut TextBuffer, answer: Result<Counted, Refusal>)
    ensures { IsPrefixLen text.new.end text.new.bytes.now }
{
    match answer {
        Ok(counted) => {
            let frame = counted.frame;
            append_three(
                text,
                b"records",
                frame.tag,
                frame.start as u64,
                frame.length as u64,
            );
            append_next(text, counted.records as u64);
        }
        Err(refusal) => append_refusal(text, refusal),
    }
}

fn append_reading(text: &mut TextBuffer, answer: Result<ReadRecord, Refusal>)
    ensures { IsPrefixLen text.new.end text.new.bytes.now }
{
    match answer {
        Ok(read) => match read.record {
            Found::Memory {
                address,
                length,
                place,
            } => {
                append_three(text, b"memory", read.tag, address, length as u64);
                append_next(text, place as u64);
            }
            Found::Variable { number, value } => {
                append_three(text, b"variable", read.tag, number, value);
            }
        },
        Err(refusal) => append_refusal(text, refusal),
    }
}

// ---- questions to a buffer
fn append_asked(text: &mut TextBuffer, call: Call, buffer: &[u8])
    ensures { IsPrefixLen text.new.end text.new.bytes.now }
{
    let used = call.number(3) as usize;
    let frame = call.number(4);
    match call.kind {
        Kind::Step => append_frame(text, reader::walk(buffer, used)),
        Kind::Locate => append_frame(text, reader::locate(buffer, used, frame)),
        Kind::Count => append_count(text, reader::count_records(buffer, used, frame)),
        _ => append_reading(text, reader::read(buffer, used, frame, call.number(5))),
    }
}

// The `n` bytes at the front, over and over to the end.
fn repeat(bytes: &mut [u8], n: usize) {
    for i in n..bytes.len() {
        bytes[i] = bytes[i - n];
    }
}

fn append_repeated(text: &mut TextBuffer, call: Call, buffer: &mut [u8], n: usize)
    ensures { IsPrefixLen text.new.end text.new.bytes.now }
{
    repeat(buffer, n);
    append_asked(text, call, buffer);
}

// The buffer may be longer than the longest that the reader takes.
pub fn append_frames(text: &mut TextBuffer, call: Call)
    ensures { IsPrefixLen text.new.end text.new.bytes.now }
{
    let mut buffer = [0u8; 65600];
    let n = call.bytes(1, &mut buffer);
    let length = call.number(2) as usize;
    if 65600 < length {
        append_broken(text);
        return;
    }
    append_repeated(text, call, &mut buffer[..length], n);
}

// ---- all records of one frame
// The bytes of a memory record; none where the buffer has them not.
fn recorded<'a>(buffer: &'a [u8], place: usize, length: usize) -> &'a [u8] {
    if buffer.len() < place || buffer.len() - place < length {
        return &buffer[..0];
    }
    &buffer[place..place + length]
}

fn append_record(text: &mut TextBuffer, buffer: &[u8], index: u64)
    ensures { IsPrefixLen text.new.end text.new.bytes.now }
{
    let Ok(read) = reader::read(buffer, buffer.len(), 0, index) else {
        text.append(b"?");
        return;
    };
    match read.record {
        Found::Memory {
            address,
            length,
            place,
        } => {
            text.append(b"m");
            append_next(text, address);
            text.append(b" ");
            append_bytes(text, recorded(buffer, place, length));
        }
        Found::Variable { number, value } => {
            text.append(b"v");
            append_next(text, number);
            append_next(text, value);
        }
    }
}

fn append_records(text: &mut TextBuffer, buffer: &[u8], count: u64)
    ensures { IsPrefixLen text.new.end text.new.bytes.now }
{
    text.append(b"");
    for index in 0..count {
        if index != 0 {
            text.append(b";");
        }
        append_record(text, buffer, index);
    }
}

fn append_divided(text: &mut TextBuffer, buffer: &[u8])
    ensures { IsPrefixLen text.new.end text.new.bytes.now }
{
    match reader::count_records(buffer, buffer.len(), 0) {
        Ok(counted) if counted.records == 0 => text.append(b"none"),
        Ok(counted) => append_records(text, buffer, counted.records as u64),
        Err(refusal) => append_refusal(text, refusal),
    }
}

// A trailer behind the `n` bytes makes a frame of them.
fn append_closed(text: &mut TextBuffer, frame: &mut [u8], n: u32)
    ensures { IsPrefixLen text.new.end text.new.bytes.now }
{
    let tag = frames::trailer::tag_of(7);
    match frames::trailer::append_trailer(frame, n as usize, tag, n) {
        Some(written) => append_divided(text, frame),
        None => append_broken(text),
    }
}

pub fn append_division(text: &mut TextBuffer, call: Call)
    ensures { IsPrefixLen text.new.end text.new.bytes.now }
{
    let mut buffer = [0u8; 4104];
    let n = call.bytes(1, &mut buffer);
    if 4096 < n {
        append_broken(text);
        return;
    }
    let end = n + frames::trailer::TRAILER_SIZE;
    append_closed(text, &mut buffer[..end], n as u32);
}

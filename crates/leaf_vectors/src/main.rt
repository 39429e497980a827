// Test vectors for `arithmetic`, `memory`, `frames` and `reader`: a line with a call in, a line with
// its answer out. The first character of a line is its kind:
//   w OPCODE A B                  an operator on words; B is 0 where it has one operand
//   f F1 BYTES1 F2 BYTES2 A SIZE  a fetch of SIZE bytes at A
//   r F1 BYTES1 F2 BYTES2 A       the rest of a span from A on
//   z BYTES SIZE                  the search for a zero byte
//   m ROOM A BYTES                a memory record, written into a free part of ROOM bytes
//   v ROOM NUMBER VALUE           a variable record
//   t ROOM TRACEPOINT LENGTH      a trailer
//   d BYTES                       all records of a frame whose records are these bytes
// Of a buffer of LENGTH bytes, which are BYTES over and over, cut at its end:
//   g BYTES LENGTH USED FRAME RECORD      one record
//   c BYTES LENGTH USED FRAME             how many records a frame has
//   l BYTES LENGTH USED FRAME             where a frame is
//   s BYTES LENGTH PLACE                  a step of the walker
#![tactic(auto)]

mod calls;
mod fields;
mod reading;
mod text;
mod words;

ghost use Rattle.io.specs.Counts.{IsPrefixLen};

use calls::{Call, Kind};
use lines::{LineError, Lines};
use memory::{Span, Target};
use reading::{append_division, append_frames};
use std::io::Error;
use text::{append_broken, append_bytes, append_refused, append_search, append_written};
use text_buffer::TextBuffer;
use words::append_word;

fn append_read(text: &mut TextBuffer, call: Call, target: Target)
    ensures { IsPrefixLen text.new.end text.new.bytes.now }
{
    let address = call.number(5);
    let read = match call.kind {
        Kind::Rest => memory::spans_refusal(target).map(|memory| memory.rest(address)),
        _ => {
            let size = call.number(6);
            memory::fetch_refusal(target, address, size).map(|_| memory::fetch(
                target, address, size,
            ))
        }
    };
    match read {
        Ok(bytes) => append_bytes(text, bytes),
        Err(reason) => append_refused(text, reason),
    }
}

fn append_spans(text: &mut TextBuffer, call: Call)
    ensures { IsPrefixLen text.new.end text.new.bytes.now }
{
    let mut image = [0u8; 4096];
    let mut work = [0u8; 4096];
    let n = call.bytes(2, &mut image);
    let m = call.bytes(4, &mut work);
    let target = Target {
        image: Span {
            first: call.number(1),
            bytes: &image[..n],
        },
        work: Span {
            first: call.number(3),
            bytes: &work[..m],
        },
    };
    append_read(text, call, target);
}

fn append_zero(text: &mut TextBuffer, call: Call)
    ensures { IsPrefixLen text.new.end text.new.bytes.now }
{
    let mut bytes = [0u8; 4096];
    let n = call.bytes(1, &mut bytes);
    let size = call.number(2) as usize;
    append_search(text, memory::find_zero(&bytes[..n], size));
}

fn write_memory(part: &mut [u8], call: Call) -> Option<usize> {
    let mut bytes = [0u8; 4096];
    let n = call.bytes(3, &mut bytes);
    frames::write_memory(part, call.number(2), &bytes[..n])
}

// The fields' kinds have bounded the numbers; the remainders are for the proof that they fit.
fn write_variable(part: &mut [u8], call: Call) -> Option<usize> {
    let number = call.number(2) % 0x1_0000_0000;
    frames::write_variable(part, number as u32, call.number(3))
}

fn write_trailer(part: &mut [u8], call: Call) -> Option<usize> {
    let tracepoint = call.number(2) % 0x1_0000;
    let length = call.number(3) % 0x1_0000_0000;
    frames::trailer::write_trailer(
        part,
        frames::trailer::tag_of(tracepoint as u16),
        length as u32,
    )
}

fn write_record(part: &mut [u8], call: Call) -> Option<usize> {
    match call.kind {
        Kind::Memory => write_memory(part, call),
        Kind::Variable => write_variable(part, call),
        _ => write_trailer(part, call),
    }
}

fn append_record(text: &mut TextBuffer, call: Call, part: &mut [u8])
    ensures { IsPrefixLen text.new.end text.new.bytes.now }
{
    let written = write_record(part, call);
    append_written(text, written, part);
}

// Each byte of the free part is a5 before, so that a byte too many shows. A larger part would have
// an answer that is too long for `print_answer`.
fn append_room(text: &mut TextBuffer, call: Call)
    ensures { IsPrefixLen text.new.end text.new.bytes.now }
{
    let mut part = [0xa5u8; 1024];
    let room = call.number(1) as usize;
    if 1024 < room {
        append_broken(text);
        return;
    }
    append_record(text, call, &mut part[..room]);
}

fn append_answer(text: &mut TextBuffer, call: Call)
    ensures { IsPrefixLen text.new.end text.new.bytes.now }
{
    match call.kind {
        Kind::Word => append_word(text, call.number(1), call.number(2), call.number(3)),
        Kind::Fetch | Kind::Rest => append_spans(text, call),
        Kind::Zero => append_zero(text, call),
        Kind::Memory | Kind::Variable | Kind::Trailer => append_room(text, call),
        Kind::Division => append_division(text, call),
        Kind::Read | Kind::Count | Kind::Locate | Kind::Step => append_frames(text, call),
    }
}

fn append_line(text: &mut TextBuffer, line: &[u8])
    ensures { IsPrefixLen text.new.end text.new.bytes.now }
{
    match Call::of(line) {
        Some(call) => append_answer(text, call),
        None => append_broken(text),
    }
}

fn print_answer(rt: &impl Print, line: &[u8]) -> Result<(), Error> {
    let mut room = [0u8; 4096];
    let mut text = TextBuffer::new(&mut room);
    append_line(&mut text, line);
    text.append(b"\n");
    rt.write_all(text.written())
}

// A line that is too long is broken, as an empty one is. Where a read fails in a line, what had come of it is answered,
// and the next line is asked for.
// The loop has a last turn for the proof that it ends; no input comes to it.
fn main(rt: HostRuntime) -> Result<(), Error> {
    let mut input = io::large_buffer();
    let mut text = [0u8; 8448];
    let mut lines = Lines::new(rt.stdin(), &mut input);
    for _ in 0..u64::MAX {
        match lines.next(&mut text) {
            Ok(Some(line)) => print_answer(&rt, line)?,
            Ok(None) | Err(LineError::Failed(_, Some(0))) => break,
            Err(LineError::Failed(_, Some(n))) => print_answer(&rt, text.get(..n).unwrap_or(&[]))?,
            Err(LineError::TooLong | LineError::Failed(_, None)) => print_answer(&rt, b"")?,
        }
    }
    Ok(())
}

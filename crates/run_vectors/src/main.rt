// Test vectors for `runner`: a line with a case in, a line with its outcome out. Fields are divided by
// single spaces, numbers are lower-case hexadecimal, and bytes are hexadecimal pairs or `-` for none.
// A case is EXPR REGS VARS F1 BYTES1 F2 BYTES2 TRACEPOINT LENGTH USED ALLOWANCE:
//   REGS        `-`; values divided by `,`; or `*N`: register i is i * 0x0101010101010101
//   VARS        `-`; or I=VALUE, divided by `,`; the others are 0
//   BYTES       also `+N`: byte i is (i * 13 + 1) mod 251 + 1; or `+N,I`: the same but byte I is 0
//   LENGTH      of the buffer; byte i is (i * 7 + 3) mod 256 before the run
//   ALLOWANCE   a number, or `default` for the entry without one
// An outcome is `completed STEPS ANSWER USED VARS SUM HEAD` or `refused NUMBER OFFSET STEPS USED VARS
// SUM HEAD`: SUM is the FNV-1a hash of the buffer, and HEAD its first 32 bytes from the used length
// given on. A line that is no case has the answer `bad line`.
#![tactic(auto)]

mod fields;
mod inputs;
mod text;

ghost use Rattle.std.specs.Prelude.{IfSome};
ghost use Rattle.io.specs.Counts.{IsPrefixLen};

use fields::{number_of, size_of};
use inputs::{
    buffer_room, put_buffer, put_bytes, put_registers, put_span, put_variables, span_room,
};
use lines::{LineError, Lines};
use machine::Inputs;
use memory::{Span, Target};
use std::io::Error;
use text::{append_broken, append_buffer, append_outcome, append_variables};
use text_buffer::TextBuffer;

// A case: fields that fill arrays as they stand in the line, and the numbers.
#[derive(Clone, Copy)]
struct Case<'a> {
    code: &'a [u8],
    registers: &'a [u8],
    variables: &'a [u8],
    image_first: u64,
    image: &'a [u8],
    work_first: u64,
    work: &'a [u8],
    tracepoint: u16,
    length: usize,
    used: usize,
    // None is `default`.
    allowance: Option<u64>,
}

fn allowance_of(text: &[u8]) -> Option<Option<u64>> {
    if text == b"default".as_slice() {
        return Some(None);
    }
    Some(Some(number_of(text)?))
}

fn case_of<'a>(line: &'a [u8]) -> Option<Case<'a>> {
    let mut fields = line.split(|c| *c == b' ');
    let case = Case {
        code: fields.next()?,
        registers: fields.next()?,
        variables: fields.next()?,
        image_first: number_of(fields.next()?)?,
        image: fields.next()?,
        work_first: number_of(fields.next()?)?,
        work: fields.next()?,
        tracepoint: u16::try_from(number_of(fields.next()?)?).ok()?,
        length: size_of(fields.next()?)?,
        used: size_of(fields.next()?)?,
        allowance: allowance_of(fields.next()?)?,
    };
    if fields.next().is_some() {
        return None;
    }
    Some(case)
}

// The case, run in this memory and with this buffer. None, here and below, where a field is out of form, and then
// nothing is appended. Each long array is made in a function of its own, since the check of more of them in one is slow.
fn append_run(
    text: &mut TextBuffer,
    case: Case,
    image: &[u8],
    work: &[u8],
    buffer: &mut [u8],
) -> Option<()>
    ensures { IfSome result (λ _. IsPrefixLen text.new.end text.new.bytes.now) }
{
    let mut code = [0u8; 2048];
    let mut registers = [0u64; 257];
    let mut variables = [0u64; sizes::VARIABLE_COUNT];
    put_variables(case.variables, &mut variables)?;
    let inputs = Inputs {
        code: put_bytes(case.code, &mut code)?,
        registers: put_registers(case.registers, &mut registers)?,
        target: Target {
            image: Span {
                first: case.image_first,
                bytes: image,
            },
            work: Span {
                first: case.work_first,
                bytes: work,
            },
        },
        used: case.used,
        tracepoint: case.tracepoint,
    };
    let outcome = match case.allowance {
        Some(allowance) => runner::run(inputs, &mut variables, buffer, allowance),
        None => runner::run_default(inputs, &mut variables, buffer),
    };
    append_outcome(text, outcome, case.used);
    append_variables(text, &variables);
    append_buffer(text, buffer, case.used);
    Some(())
}

fn append_by_work(text: &mut TextBuffer, case: Case, image: &[u8], work: &[u8]) -> Option<()>
    ensures { IfSome result (λ _. IsPrefixLen text.new.end text.new.bytes.now) }
{
    let mut room = buffer_room();
    let buffer = room.get_mut(..case.length)?;
    put_buffer(buffer);
    append_run(text, case, image, work, buffer)
}

fn append_by_image(text: &mut TextBuffer, case: Case, image: &[u8]) -> Option<()>
    ensures { IfSome result (λ _. IsPrefixLen text.new.end text.new.bytes.now) }
{
    let mut room = span_room();
    append_by_work(text, case, image, put_span(case.work, &mut room)?)
}

fn append_case(text: &mut TextBuffer, line: &[u8]) -> Option<()>
    ensures { IfSome result (λ _. IsPrefixLen text.new.end text.new.bytes.now) }
{
    let case = case_of(line)?;
    let mut room = span_room();
    append_by_image(text, case, put_span(case.image, &mut room)?)
}

fn append_line(text: &mut TextBuffer, line: &[u8])
    ensures { IsPrefixLen text.new.end text.new.bytes.now }
{
    match append_case(text, line) {
        Some(()) => (),
        None => append_broken(text),
    }
}

fn print_answer(rt: &impl Print, line: &[u8]) -> Result<(), Error> {
    let mut room = [0u8; 4096];
    let mut text = TextBuffer::new(&mut room);
    append_line(&mut text, line);
    text.append(b"\n");
    rt.write_all(text.written())
}

// A line that is too long is broken, as an empty one is. Where a read fails in a line, what had come of it is answered,
// and the next line is asked for.
// The loop has a last turn for the proof that it ends; no input comes to it.
fn main(rt: HostRuntime) -> Result<(), Error> {
    let mut input = io::large_buffer();
    let mut text = [0u8; 4096];
    let mut lines = Lines::new(rt.stdin(), &mut input);
    for _ in 0..u64::MAX {
        match lines.next(&mut text) {
            Ok(Some(line)) => print_answer(&rt, line)?,
            Ok(None) | Err(LineError::Failed(_, Some(0))) => break,
            Err(LineError::Failed(_, Some(n))) => print_answer(&rt, text.get(..n).unwrap_or(&[]))?,
            Err(LineError::TooLong | LineError::Failed(_, None)) => print_answer(&rt, b"")?,
        }
    }
    Ok(())
}

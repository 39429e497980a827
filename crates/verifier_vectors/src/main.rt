// Test vectors for the verifier: a line of hexadecimal in, a line with the verifier's answer out.
#![tactic(auto)]

ghost use Rattle.io.specs.Counts.{IsPrefixLen};

use lines::{LineError, Lines};
use refusals::Refusal;
use std::io::Error;
use text_buffer::{append, append_number};
use verdict::Accepted;

fn append_accepted(out: &mut [u8], accepted: Accepted) -> usize
    ensures { IsPrefixLen result out.new }
{
    let a = append(out, 0, b"accepted ");
    let b = append_number(out, a, accepted.count as u64);
    let c = append(out, b, b" ");
    let d = append_number(out, c, u64::from(accepted.greatest));
    let e = append(out, d, b" ");
    let f = append_number(out, e, accepted.longest as u64);
    append(out, f, b"\n")
}

fn append_refused(out: &mut [u8], refusal: Refusal) -> usize
    ensures { IsPrefixLen result out.new }
{
    let a = append(out, 0, b"refused ");
    let b = append_number(out, a, u64::from(refusal.reason.number()));
    let c = append(out, b, b" ");
    let d = append_number(out, c, refusal.offset as u64);
    append(out, d, b"\n")
}

fn append_answer(out: &mut [u8], expression: &[u8]) -> usize
    ensures { IsPrefixLen result out.new }
{
    match verifier::verify(expression) {
        Ok(accepted) => append_accepted(out, accepted),
        Err(refusal) => append_refused(out, refusal),
    }
}

fn print_answer(rt: &impl Print, expression: &[u8]) -> Result<(), Error> {
    let mut line = [0u8; 64];
    let n = append_answer(&mut line, expression);
    rt.write_all(&line[..n])
}

fn print_broken(rt: &impl Print) -> Result<(), Error> {
    rt.write_all(b"error: not a line of hexadecimal\n")
}

fn answer(rt: &impl Print, text: &[u8]) -> Result<(), Error> {
    let mut bytes = [0u8; 4096];
    match hexadecimal::decode(text, &mut bytes) {
        Ok(n) => print_answer(rt, &bytes[0..n]),
        _ => print_broken(rt),
    }
}

// Where a read fails in a line, what had come of it is answered, and the next line is asked for.
// The loop has a last turn for the proof that it ends; no input comes to it.
fn main(rt: HostRuntime) -> Result<(), Error> {
    let mut input = io::large_buffer();
    let mut text = [0u8; 8192];
    let mut lines = Lines::new(rt.stdin(), &mut input);
    for _ in 0..u64::MAX {
        match lines.next(&mut text) {
            Ok(Some(line)) => answer(&rt, line)?,
            Ok(None) | Err(LineError::Failed(_, Some(0))) => break,
            Err(LineError::Failed(_, Some(n))) => answer(&rt, text.get(..n).unwrap_or(&[]))?,
            Err(LineError::TooLong | LineError::Failed(_, None)) => print_broken(&rt)?,
        }
    }
    Ok(())
}

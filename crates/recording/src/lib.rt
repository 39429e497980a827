// The instructions that record: trace, tracenz, trace_quick, trace16 and tracev. `put` is the end of what is written in
// the whole buffer.
#![tactic(auto)]

ghost use Rattle.std.specs.Prelude.{Ok, Err, IfSome, MatchOption, ◌≡◌, ◌+◌, ◌-◌, ◌^◌, ◌≤◌, ◌<◌, length};
ghost use Rattle.refusals.specs.declared.Reason.TheVariants.{BufferFull};
ghost use Rattle.sizes.specs.Sizes.{record_most};
ghost use Rattle.isa.specs.Classes.{trace, tracenz, trace_quick, tracev};
ghost use Rattle.isa.specs.Decode.{operand};
ghost use Rattle.isa.specs.Joining.Held.{held};
ghost use Rattle.memory.specs.Spans.{target_of};
ghost use Rattle.frames.specs.Record.{memory, variable};
ghost use Rattle.machine.specs.Recording.{fitting, range_made, to_zero_made};
ghost use Rattle.machine.specs.Meaning.{trace_done, tracenz_done, trace_quick_done, tracev_done};
ghost use Rattle.operations.specs.Joining.Here.{Here};
ghost use Rattle.operations.specs.Joining.Did.{Did};
ghost use Rattle.recording.specs.Joining.DidMake.{DidMake};

use isa::{Cells, Stack, opcode};
use machine::Fixed;
use memory::{Memory, Search};
use operations::Place;
use refusals::Reason;

// The most bytes that a record holds, as a size is told.
const RECORD_MOST: u64 = sizes::RECORD_MOST as u64;

// ---- records: the end of what is then written, or 21
// The end behind what a writer has written after `put`.
fn behind(written: Option<usize>, put: usize) -> Result<usize, Reason>
    requires { IfSome written (λ size. put + size < 2 ^ 64) }
    ensures { MatchOption written (result ≡ Err BufferFull) (λ size. result ≡ Ok (put + size)) }
{
    match written {
        Some(size) => Ok(put + size),
        None => Err(Reason::BufferFull),
    }
}

// Its answer would go through memory: placed inside, a record costs 20 machine instructions less.
#[inline(always)]
fn record_bytes(buffer: &mut [u8], put: usize, address: u64, bytes: &[u8]) -> Result<usize, Reason>
    requires room { put ≤ length buffer.old }
    requires size { length bytes.now ≤ record_most }
    ensures { DidMake buffer.old put (fitting (length buffer.old - put) (memory address bytes.now)) result buffer.new }
{
    behind(frames::append_memory(buffer, put, address, bytes), put)
}

fn record_variable(buffer: &mut [u8], put: usize, number: u32, value: u64) -> Result<usize, Reason>
    requires { put ≤ length buffer.old }
    ensures { DidMake buffer.old put (fitting (length buffer.old - put) (variable number value)) result buffer.new }
{
    behind(frames::append_variable(buffer, put, number, value), put)
}

// ---- ranges: the size is compared as it is, and made narrower only where it is small
// The `size` bytes at `address`. The bytes from there to the end of the span decide.
fn record_range(
    memory: Memory,
    buffer: &mut [u8],
    put: usize,
    address: u64,
    size: u64,
) -> Result<usize, Reason>
    requires { put ≤ length buffer.old }
    ensures { DidMake buffer.old put (range_made (target_of memory.entry.target) (length buffer.old - put) address size) result buffer.new }
{
    if size == 0 {
        return Ok(put);
    }
    let rest = memory.rest(address);
    if RECORD_MOST < size {
        return Err(Reason::RecordSize);
    }
    if (rest.len() as u64) < size {
        return Err(Reason::RangeNotReadable);
    }
    record_bytes(buffer, put, address, &rest[..size as usize])
}

// The bytes at `address` up to and with the first zero, `size` at most.
fn record_to_zero(
    memory: Memory,
    buffer: &mut [u8],
    put: usize,
    address: u64,
    size: u64,
) -> Result<usize, Reason>
    requires { put ≤ length buffer.old }
    ensures { DidMake buffer.old put (to_zero_made (target_of memory.entry.target) (length buffer.old - put) address size) result buffer.new }
{
    if size == 0 {
        return Ok(put);
    }
    let rest = memory.rest(address);
    let limit = size.min(RECORD_MOST) as usize;
    match memory::find_zero(rest, limit) {
        Search::Found(count) => record_bytes(buffer, put, address, &rest[..count]),
        Search::Reached(count) => {
            if size <= RECORD_MOST {
                return record_bytes(buffer, put, address, &rest[..count]);
            }
            Err(Reason::RecordSize)
        }
        Search::Ended(_) => Err(Reason::RangeNotReadable),
    }
}

// ---- instructions
// trace: the size is on top, the address beneath. The lines that it shares with tracenz stand in both: a function that is
// passed the one that records would need more lines for its contract than it saves.
pub fn do_trace(
    fixed: Fixed,
    cells: &Cells,
    buffer: &mut [u8],
    place: Place,
) -> Result<Place, Reason>
    requires here { Here fixed.code.now cells.now trace 0x0c place.at place.height }
    requires room { place.put ≤ length buffer.old }
    ensures { Did fixed.entry.code.now place (held cells.now place.height) buffer.old (trace_done (target_of fixed.entry.memory.target) (length buffer.old - place.put) (held cells.now place.height)) result cells.now buffer.new }
{
    let size = Stack::below(cells, place.height, 0);
    let address = Stack::below(cells, place.height, 1);
    let put = record_range(fixed.memory, buffer, place.put, address, size)?;
    Ok(operations::next_place(fixed.rows, opcode::TRACE, Place { put, ..place }))
}

// tracenz: as trace, up to a zero byte.
pub fn do_tracenz(
    fixed: Fixed,
    cells: &Cells,
    buffer: &mut [u8],
    place: Place,
) -> Result<Place, Reason>
    requires here { Here fixed.code.now cells.now tracenz 0x2f place.at place.height }
    requires room { place.put ≤ length buffer.old }
    ensures { Did fixed.entry.code.now place (held cells.now place.height) buffer.old (tracenz_done (target_of fixed.entry.memory.target) (length buffer.old - place.put) (held cells.now place.height)) result cells.now buffer.new }
{
    let size = Stack::below(cells, place.height, 0);
    let address = Stack::below(cells, place.height, 1);
    let put = record_to_zero(fixed.memory, buffer, place.put, address, size)?;
    Ok(operations::next_place(fixed.rows, opcode::TRACENZ, Place { put, ..place }))
}

// trace_quick and trace16: the size is the operand; the address stays on top. The next start is computed last: if the
// compiler kept it beside the offset while the record is made, every step of a run would cost two machine instructions
// more. Both rows need and leave one cell. The height is not computed from them: then the compiler would no longer
// place this function inside `step`.
pub fn do_trace_quick(
    fixed: Fixed,
    cells: &Cells,
    buffer: &mut [u8],
    opcode: u8,
    count: usize,
    place: Place,
) -> Result<Place, Reason>
    requires here { Here fixed.code.now cells.now (trace_quick count) opcode place.at place.height }
    requires room { place.put ≤ length buffer.old }
    ensures { Did fixed.entry.code.now place (held cells.now place.height) buffer.old (trace_quick_done (target_of fixed.entry.memory.target) (length buffer.old - place.put) (operand fixed.entry.code.now place.at) (held cells.now place.height)) result cells.now buffer.new }
{
    let size = isa::operand_at(fixed.code, place.at, count);
    let address = Stack::below(cells, place.height, 0);
    let put = record_range(fixed.memory, buffer, place.put, address, size)?;
    let at = operations::next_of(fixed.rows, opcode, place.at);
    Ok(Place { at, put, ..place })
}

// tracev: the value is recorded and pushed.
pub fn do_tracev(
    fixed: Fixed,
    cells: &mut Cells,
    variables: &[u64; sizes::VARIABLE_COUNT],
    buffer: &mut [u8],
    place: Place,
) -> Result<Place, Reason>
    requires here { Here fixed.code.now cells.old tracev 0x2e place.at place.height }
    requires room { place.put ≤ length buffer.old }
    ensures { Did fixed.entry.code.now place (held cells.old place.height) buffer.old (tracev_done variables.now (length buffer.old - place.put) (operand fixed.entry.code.now place.at)) result cells.new buffer.new }
{
    let number = isa::operand_at(fixed.code, place.at, 2);
    let value = variables[number as usize];
    let put = record_variable(buffer, place.put, number as u32, value)?;
    let recorded = Place { put, ..place };
    Ok(operations::put_word(fixed.rows, cells, opcode::TRACEV, value, recorded))
}

// The frame reader: frames from the newest on, the records of one, and the walker over them all.
#![tactic(auto)]

ghost use Rattle.std.specs.Prelude.{◌≡◌, ◌+◌, ◌≤◌, IsSome, length, take, drop};
ghost use Rattle.sizes.specs.Sizes.{buffer_most};
ghost use Rattle.frames.specs.Record.{decode};
ghost use Rattle.frames.specs.Division.{divide as division};
ghost use Rattle.frames.specs.Joining.Answers.{size_of};
ghost use Rattle.reader.specs.Located.{frame_before, located, walked};
ghost use Rattle.reader.specs.Framed.{framed_by};
ghost use Rattle.reader.specs.Read.{reading, counting, record_in};
ghost use Rattle.reader.specs.NextRecord.{next_record};
ghost use Rattle.reader.specs.Answers.{located_of, read_of, counted_of, step_of};
ghost use Rattle.reader.specs.Joining.Splitting.{SplitAs, FoundAt};

use frames::trailer::TRAILER_SIZE;
use frames::{Record, Tag};
use refusals::{Reason, Refusal};

// A frame: its tag, where it starts, and how many bytes its records have.
#[derive(Clone, Copy)]
pub struct Frame {
    pub tag: Tag,
    pub start: usize,
    pub length: usize,
}

// A frame, and how many records it has.
#[derive(Clone, Copy)]
pub struct Counted {
    pub frame: Frame,
    pub records: usize,
}

// A record, with the place of its bytes in the buffer.
#[derive(Clone, Copy)]
pub enum Found {
    Memory {
        address: u64,
        length: usize,
        place: usize,
    },
    Variable {
        number: u64,
        value: u64,
    },
}

// A record that is read, and the tag of its frame.
#[derive(Clone, Copy)]
pub struct ReadRecord {
    pub tag: Tag,
    pub record: Found,
}

// A record, and the place behind it.
#[derive(Clone, Copy)]
pub struct NextRecord {
    pub record: Found,
    pub next: usize,
}

// How many records there are, and the offset of the one that was asked for.
#[derive(Clone, Copy)]
pub struct Split {
    pub count: usize,
    pub found: Option<usize>,
}

// ---- where a frame is
// The frame that ends at `end`.
fn frame_before(buffer: &[u8], end: usize) -> Result<Frame, Refusal>
    requires { end ≤ length buffer.now }
    ensures { located_of result ≡ frame_before buffer.now end }
{
    // One test for a frame that is long enough, and two refusals behind it.
    if end < TRAILER_SIZE {
        if end == 0 {
            return Err(Refusal::at(Reason::NoSuchFrame, 0));
        }
        return Err(Refusal::at(Reason::TrailerBroken, end));
    }
    let closed = end - TRAILER_SIZE;
    let Some(trailer) = frames::trailer::read_trailer(&buffer[closed..end]) else {
        return Err(Refusal::at(Reason::TrailerBroken, end));
    };
    if closed < trailer.length {
        return Err(Refusal::at(Reason::TrailerBroken, end));
    }
    Ok(Frame {
        tag: trailer.tag,
        start: closed - trailer.length,
        length: trailer.length,
    })
}

// The next older frame from a place on: the work of the walker.
pub fn walk(buffer: &[u8], place: usize) -> Result<Frame, Refusal>
    ensures { located_of result ≡ walked buffer.now place }
{
    if frames::is_unfit(buffer, place) {
        return Err(Refusal::at(Reason::BufferBad, 0));
    }
    frame_before(buffer, place)
}

// Frame number `number`, counted from the newest, 0.
pub fn locate(buffer: &[u8], used: usize, number: u64) -> Result<Frame, Refusal>
    ensures { located_of result ≡ located buffer.now used number }
{
    if frames::is_unfit(buffer, used) {
        return Err(Refusal::at(Reason::BufferBad, 0));
    }
    let mut end = used;
    for passed in 0..number {
        end = frame_before(buffer, end)?.start;
    }
    frame_before(buffer, end)
}

// ---- the records of a frame
// The bytes of a frame's records.
fn records_of<'a>(buffer: &'a [u8], frame: Frame) -> &'a [u8]
    requires { frame.start + frame.length ≤ length buffer.now }
    ensures { result.now ≡ take frame.length (drop frame.start buffer.entry.now) }
{
    &buffer[frame.start..frame.start + frame.length]
}

// Divides the bytes of a frame's records, from `start` on, and notes the offset of record number `wanted`. The loop keeps
// what is left and how much was left there: an offset and an Option beside them cost four machine instructions a record.
fn divide(bytes: &[u8], start: usize, wanted: u64) -> Result<Split, Refusal>
    requires { start + length bytes.now ≤ buffer_most }
    ensures { SplitAs start wanted (division bytes.now) result }
{
    // A record tells itself how long it is: so what is left is gone over, and no index.
    let mut rest = bytes;
    let mut count = 0;
    let mut left = 0;
    while 0 < rest.len() {
        let Some(size) = frames::record_size(rest) else {
            let at = bytes.len() - rest.len();
            return Err(Refusal::at(Reason::RecordBroken, start + at));
        };
        if count as u64 == wanted {
            left = rest.len();
        }
        rest = &rest[size..];
        count += 1;
    }
    if wanted < count as u64 {
        let found = Some(bytes.len() - left);
        return Ok(Split { count, found });
    }
    Ok(Split { count, found: None })
}

// The record at the front of these bytes, which stand at `place` in the buffer.
fn found_at(bytes: &[u8], place: usize) -> Found
    requires there { IsSome (size_of (decode bytes.now)) }
    requires within { place + length bytes.now ≤ buffer_most }
    ensures { FoundAt place (decode bytes.now) result }
{
    match frames::read_record(bytes) {
        Record::Memory { address, length } => Found::Memory {
            address,
            length,
            place: place + frames::MEMORY_HEADER,
        },
        Record::Variable { number, value } => Found::Variable { number, value },
    }
}

// Record number `index` of the frame whose records these bytes are.
fn read_in(bytes: &[u8], frame: Frame, index: u64) -> Result<ReadRecord, Refusal>
    requires { frame.start + length bytes.now ≤ buffer_most }
    ensures { read_of result ≡ record_in index (framed_by frame.tag frame.start (division bytes.now)) }
{
    let split = divide(bytes, frame.start, index)?;
    let Some(offset) = split.found else {
        return Err(Refusal::at(Reason::NoSuchRecord, frame.start));
    };
    let record = found_at(&bytes[offset..], frame.start + offset);
    Ok(ReadRecord {
        tag: frame.tag,
        record,
    })
}

// Reads record number `index` of frame number `number`.
pub fn read(buffer: &[u8], used: usize, number: u64, index: u64) -> Result<ReadRecord, Refusal>
    ensures { read_of result ≡ reading buffer.now used number index }
{
    let frame = locate(buffer, used, number)?;
    read_in(records_of(buffer, frame), frame, index)
}

// How many records frame number `number` has.
pub fn count_records(buffer: &[u8], used: usize, number: u64) -> Result<Counted, Refusal>
    ensures { counted_of result ≡ counting buffer.now used number }
{
    let frame = locate(buffer, used, number)?;
    let split = divide(records_of(buffer, frame), frame.start, 0)?;
    Ok(Counted {
        frame,
        records: split.count,
    })
}

// ---- the record walker
// The record at `place` of the frame whose records end at `end`, and the next place.
pub fn next_record(buffer: &[u8], end: usize, place: usize) -> Result<NextRecord, Refusal>
    ensures { step_of result ≡ next_record buffer.now end place }
{
    if frames::is_unfit(buffer, end) {
        return Err(Refusal::at(Reason::BufferBad, 0));
    }
    if end <= place {
        return Err(Refusal::at(Reason::NoSuchRecord, place));
    }
    let bytes = &buffer[place..end];
    let Some(size) = frames::record_size(bytes) else {
        return Err(Refusal::at(Reason::RecordBroken, place));
    };
    let record = found_at(bytes, place);
    Ok(NextRecord {
        record,
        next: place + size,
    })
}

// Where frames end, and where the records of a frame begin: frames and records are gone over by place, each once.
ghost use Rattle.std.specs.Prelude.{◌≡◌, ◌<◌, ◌≤◌, List, length, drop};
ghost use Rattle.refusals.specs.Refusal.{Refusal};
ghost use Rattle.frames.specs.Record.{Record};
ghost use Rattle.reader.specs.Located.{located};
ghost use Rattle.reader.specs.Read.{counting};
ghost use Rattle.reader.specs.NextRecord.{next_record, RecordsFrom};
ghost use Rattle.command_frames.specs.Places.{start_in, end_in, behind_in};

// Where frame `number` ends; where there is none, the place at which the walk to it is refused.
pub fn end_of(buffer: &[u8], used: usize, number: u64) -> usize
    ensures { located buffer.now result 0 ≡ located buffer.now used number }
{
    let mut place = used;
    for passed in 0..number {
        match reader::walk(buffer, place) {
            Ok(frame) => place = frame.start,
            Err(refusal) => return place,
        }
    }
    place
}

// The part of the buffer that the records of a frame take up.
#[derive(Clone, Copy)]
pub struct Part {
    pub start: usize,
    pub end: usize,
}

// The records of the frame that ends at `end`; none where it is refused.
pub fn records_of(buffer: &[u8], end: usize) -> Part
    ensures { (result.start ≡ start_in (counting buffer.now end 0)) × (result.end ≡ end_in (counting buffer.now end 0)) }
{
    match reader::count_records(buffer, end, 0) {
        Ok(counted) => Part {
            start: counted.frame.start,
            end: counted.frame.start + counted.frame.length,
        },
        Err(refusal) => Part { start: 0, end: 0 },
    }
}

// The place behind the record at `place` of the frame whose records end at `end`.
pub fn place_behind(buffer: &[u8], end: usize, place: usize) -> usize
    requires { place < end }
    ensures { (place < result) × (result ≡ behind_in end (next_record buffer.now end place)) }
{
    match reader::next_record(buffer, end, place) {
        Ok(found) => found.next,
        Err(refusal) => end,
    }
}

// The place of record `index` of those in a part: from there on the walk gives what is left of the records.
pub fn record_place(buffer: &[u8], part: Part, index: u64) -> usize
    ensures { (rs : List Record) (q : Refusal) → RecordsFrom buffer.now part.end part.start rs q → index ≤ length rs
        → RecordsFrom buffer.now part.end result (drop index rs) q }
{
    let mut place = part.start;
    for passed in 0..index {
        if part.end <= place {
            return place;
        }
        place = place_behind(buffer, part.end, place);
    }
    place
}

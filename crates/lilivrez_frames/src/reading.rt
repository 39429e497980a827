// The records of a frame: one of them read, all of them counted, the next one of a walk over them.
ghost use Rattle.std.specs.Prelude.{◌≡◌};
ghost use Rattle.reader.specs.Read.{reading, counting};
ghost use Rattle.reader.specs.NextRecord.{next_record};
ghost use Rattle.lilivrez_frames.specs.FrameValues.{read_number_of, read_values, count_number, count_values, step_number, step_values};

use reader::Found;

// Reads record number `index` of frame number `frame`, both from 0; frame 0 is the newest. Returns the number of the
// refusal, or 0 where the record was read. Stores the offset of the refusal, the tracepoint number, the record's kind
// (1 memory, 2 variable), then the address, the length and the place of its bytes in the buffer, or the variable's
// number and value.
pub fn lilivrez_read(buffer: &[u8], used: usize, frame: u64, index: u64, out: &mut [u64; 6]) -> u32
    ensures number { result ≡ read_number_of (reading buffer.now used frame index) }
    ensures values { out.new ≡ read_values (reading buffer.now used frame index) }
{
    match reader::read(buffer, used, frame, index) {
        Err(refusal) => {
            *out = [refusal.offset as u64, 0, 0, 0, 0, 0];
            u32::from(refusal.reason.number())
        }
        Ok(read) => {
            let tracepoint = u64::from(read.tag.tracepoint);
            *out = match read.record {
                Found::Memory {
                    address,
                    length,
                    place,
                } => [0, tracepoint, 1, address, length as u64, place as u64],
                Found::Variable { number, value } => [0, tracepoint, 2, number, value, 0],
            };
            0
        }
    }
}

// Counts the records of frame number `frame`. Returns the number of the refusal, or 0. Stores the offset of the
// refusal, the tracepoint number, the start of the frame, the length of its records and their number.
pub fn lilivrez_count(buffer: &[u8], used: usize, frame: u64, out: &mut [u64; 5]) -> u32
    ensures number { result ≡ count_number (counting buffer.now used frame) }
    ensures values { out.new ≡ count_values (counting buffer.now used frame) }
{
    match reader::count_records(buffer, used, frame) {
        Err(refusal) => {
            *out = [refusal.offset as u64, 0, 0, 0, 0];
            u32::from(refusal.reason.number())
        }
        Ok(counted) => {
            let tracepoint = u64::from(counted.frame.tag.tracepoint);
            *out = [
                0,
                tracepoint,
                counted.frame.start as u64,
                counted.frame.length as u64,
                counted.records as u64,
            ];
            0
        }
    }
}

// One step over the records that end at `end`: the record at `place`. Returns the number of the refusal, or 0. Stores
// the offset of the refusal, the record's kind (1 memory, 2 variable), then the address, the length and the place of
// its bytes in the buffer, or the variable's number and value, and the next place.
pub fn lilivrez_next_record(buffer: &[u8], end: usize, place: usize, out: &mut [u64; 6]) -> u32
    ensures number { result ≡ step_number (next_record buffer.now end place) }
    ensures values { out.new ≡ step_values place (next_record buffer.now end place) }
{
    match reader::next_record(buffer, end, place) {
        Err(refusal) => {
            *out = [refusal.offset as u64, 0, 0, 0, 0, place as u64];
            u32::from(refusal.reason.number())
        }
        Ok(found) => {
            let next = found.next as u64;
            *out = match found.record {
                Found::Memory {
                    address,
                    length,
                    place,
                } => [0, 1, address, length as u64, place as u64, next],
                Found::Variable { number, value } => [0, 2, number, value, 0, next],
            };
            0
        }
    }
}

// The frame reader as a static library, for C: include/lilivrez_frames.h says how it is called. Each function is that
// of the same name in lilivrez_frames.
#![tactic(auto)]

ghost use Rattle.std.specs.Prelude.{◌≡◌};
ghost use Rattle.version.specs.Version.{version_number};
ghost use Rattle.reader.specs.Located.{located, walked};
ghost use Rattle.lilivrez_frames.specs.FrameValues.{locate_number, locate_values, walk_values, read_number_of, read_values, count_number, count_values, step_number, step_values};
ghost use Rattle.reader.specs.Read.{reading, counting};
ghost use Rattle.reader.specs.NextRecord.{next_record};

// The version of this archive.
#[unsafe(no_mangle)]
pub extern "C" fn lilivrez_frames_version() -> u32
    ensures { result ≡ version_number }
{
    lilivrez_frames::lilivrez_frames_version()
}

// Finds frame number `frame` and looks at none of its records. Returns the number of the refusal, or 0. Stores the
// offset of the refusal, the tracepoint number, the start of the frame and the length of its records.
#[unsafe(no_mangle)]
pub extern "C" fn lilivrez_locate(buffer: &[u8], used: usize, frame: u64, out: &mut [u64; 4]) -> u32
    ensures number { result ≡ locate_number (located buffer.now used frame) }
    ensures values { out.new ≡ locate_values (located buffer.now used frame) }
{
    lilivrez_frames::finding::lilivrez_locate(buffer, used, frame, out)
}

// One step of the walker: the frame that ends at `place`. Returns the number of the refusal, or 0. Stores the offset of
// the refusal, the tracepoint number, the start of the frame, the length of its records and the place after the step.
// That place is a variable of the caller: the walker's struct holds a reference, and only numbers and slices cross the
// boundary.
#[unsafe(no_mangle)]
pub extern "C" fn lilivrez_walk(buffer: &[u8], place: usize, out: &mut [u64; 5]) -> u32
    ensures number { result ≡ locate_number (walked buffer.now place) }
    ensures values { out.new ≡ walk_values place (walked buffer.now place) }
{
    lilivrez_frames::finding::lilivrez_walk(buffer, place, out)
}

// Reads record number `index` of frame number `frame`, both from 0; frame 0 is the newest. Returns the number of the
// refusal, or 0 where the record was read. Stores the offset of the refusal, the tracepoint number, the record's kind
// (1 memory, 2 variable), then the address, the length and the place of its bytes in the buffer, or the variable's
// number and value.
#[unsafe(no_mangle)]
pub extern "C" fn lilivrez_read(
    buffer: &[u8],
    used: usize,
    frame: u64,
    index: u64,
    out: &mut [u64; 6],
) -> u32
    ensures number { result ≡ read_number_of (reading buffer.now used frame index) }
    ensures values { out.new ≡ read_values (reading buffer.now used frame index) }
{
    lilivrez_frames::reading::lilivrez_read(buffer, used, frame, index, out)
}

// Counts the records of frame number `frame`. Returns the number of the refusal, or 0. Stores the offset of the
// refusal, the tracepoint number, the start of the frame, the length of its records and their number.
#[unsafe(no_mangle)]
pub extern "C" fn lilivrez_count(buffer: &[u8], used: usize, frame: u64, out: &mut [u64; 5]) -> u32
    ensures number { result ≡ count_number (counting buffer.now used frame) }
    ensures values { out.new ≡ count_values (counting buffer.now used frame) }
{
    lilivrez_frames::reading::lilivrez_count(buffer, used, frame, out)
}

// One step over the records that end at `end`: the record at `place`. Returns the number of the refusal, or 0. Stores
// the offset of the refusal, the record's kind (1 memory, 2 variable), then the address, the length and the place of
// its bytes in the buffer, or the variable's number and value, and the next place.
#[unsafe(no_mangle)]
pub extern "C" fn lilivrez_next_record(
    buffer: &[u8],
    end: usize,
    place: usize,
    out: &mut [u64; 6],
) -> u32
    ensures number { result ≡ step_number (next_record buffer.now end place) }
    ensures values { out.new ≡ step_values place (next_record buffer.now end place) }
{
    lilivrez_frames::reading::lilivrez_next_record(buffer, end, place, out)
}

// Where a frame is: by its number, or as the next one of a walk.
ghost use Rattle.std.specs.Prelude.{◌≡◌};
ghost use Rattle.reader.specs.Located.{located, walked};
ghost use Rattle.lilivrez_frames.specs.FrameValues.{locate_number, locate_values, walk_values};

// Finds frame number `frame` and looks at none of its records. Returns the number of the refusal, or 0. Stores the
// offset of the refusal, the tracepoint number, the start of the frame and the length of its records.
pub fn lilivrez_locate(buffer: &[u8], used: usize, frame: u64, out: &mut [u64; 4]) -> u32
    ensures number { result ≡ locate_number (located buffer.now used frame) }
    ensures values { out.new ≡ locate_values (located buffer.now used frame) }
{
    match reader::locate(buffer, used, frame) {
        Err(refusal) => {
            *out = [refusal.offset as u64, 0, 0, 0];
            u32::from(refusal.reason.number())
        }
        Ok(found) => {
            let tracepoint = u64::from(found.tag.tracepoint);
            *out = [0, tracepoint, found.start as u64, found.length as u64];
            0
        }
    }
}

// One step of the walker: the frame that ends at `place`. Returns the number of the refusal, or 0. Stores the offset of
// the refusal, the tracepoint number, the start of the frame, the length of its records and the place after the step.
// That place is a variable of the caller: the walker's struct holds a reference, and only numbers and slices cross the
// boundary.
pub fn lilivrez_walk(buffer: &[u8], place: usize, out: &mut [u64; 5]) -> u32
    ensures number { result ≡ locate_number (walked buffer.now place) }
    ensures values { out.new ≡ walk_values place (walked buffer.now place) }
{
    match reader::walk(buffer, place) {
        Err(refusal) => {
            *out = [refusal.offset as u64, 0, 0, 0, place as u64];
            u32::from(refusal.reason.number())
        }
        Ok(found) => {
            let tracepoint = u64::from(found.tag.tracepoint);
            let start = found.start as u64;
            *out = [0, tracepoint, start, found.length as u64, start];
            0
        }
    }
}

// lilivrez frames FILE --gdb OUT: the frames as a trace file for GDB's `target tfile`, written piece by piece.
ghost use Rattle.std.specs.Prelude.{◌≤◌};

use crate::places::{Part, place_behind, records_of};
use crate::show::frame_refusal;
use console_output::{Console, print_answer, print_answer_aside, print_write_failure};
use files::Draft;
use phrases::numbers::append_count;
use reader::Found;
use refusals::Reason;
use std::io::{Error, Write};
use text_buffer::TextBuffer;

// ---- where the frames end
// Puts into the table where each frame ends, from the newest on, and where the first that is refused would end. The
// answer is how many are not refused. There are at most 8,192 frames, since a trailer has 8 bytes.
fn find_ends(buffer: &[u8], ends: &mut [usize; 8193]) -> usize
    ensures { result ≤ 8192 }
{
    ends[0] = buffer.len();
    for n in 0..8192 {
        match reader::count_records(buffer, ends[n], 0) {
            Ok(counted) => ends[n + 1] = counted.frame.start,
            Err(refusal) => return n,
        }
    }
    8192
}

// The frames of a trace buffer: where each of them ends, from the newest on.
#[derive(Clone, Copy)]
struct Frames<'a> {
    buffer: &'a [u8],
    ends: &'a [usize],
}

// ---- the pieces of the file
fn write_start(draft: &mut Draft, frames: u64) -> Result<(), Error> {
    let mut piece = [0u8; 160];
    let mut text = TextBuffer::new(&mut piece);
    tracefile::head::append_start(&mut text, frames);
    draft.write_all(text.written())
}

fn write_variable(draft: &mut Draft, number: u64) -> Result<(), Error> {
    let mut piece = [0u8; 160];
    let mut text = TextBuffer::new(&mut piece);
    tracefile::head::append_variable(&mut text, number);
    draft.write_all(text.written())
}

fn write_target(draft: &mut Draft) -> Result<(), Error> {
    let mut piece = [0u8; 160];
    let mut text = TextBuffer::new(&mut piece);
    tracefile::head::append_target(&mut text);
    draft.write_all(text.written())
}

fn write_head(draft: &mut Draft, frames: u64) -> Result<(), Error> {
    write_start(draft, frames)?;
    for number in 0..sizes::VARIABLE_COUNT as u64 {
        write_variable(draft, number)?;
    }
    write_target(draft)
}

fn write_opening(draft: &mut Draft, buffer: &[u8], end: usize) -> Result<(), Error> {
    let mut piece = [0u8; 160];
    let mut text = TextBuffer::new(&mut piece);
    tracefile::body::append_opening(&mut text, buffer, end);
    draft.write_all(text.written())
}

// A record has fewer bytes than the trace buffer that it is read from, so that it fits the piece.
fn write_record(
    draft: &mut Draft,
    piece: &mut [u8],
    buffer: &[u8],
    end: usize,
    place: usize,
) -> Result<(), Error> {
    let mut text = TextBuffer::new(piece);
    tracefile::body::append_record(&mut text, buffer, end, place);
    draft.write_all(text.written())
}

fn write_records(
    draft: &mut Draft,
    piece: &mut [u8],
    buffer: &[u8],
    part: Part,
) -> Result<(), Error> {
    // A place is counted by hand, here and below: a record tells only where the next one is.
    let mut place = part.start;
    while place < part.end {
        write_record(draft, piece, buffer, part.end, place)?;
        place = place_behind(buffer, part.end, place);
    }
    Ok(())
}

// The oldest frame comes first.
fn write_frames(draft: &mut Draft, piece: &mut [u8], frames: Frames) -> Result<(), Error> {
    for end in frames.ends.iter().rev() {
        write_opening(draft, frames.buffer, *end)?;
        write_records(draft, piece, frames.buffer, records_of(frames.buffer, *end))?;
    }
    Ok(())
}

fn write_file(draft: &mut Draft, frames: Frames) -> Result<(), Error> {
    write_head(draft, frames.ends.len() as u64)?;
    let mut piece = io::large_buffer();
    write_frames(draft, &mut piece, frames)?;
    draft.write_all(b"\x00\x00")
}

// ---- what is said of it
// How much GDB cannot show as it was recorded: frames of tracepoint 0 and of one above 32767, and records that end at
// the last address.
#[derive(Clone, Copy)]
struct Lost {
    zero: u64,
    large: u64,
    last: u64,
}

impl Lost {
    // With a frame of this tracepoint, so many of whose records end at the last address.
    fn add(&mut self, tracepoint: u16, last: u64) {
        self.zero = self.zero.wrapping_add(u64::from(tracepoint == 0));
        self.large = self.large.wrapping_add(u64::from(32767 < tracepoint));
        self.last = self.last.wrapping_add(last);
    }
}

fn ends_last(buffer: &[u8], end: usize, place: usize) -> bool {
    match reader::next_record(buffer, end, place) {
        Ok(found) => match found.record {
            Found::Memory {
                address,
                length,
                place,
            } => u64::MAX - address < length as u64,
            Found::Variable { number, value } => false,
        },
        Err(refusal) => false,
    }
}

fn count_last(buffer: &[u8], part: Part) -> u64 {
    let mut count: u64 = 0;
    let mut place = part.start;
    while place < part.end {
        count = count.wrapping_add(u64::from(ends_last(buffer, part.end, place)));
        place = place_behind(buffer, part.end, place);
    }
    count
}

fn count_lost(frames: Frames) -> Lost {
    let mut lost = Lost {
        zero: 0,
        large: 0,
        last: 0,
    };
    for end in frames.ends {
        if let Ok(frame) = reader::walk(frames.buffer, *end) {
            let last = count_last(frames.buffer, records_of(frames.buffer, *end));
            lost.add(frame.tag.tracepoint, last);
        }
    }
    lost
}

// A trace file that is written: what it is called, and where what is said of it is printed.
#[derive(Clone, Copy)]
struct TraceFile<'a> {
    console: &'a Console,
    name: &'a [u8],
}

impl<'a> TraceFile<'a> {
    // Where the file goes to standard output, on standard error.
    fn say(self, text: &[u8]) {
        if files::is_standard(self.name) {
            print_answer_aside(self.console, text);
            return;
        }
        print_answer(self.console, text);
    }

    fn say_frame(self, buffer: &[u8], end: usize, number: u64) {
        let mut line = [0u8; 160];
        let mut text = TextBuffer::new(&mut line);
        frame_lines::lines::append_frame(&mut text, buffer, end, number);
        self.say(text.written());
    }

    fn say_completed(self, frames: u64) {
        let mut line = [0u8; 160];
        let mut text = TextBuffer::new(&mut line);
        frame_lines::lines::append_completed(&mut text, frames, b"frame", 0);
        self.say(text.written());
    }

    fn note_file(self) {
        self.say(
            b"note: start GDB without a program: it shows a program's read-only bytes as if they were recorded
note: find frames by tfind N alone, 0 is the oldest: tfind tracepoint, pc, range, outside go wrong
note: after tfind none GDB still shows the variables of the last frame
note: variables have numbers one higher in the file: $v0 is number 1, $v63 number 64
note: of a variable that a frame recorded twice GDB shows the last value
note: the file names the architecture i386:x86-64: none is recorded
",
        );
    }

    fn note(self, count: u64, word: &[u8], what: &[u8]) {
        if count == 0 {
            return;
        }
        let mut line = [0u8; 120];
        let mut text = TextBuffer::new(&mut line);
        text.append(b"note: ");
        append_count(&mut text, count, word);
        text.append(what);
        self.say(text.written());
    }

    fn note_lost(self, lost: Lost) {
        self.note(
            lost.zero,
            b"frame",
            b" of tracepoint 0: GDB ends its list of frames before one\n",
        );
        self.note(
            lost.large,
            b"frame",
            b" of a tracepoint from 32768 on: GDB shows its number as negative\n",
        );
        self.note(
            lost.last,
            b"record",
            b" up to the last address: GDB cannot show such a range\n",
        );
    }

    // ---- the command
    // Writes the file that is begun.
    fn write_draft(self, draft: Draft, frames: Frames) -> Result<(), Error> {
        let mut draft = draft;
        match write_file(&mut draft, frames) {
            Ok(()) => files::finish(&self.console.rt, draft),
            Err(error) => {
                files::abandon(&self.console.rt, draft);
                Err(error)
            }
        }
    }

    fn write(self, frames: Frames) -> Result<(), Error> {
        let mut path = io::buffer();
        let draft = files::begin(&self.console.rt, self.name, &mut path)?;
        self.write_draft(draft, frames)
    }
}

// Nothing is written where a frame is refused: the refusal is the answer.
pub fn export(console: &Console, name: &[u8], buffer: &[u8]) {
    let mut table = [0usize; 8193];
    let count = find_ends(buffer, &mut table);
    let file = TraceFile { console, name };
    if !matches!(
        frame_refusal(buffer, table[count]),
        Err(Reason::NoSuchFrame)
    ) {
        file.say_frame(buffer, table[count], count as u64);
        return;
    }
    let frames = Frames {
        buffer,
        ends: &table[..count],
    };
    if let Err(error) = file.write(frames) {
        print_write_failure(console, name, error);
        return;
    }
    file.note_file();
    file.note_lost(count_lost(frames));
    file.say_completed(count as u64);
}

// A trace buffer, shown: a record, a frame, or all frames from the newest on.
ghost use Rattle.std.specs.Prelude.{◌≡◌};
ghost use Rattle.refusals.specs.Numbers.{number_or_0};
ghost use Rattle.reader.specs.Read.{counting};
ghost use Rattle.command_frames.specs.Refusals.{refusal_in, broken_in};

use crate::places::{Part, end_of, place_behind, record_place, records_of};
use console_output::{Console, print, print_answer};
use refusals::{Reason, Refusal};
use text_buffer::TextBuffer;

// The refusal of the frame that ends at `end`, if it is refused.
pub fn frame_refusal(buffer: &[u8], end: usize) -> Result<(), Reason>
    ensures { number_or_0 result ≡ refusal_in (counting buffer.now end 0) }
{
    match reader::count_records(buffer, end, 0) {
        Ok(counted) => Ok(()),
        Err(refusal) => Err(refusal.reason),
    }
}

// Whether the frame is refused for its records.
fn is_broken(buffer: &[u8], end: usize) -> bool
    ensures { result ≡ broken_in (counting buffer.now end 0) }
{
    match frame_refusal(buffer, end) {
        Ok(()) => false,
        // By their numbers, as `broken_in` has it: a pattern would ask for a law of each of the other reasons.
        Err(reason) => reason.number() == Reason::RecordBroken.number(),
    }
}

fn print_completed(console: &Console, number: u64, word: &[u8], refused: u64) {
    let mut line = [0u8; 160];
    let mut text = TextBuffer::new(&mut line);
    frame_lines::lines::append_completed(&mut text, number, word, refused);
    print_answer(console, text.written());
}

fn print_no_record(console: &Console, refusal: Refusal, number: u64, index: u64) {
    let mut line = [0u8; 160];
    let mut text = TextBuffer::new(&mut line);
    frame_lines::lines::append_no_record(&mut text, refusal, number, index);
    print_answer(console, text.written());
}

// A trace buffer that is shown.
#[derive(Clone, Copy)]
pub struct Shown<'a> {
    pub console: &'a Console,
    pub buffer: &'a [u8],
}

impl<'a> Shown<'a> {
    // ---- records
    // Prints the line of the bytes from `offset` on; false where there is none.
    fn print_dump_line(self, end: usize, place: usize, offset: usize) -> bool {
        let mut line = [0u8; 160];
        let mut text = TextBuffer::new(&mut line);
        frame_lines::dump::append_dump(&mut text, self.buffer, end, place, offset);
        print(self.console, text.written());
        text.end != 0
    }

    fn print_dump(self, end: usize, place: usize) {
        for offset in (0..sizes::BUFFER_MOST).step_by(16) {
            if !self.print_dump_line(end, place, offset) {
                return;
            }
        }
    }

    // The record at `place` of the frame whose records end at `end`, with its number.
    fn print_record(self, end: usize, place: usize, index: u64) {
        let mut line = [0u8; 160];
        let mut text = TextBuffer::new(&mut line);
        frame_lines::lines::append_record(&mut text, self.buffer, end, place, index);
        print(self.console, text.written());
        self.print_dump(end, place);
    }

    fn print_records(self, part: Part) {
        // The index goes along with the place, which moves by a record: no range has both.
        let mut place = part.start;
        let mut index: u64 = 0;
        while place < part.end {
            self.print_record(part.end, place, index);
            place = place_behind(self.buffer, part.end, place);
            index = index.wrapping_add(1);
        }
    }

    // ---- frames
    fn print_frame_line(self, end: usize, number: u64) {
        let mut line = [0u8; 160];
        let mut text = TextBuffer::new(&mut line);
        frame_lines::lines::append_frame(&mut text, self.buffer, end, number);
        print_answer(self.console, text.written());
    }

    // The frame that ends at `end`, and its records; or why it is refused.
    fn print_frame(self, end: usize, number: u64) {
        self.print_frame_line(end, number);
        self.print_records(records_of(self.buffer, end));
    }

    // The walk has come to its end at `place`, for this reason. A broken trailer ends the list too, since nothing older
    // can be found behind it.
    fn print_end(self, place: usize, number: u64, refused: u64, reason: Reason) {
        match reason {
            Reason::NoSuchFrame => print_completed(self.console, number, b"frame", refused),
            _ => self.print_frame_line(place, number),
        }
    }

    pub fn print_frames(self) {
        // The number goes along with the end, which moves by a frame: no range has both.
        let mut place = self.buffer.len();
        let mut number: u64 = 0;
        let mut refused: u64 = 0;
        loop {
            match reader::walk(self.buffer, place) {
                Ok(frame) => {
                    self.print_frame(place, number);
                    refused = refused.wrapping_add(u64::from(is_broken(self.buffer, place)));
                    number = number.wrapping_add(1);
                    place = frame.start;
                }
                Err(refusal) => {
                    self.print_end(place, number, refused, refusal.reason);
                    return;
                }
            }
        }
    }

    // ---- one frame, one record, by number
    pub fn print_one_frame(self, number: u64) {
        let end = end_of(self.buffer, self.buffer.len(), number);
        self.print_frame(end, number);
        if frame_refusal(self.buffer, end).is_ok() {
            print_completed(self.console, 1, b"frame", 0);
        }
    }

    pub fn print_one_record(self, number: u64, index: u64) {
        let end = end_of(self.buffer, self.buffer.len(), number);
        if let Err(refusal) = reader::read(self.buffer, end, 0, index) {
            print_no_record(self.console, refusal, number, index);
            return;
        }
        let part = records_of(self.buffer, end);
        self.print_record(part.end, record_place(self.buffer, part, index), index);
        print_completed(self.console, 1, b"record", 0);
    }
}

// The frame that ends at `end` in a trace buffer, and its records; or why it is refused.
pub fn print_frame(console: &Console, buffer: &[u8], end: usize, number: u64) {
    Shown { console, buffer }.print_frame(end, number);
}

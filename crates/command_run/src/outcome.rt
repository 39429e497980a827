// What came of a run, and of lines that replace or discard, printed.
use command_frames::show::print_frame;
use console_output::{Console, print, print_answer};
use frame_lines::lines::append_completed;
use refusals::Refusal;
use run_lines::notes::{append_discarded, append_replaced};
use run_lines::{append_buffer, append_change, append_outcome};
use runner::Completed;
use scenario_setting::SpanSetting;
use text_buffer::TextBuffer;

// How many runs there were, and how many of them were refused.
#[derive(Clone, Copy)]
pub struct Tally {
    pub runs: u64,
    pub refused: u64,
}

impl Tally {
    pub fn count(&mut self, is_refused: bool) {
        self.runs = self.runs.wrapping_add(1);
        if is_refused {
            self.refused = self.refused.wrapping_add(1);
        }
    }
}

pub fn print_outcome(console: &Console, code: &[u8], outcome: Result<Completed, Refusal>) {
    let mut lines = [0u8; 200];
    let mut text = TextBuffer::new(&mut lines);
    append_outcome(&mut text, code, outcome);
    print_answer(console, text.written());
}

fn print_change(console: &Console, number: usize, before: u64, after: u64) {
    let mut lines = [0u8; 160];
    let mut text = TextBuffer::new(&mut lines);
    append_change(&mut text, number, before, after);
    print(console, text.written());
}

fn print_changes(
    console: &Console,
    before: &[u64; sizes::VARIABLE_COUNT],
    after: &[u64; sizes::VARIABLE_COUNT],
) {
    for (number, (old, new)) in before.iter().zip(after).enumerate() {
        if old != new {
            print_change(console, number, *old, *new);
        }
    }
}

pub fn print_buffer(console: &Console, used: usize, size: usize) {
    let mut line = [0u8; 80];
    let mut text = TextBuffer::new(&mut line);
    append_buffer(&mut text, used, size);
    print(console, text.written());
}

// What a completed run has left: variables that changed, the frame, the used length.
pub fn print_run(
    console: &Console,
    before: &[u64; sizes::VARIABLE_COUNT],
    after: &[u64; sizes::VARIABLE_COUNT],
    buffer: &[u8],
    used: usize,
) {
    print_changes(console, before, after);
    print_frame(console, buffer, used, 0);
    print_buffer(console, used, buffer.len());
}

// A span that was set before and had bytes.
pub fn print_replaced(console: &Console, number: u64, word: &[u8], span: SpanSetting) {
    if span.len == 0 {
        return;
    }
    let mut line = [0u8; 120];
    let mut text = TextBuffer::new(&mut line);
    append_replaced(&mut text, number, word, span.len, span.first);
    print(console, text.written());
}

// A trace buffer that was in use.
pub fn print_discarded(console: &Console, number: u64, word: &[u8], used: usize) {
    if used == 0 {
        return;
    }
    let mut line = [0u8; 120];
    let mut text = TextBuffer::new(&mut line);
    append_discarded(&mut text, number, word, used);
    print(console, text.written());
}

// The last line, of a scenario that no wrong line has ended: how many runs there were, and how many were refused.
pub fn print_completed(console: &Console, tally: Tally) {
    let mut line = [0u8; 120];
    let mut text = TextBuffer::new(&mut line);
    append_completed(&mut text, tally.runs, b"run", tally.refused);
    print(console, text.written());
}

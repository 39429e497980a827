// What a line of a scenario says is done.
use crate::asked::asks_steps;
use crate::files_read::{FilesRead, ReadBy};
use crate::outcome::{
    Tally, print_buffer, print_discarded, print_outcome, print_replaced, print_run,
};
use crate::sources::{Source, take_file, take_hex};
use crate::wrong::{ScenarioLine, Stopped};
use command_steps::print_steps;
use console_output::Console;
use files::{identity, is_standard, save};
use line_words::Place;
use runner::Completed;
use scenario::{Item, Keyword};
use scenario_run::{inputs_of, run_with};
use scenario_setting::{
    Setting, first_of, store, with_default_allowance, with_number, with_span, with_used,
};
use span_room::{last_bytes, move_to_end};
use text_buffer::TextBuffer;

// What the lines so far have set, read and run. The image's bytes are at the start of `spans`, the memory's at its end.
#[derive(Drop)]
pub struct Scenario<'a> {
    pub setting: Setting,
    pub registers: &'a mut [u64],
    pub spans: &'a mut [u8],
    pub variables: &'a mut [u64; sizes::VARIABLE_COUNT],
    pub buffer: &'a mut [u8],
    pub files_read: &'a mut FilesRead,
    pub tally: Tally,
}

fn print_read_by(line: ScenarioLine, column: usize, by: u64) -> Stopped {
    let mut why = [0u8; 80];
    let mut text = TextBuffer::new(&mut why);
    text.append(b"line ");
    text.append_number(by);
    text.append(b" has read this file: save to another name");
    line.print_wrong(column, text.written())
}

// Whether a file may be written: not if this call has read it, by whatever name.
fn may_write(line: ScenarioLine, place: Place, files_read: &FilesRead) -> Result<(), Stopped> {
    let file = line.part(place);
    if is_standard(file) {
        return Err(line.print_wrong(
            place.start,
            b"standard output has the answers: save to a file",
        ));
    }
    match files_read.read_by(identity(&line.console.rt, file)) {
        None => Ok(()),
        Some(ReadBy::Scenario) => Err(line.print_wrong(
            place.start,
            b"this file is the scenario: save to another name",
        )),
        Some(ReadBy::Line(by)) => Err(print_read_by(line, place.start, by)),
    }
}

// The part of the buffer of spans that one of them may take: what the other leaves.
fn room_of(setting: Setting, keyword: Keyword, size: usize) -> (usize, usize) {
    match keyword {
        Keyword::Image => (0, size.wrapping_sub(setting.memory.len)),
        _ => (setting.image.len, size),
    }
}

fn print_span_replaced(line: ScenarioLine, keyword: Keyword, setting: Setting) {
    match keyword {
        Keyword::Image => print_replaced(line.console, line.number, b"image", setting.image),
        _ => print_replaced(line.console, line.number, b"memory", setting.memory),
    }
}

fn allowance_of(setting: Setting) -> u64 {
    setting.allowance.unwrap_or(runner::DEFAULT_ALLOWANCE)
}

// Runs the expression and prints what came of it, and its steps where they are asked for: these on what the run was
// given; what it has written behind the used part is written anew. The answer is what it returns, or nothing where it
// was refused. Registers and spans are only read: they are lent as the others are, since the proof's part of the borrow
// checker knows no loans of both kinds side by side.
fn run_code(
    console: &Console,
    code: &[u8],
    setting: Setting,
    registers: &mut [u64],
    spans: &mut [u8],
    variables: &mut [u64; sizes::VARIABLE_COUNT],
    buffer: &mut [u8],
) -> Result<Option<Completed>, Stopped> {
    let before = *variables;
    let buffer = buffer.get_mut(..setting.buffer.size).ok_or(Stopped)?;
    let memory = last_bytes(spans, setting.memory.len);
    let outcome = run_with(code, setting, registers, spans, memory, variables, buffer);
    print_outcome(console, code, outcome);
    if asks_steps(console) {
        let inputs = inputs_of(code, setting, registers, spans, memory);
        print_steps(console, inputs, &before, buffer, allowance_of(setting));
    }
    match outcome {
        Ok(completed) => print_run(console, &before, variables, buffer, completed.used),
        Err(_) => print_buffer(console, setting.buffer.used, buffer.len()),
    }
    Ok(outcome.ok())
}

// The buffers are never shorter than what is set of them; the tests are for the proof.
impl<'a> Scenario<'a> {
    fn take_span(
        &mut self,
        line: ScenarioLine,
        keyword: Keyword,
        first: u64,
        source: Source,
    ) -> Result<(), Stopped> {
        let setting = self.setting;
        let (from, to) = room_of(setting, keyword, self.spans.len());
        let room = self.spans.get_mut(from..to).ok_or(Stopped)?;
        let n = source.take(line, room, self.files_read)?;
        if keyword == Keyword::Memory {
            move_to_end(self.spans, from, n);
        }
        print_span_replaced(line, keyword, setting);
        self.setting = with_span(setting, keyword, first, n);
        Ok(())
    }

    fn load_buffer(&mut self, line: ScenarioLine, place: Place) -> Result<(), Stopped> {
        let setting = self.setting;
        let room = self.buffer.get_mut(..setting.buffer.size).ok_or(Stopped)?;
        let n = take_file(line, place, room, self.files_read)?;
        print_discarded(line.console, line.number, b"load", setting.buffer.used);
        self.setting = with_used(setting, n);
        Ok(())
    }

    fn save_buffer(&self, line: ScenarioLine, place: Place) -> Result<(), Stopped> {
        may_write(line, place, self.files_read)?;
        let used = first_of(self.buffer, self.setting.buffer.used);
        match save(&line.console.rt, line.part(place), used) {
            Ok(()) => Ok(()),
            Err(error) => Err(line.print_failed(place.start, error)),
        }
    }

    fn run_line(&mut self, line: ScenarioLine, place: Place) -> Result<(), Stopped> {
        let mut code = io::large_buffer();
        let n = take_hex(line, place, &mut code)?;
        let setting = self.setting;
        let completed = run_code(
            line.console,
            first_of(&code, n),
            setting,
            self.registers,
            self.spans,
            self.variables,
            self.buffer,
        )?;
        self.tally.count(completed.is_none());
        if let Some(completed) = completed {
            self.setting = with_used(setting, completed.used);
        }
        Ok(())
    }

    fn set_number(&mut self, line: ScenarioLine, keyword: Keyword, which: u64, value: u64) {
        let setting = self.setting;
        if keyword == Keyword::Buffer {
            print_discarded(line.console, line.number, b"buffer", setting.buffer.used);
        }
        store(keyword, which, value, self.registers, self.variables);
        self.setting = with_number(setting, keyword, which, value);
    }

    fn take_bytes(
        &mut self,
        line: ScenarioLine,
        keyword: Keyword,
        first: u64,
        place: Place,
    ) -> Result<(), Stopped> {
        match keyword {
            Keyword::Run => self.run_line(line, place),
            _ => self.take_span(line, keyword, first, Source::Line(place)),
        }
    }

    fn take_named(
        &mut self,
        line: ScenarioLine,
        keyword: Keyword,
        first: u64,
        place: Place,
    ) -> Result<(), Stopped> {
        match keyword {
            Keyword::Load => self.load_buffer(line, place),
            Keyword::Save => self.save_buffer(line, place),
            _ => self.take_span(line, keyword, first, Source::File(place)),
        }
    }

    pub fn take(&mut self, line: ScenarioLine) -> Result<(), Stopped> {
        let item = match scenario::read_line(line.text) {
            Ok(item) => item,
            Err(error) => return Err(line.print_fault(error)),
        };
        match item {
            Item::Nothing => {}
            Item::DefaultAllowance => self.setting = with_default_allowance(self.setting),
            Item::Set {
                keyword,
                which,
                value,
            } => self.set_number(line, keyword, which, value),
            Item::Bytes {
                keyword,
                first,
                place,
            } => self.take_bytes(line, keyword, first, place)?,
            Item::File {
                keyword,
                first,
                place,
            } => self.take_named(line, keyword, first, place)?,
        }
        Ok(())
    }
}

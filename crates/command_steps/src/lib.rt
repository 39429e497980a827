// The listing of a run: where it stands before each of its steps.
#![tactic(auto)]

use console_output::{Console, is_unread, print};
use isa::Stack;
use machine::Inputs;
use standing::stand;
use step_lines::append_step;
use text_buffer::TextBuffer;

// `stand` ensures that there are so many cells; the test is for the part that is lent.
fn print_line(
    console: &Console,
    step: u64,
    code: &[u8],
    offset: usize,
    cells: &[u64],
    height: usize,
) {
    if height <= cells.len() {
        let mut line = [0u8; 128];
        let mut text = TextBuffer::new(&mut line);
        append_step(&mut text, step, code, offset, &cells[..height]);
        print(console, text.written());
    }
}

// Prints where the run stands after so many steps, and answers whether it still stood. The variables stay as they are:
// the steps are done on a copy. Of the buffer the steps change bytes past the used length alone, and look at none.
fn print_step(
    console: &Console,
    inputs: Inputs,
    variables: &[u64; sizes::VARIABLE_COUNT],
    buffer: &mut [u8],
    step: u64,
) -> bool {
    let mut values = *variables;
    let mut cells = [0u64; Stack::DEPTH];
    match stand(inputs, &mut cells, &mut values, buffer, step) {
        None => false,
        Some(stood) => {
            print_line(console, step, inputs.code, stood.at, &cells, stood.height);
            true
        }
    }
}

// Prints a line for each step of the run, the last of them that at which it ends: an end, or a step that is refused. It
// ends where nobody reads them any more. The buffer stays as it is: all the steps are done on one copy.
pub fn print_steps(
    console: &Console,
    inputs: Inputs,
    variables: &[u64; sizes::VARIABLE_COUNT],
    buffer: &[u8],
    allowance: u64,
) {
    let size = buffer.len();
    if sizes::BUFFER_MOST < size {
        return;
    }
    let mut bytes = [0u8; sizes::BUFFER_MOST];
    bytes[..size].copy_from_slice(buffer);
    for step in 0..allowance {
        if !print_step(console, inputs, variables, &mut bytes[..size], step) || is_unread(console) {
            return;
        }
    }
}

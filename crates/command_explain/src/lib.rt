// The command `explain` of the tool: a refusal's row of the manual.
#![tactic(auto)]

use console_output::{Console, print, print_error, print_error_of};
use line_words::numbers::Base;
use text_buffer::TextBuffer;

// What to do about a refusal, by its number. tests/refusals holds the manual's table to this one.
const ADVICE: [&str; 26] = [
    "", // 0
    "send it whole, or split the collection", // 1
    "the bytes are no agent expression, or are cut or shifted before this offset", // 2
    "floating point and printf are not built: collect the raw memory instead", // 3
    "bytes are missing at the end", // 4
    "use variables 0 to 63", // 5
    "the bytes are damaged", // 6
    "the bytes are damaged; GDB emits forward jumps only", // 7
    "often a tracev in one arm of a condition: it pushes its value", // 8
    "the expression is damaged", // 9
    "the expression is damaged, or nested too deeply", // 10
    "append 27", // 11
    "the unit's description of its memory is wrong", // 12
    "the unit's description of its memory is wrong", // 13
    "lend fewer", // 14
    "the caller's numbers are wrong: nothing was read or written", // 15
    "give the longest walk that the verifier reported, or more", // 16
    "test the divisor in the condition", // 17
    "lend it", // 18
    "nothing was recorded: the address, the size or the span is wrong", // 19
    "collect in parts", // 20
    "read and empty it, or lend a larger one", // 21
    "the buffer was damaged, or the used length is not the last run's", // 22
    "the buffer was damaged, or the used length is not the last run's", // 23
    "the numbers begin at 0, at the newest frame", // 24
    "the numbers begin at 0, at the frame's first record", // 25
];

// refusal N: WORDS
fn print_words(console: &Console, number: u8) {
    let mut line = [0u8; 100];
    let mut text = TextBuffer::new(&mut line);
    text.append(b"refusal ");
    text.append_number(number as u64);
    text.append(b": ");
    phrases::refused::append_refusal(&mut text, number);
    text.append(b"\n");
    print(console, text.written());
}

fn print_advice(console: &Console, advice: &str) {
    let mut line = [0u8; 104];
    let mut text = TextBuffer::new(&mut line);
    text.append(b"  what to do: ");
    text.append(advice.as_bytes());
    text.append(b"\n");
    print(console, text.written());
}

// A refusal has a number from 1 to 25.
fn explain(console: &Console, word: &[u8], number: u64) {
    if number == 0 || 25 < number {
        let why = b"no refusal has this number: they are 1 to 25";
        print_error_of(console, word, why);
        return;
    }
    print_words(console, number as u8);
    print_advice(console, ADVICE[number as usize]);
}

fn explain_word(console: &Console, word: &[u8]) {
    match line_words::numbers::unsigned(word, Base::Decimal) {
        Ok(number) => explain(console, word, number),
        _ => {
            let why = b"not the number of a refusal: they are 1 to 25";
            print_error_of(console, word, why);
        }
    }
}

pub fn run(console: &Console) {
    let count = arguments::count(&console.rt);
    if count < 3 {
        let why = b"N is missing: write lilivrez explain N, with the number of a refusal";
        print_error(console, why);
        return;
    }
    if 3 < count {
        let why = b"more than one word after explain: write lilivrez explain N";
        print_error(console, why);
        return;
    }
    let mut word = io::buffer();
    let n = arguments::get(&console.rt, 2, &mut word);
    explain_word(console, &word[..n]);
}

// lilivrez: the command-line tool. Each refused answer and each error is told on descriptor 3 where the wrapper asks for
// it, and the first word of each answer is fixed.
#![tactic(auto)]

use console_output::{Console, is_unread, print, print_error, print_error_of};
use std::process::ExitCode;

fn print_help(console: &Console) {
    print(
        console,
        b"lilivrez checks and runs GDB agent expressions as the trace agent of a medical imaging unit
does, and shows what they recorded.

usage:
  lilivrez verify [OPTION ..] HEX        check the expression whose bytes are HEX
  lilivrez verify [OPTION ..] -          check expressions from standard input, one a line
  lilivrez verify [OPTION ..] --one -    check one expression over all lines of standard input
  lilivrez verify [OPTION ..] --from-gdb check what GDB printed, from standard input
  lilivrez run [--steps] FILE            run the expressions of the scenario FILE
  lilivrez frames FILE [FRAME [RECORD]]  show the frames of a saved trace buffer
  lilivrez frames FILE --gdb OUT         write them to OUT, as a trace file for GDB
  lilivrez explain N                     what refusal N means, and what to do about it
  lilivrez help                          print this text, as -h and --help do in any place
  lilivrez --version                     print the version

HEX has two hexadecimal digits for each byte, also with 0x in front. Blanks, commas, colons and
braces may stand between bytes, and # begins a comment; on the command line put HEX in quotes.
A hex dump over several lines is several expressions, unless --one is given.
  --list     print the instructions too, as GDB's maint agent does, with the height of the stack
  --collect  the expression is meant to collect: note the registers that are not collected, and
             an expression that collects nothing

",
    );
    print_scenario(console);
    print_end(console);
}

// The form of a scenario.
fn print_scenario(console: &Console) {
    print(
        console,
        b"A scenario has one item a line, and # starts a comment. What is set stays set for later runs.
  image ADDRESS bytes HEX     the program image; or image ADDRESS file NAME
  memory ADDRESS bytes HEX    the working memory; or memory ADDRESS file NAME
  register NUMBER VALUE       lends the registers up to this one; registers COUNT lends so many
  variable NUMBER VALUE       a trace state variable, 0 to 63
  tracepoint NUMBER           0 to 65535
  buffer SIZE                 an empty trace buffer of up to 65536 bytes
  allowance STEPS             for each run; or allowance default
  run HEX                     runs an expression
  load NAME, save NAME        the used part of the trace buffer, from a file or to one
Numbers are decimal, or hexadecimal with 0x in front.

",
    );
}

fn print_end(console: &Console) {
    print(
        console,
        b"A saved trace buffer is a file of its used part. Frames are counted from the newest, 0, and the
records of a frame from its first, 0.

examples:
  lilivrez verify --list '22 05 22 03 02 27'
  gdb -batch -ex 'maint agent-eval -at main, 5+3' PROGRAM | lilivrez verify --from-gdb

The first word of a line tells what it is: accepted, refused or completed is an answer, note is
what a person must know of it. Lines that begin with blanks belong to the line above. What is
wrong with the call itself is told in one line on standard error that begins with error. Where
a FILE is to be named, - is standard input, and for --gdb standard output. Behind -- no word is an
option. Exit status: 0 accepted or completed, 1 something was refused, 2 an error.
",
    );
}

fn is_help_option(word: &[u8]) -> bool {
    matches!(word, b"-h" | b"--help")
}

// Behind -- no word is an option.
fn is_help_at(console: &Console, i: usize) -> bool {
    if arguments::is_operand(&console.rt, i) {
        return false;
    }
    let mut word = [0u8; 8];
    let n = arguments::get(&console.rt, i, &mut word);
    is_help_option(&word[..n])
}

fn print_version(console: &Console) {
    print(console, b"lilivrez ");
    print(console, &version::TEXT);
    print(console, b"\n");
}

// Whether -h or --help stands somewhere behind the command.
fn asks_help(console: &Console) -> bool {
    (2..arguments::count(&console.rt)).any(|i| is_help_at(console, i))
}

fn print_unknown(console: &Console, word: &[u8]) {
    let why = b"unknown command: lilivrez help lists what there is";
    if word.is_empty() {
        print_error(console, why);
    } else {
        print_error_of(console, word, why);
    }
}

fn run_command(console: &Console, word: &[u8]) {
    match word {
        b"--version" => print_version(console),
        b"explain" => command_explain::run(console),
        b"verify" => command_verify::verify::run(console),
        b"run" => command_run::run::run(console),
        b"frames" => command_frames::command::run(console),
        _ => print_unknown(console, word),
    }
}

fn run_word(console: &Console, word: &[u8]) {
    if word == b"help".as_slice() || is_help_option(word) || asks_help(console) {
        print_help(console);
    } else {
        run_command(console, word);
    }
}

// The word is empty where the argument is, and where it is longer than the buffer: both are no command.
fn run(console: &Console) {
    if arguments::count(&console.rt) < 2 {
        print_help(console);
        return;
    }
    let mut word = io::buffer();
    let n = arguments::get(&console.rt, 1, &mut word);
    run_word(console, &word[..n]);
}

// The status where nobody reads what is printed any more: 128 and the number of the signal for that, SIGPIPE.
const UNREAD: u8 = 141;

fn main(rt: HostRuntime) -> ExitCode {
    let console = &Console::new(rt);
    run(console);
    if is_unread(console) {
        return ExitCode::from(UNREAD);
    }
    ExitCode::SUCCESS
}

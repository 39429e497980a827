// What the words behind the command ask for.
ghost use Rattle.std.specs.Prelude.{◌≤◌};

use console_output::Console;

fn is_steps_at(console: &Console, i: usize) -> bool {
    if arguments::is_operand(&console.rt, i) {
        return false;
    }
    let mut word = [0u8; 8];
    let n = arguments::get(&console.rt, i, &mut word);
    matches!(&word[..n], b"--steps")
}

// Whether the steps of each run are to be listed. The word stands before FILE.
pub fn asks_steps(console: &Console) -> bool {
    is_steps_at(console, 2)
}

// The place of FILE among the words.
pub fn file_place(console: &Console) -> usize
    ensures { result ≤ 3 }
{
    if asks_steps(console) {
        return 3;
    }
    2
}

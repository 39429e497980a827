// Standard input, read whole.
ghost use Rattle.std.specs.Prelude.{◌≤◌, length, IfSome};

use console_output::{Console, ErrorPlace, print_error_at, print_failure};
use files::{LoadError, load_rest};

// Puts all of standard input at the start of a buffer, and answers its length; nothing where that fails, which is told,
// of an input that is too long in these words, with a line where one is given.
pub fn load(console: &Console, text: &mut [u8], line: Option<u64>, too_long: &[u8]) -> Option<usize>
    ensures { IfSome result (λ n. n ≤ length text.new) }
{
    match load_rest(&mut console.rt.stdin(), text) {
        Ok(n) => return Some(n),
        Err(LoadError::TooLong) => {
            let place = ErrorPlace {
                name: b"-",
                line,
                column: None,
                word: b"",
            };
            print_error_at(console, place, too_long);
        }
        Err(LoadError::Failed(error)) => print_failure(console, b"-", error),
    }
    None
}

// Words of a line: what stands between its blanks; and the numbers that they spell.
#![tactic(auto)]

ghost use Rattle.std.specs.Prelude.{◌≡◌, ◌≤◌, not, length, drop, take_while};
ghost use Rattle.hexadecimal.specs.Hex.{is_blank};
ghost use Rattle.line_words.specs.Words.{leading, is_in_word, first_word, IsAt, same_bytes};

use hexadecimal::is_blank;

pub mod numbers;

// Where a word of a line is. The two are equal where there is no word.
#[derive(Clone, Copy)]
pub struct Place {
    pub start: usize,
    pub end: usize,
}

// The number of blanks at the start.
fn blanks(text: &[u8]) -> usize
    ensures { result ≡ length (take_while is_blank text.now) }
{
    text.iter().take_while(|c| is_blank(**c)).count()
}

fn before_blank(text: &[u8]) -> usize
    ensures { result ≡ length (take_while (λ c. not (is_blank c)) text.now) }
{
    text.iter().take_while(|c| !is_blank(**c)).count()
}

// The number of characters before the first blank.
pub fn word_length(text: &[u8]) -> usize
    ensures { (result ≡ leading is_in_word text.now) × (result ≤ length text.now) }
{
    before_blank(text)
}

// The first word from column `at` on.
pub fn next_word(line: &[u8], at: usize) -> Place
    requires { at ≤ length line.now }
    ensures { IsAt line.now result (first_word at (drop at line.now)) }
{
    let start = at + blanks(&line[at..]);
    let end = start + word_length(&line[start..]);
    Place { start, end }
}

pub fn is_same(a: &[u8], b: &[u8]) -> bool
    ensures { result ≡ same_bytes a.now b.now }
{
    a == b
}

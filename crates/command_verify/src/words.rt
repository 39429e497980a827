// Places in a text: lines, and the words at fault.
ghost use Rattle.std.specs.Prelude.{◌≤◌, length};

use hexadecimal::is_blank;

// The number of line feeds.
pub fn line_feeds(text: &[u8]) -> usize {
    text.iter().filter(|c| **c == b'\n').count()
}

// Where the line of this number begins, counted from 1; the end of the text where there is none.
pub fn line_start(text: &[u8], number: usize) -> usize
    ensures { result ≤ length text.now }
{
    let mut line = 1;
    for (place, c) in text.iter().enumerate() {
        if number <= line {
            return place;
        }
        if *c == b'\n' {
            line += 1;
        }
    }
    text.len()
}

// Where the word begins that goes on at `at`.
fn word_start(text: &[u8], at: usize) -> usize
    requires { at ≤ length text.now }
    ensures { result ≤ length text.now }
{
    match text[..at].iter().rposition(|c| is_blank(*c)) {
        Some(blank) => blank + 1,
        None => 0,
    }
}

// The word at a place of a text.
pub fn word_at(text: &[u8], at: usize) -> &[u8] {
    if text.len() < at {
        return &[];
    }
    let word = line_words::next_word(text, word_start(text, at));
    &text[word.start..word.end]
}

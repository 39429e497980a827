// The words of the command line, counted from 1: the command, and what follows it. Two words are left out: a first word
// --status, which asks for the status on descriptor 3, and the first --, behind which no word is an option.
#![tactic(auto)]

ghost use Rattle.std.specs.Prelude.{IfSome};
ghost use Rattle.io.specs.Counts.{IsPrefixLen};

use std::env::FillError;
use std::rt::Env;

// How many words the whole command line has, the name of the program among them.
fn count_all(rt: &impl Env) -> usize {
    (0..usize::MAX)
        .find(|&place| matches!(&rt.arg(place, &mut []), Err(FillError::NotPresent)))
        .unwrap_or(usize::MAX)
}

// Puts the word at a place of the whole command line at the start of `word`, and answers its length; nothing where there
// is none, and where it is longer than `word`.
fn word_at(rt: &impl Env, place: usize, word: &mut [u8]) -> Option<usize>
    ensures { IfSome result (λ n. IsPrefixLen n word.new) }
{
    rt.arg(place, word).ok()
}

// Whether the word at a place of the whole command line is this one, of at most 8 characters.
fn is_at(rt: &impl Env, place: usize, expected: &[u8]) -> bool {
    let mut word = [0u8; 8];
    match word_at(rt, place, &mut word) {
        Some(n) => &word[..n] == expected,
        None => false,
    }
}

// Whether the status is asked for on descriptor 3.
pub fn asks_status(rt: &impl Env) -> bool {
    is_at(rt, 1, b"--status")
}

fn is_separator(rt: &impl Env, place: usize) -> bool {
    is_at(rt, place, b"--")
}

// The place of the first --; where there is none, the count of all words.
fn separator(rt: &impl Env) -> usize {
    let count = count_all(rt);
    (1..count)
        .find(|&place| is_separator(rt, place))
        .unwrap_or(count)
}

// The place of the word number i, were there no --.
fn place_of(rt: &impl Env, i: usize) -> usize {
    i.wrapping_add(usize::from(asks_status(rt)))
}

// Whether the word number i stands behind --, so that it is no option.
pub fn is_operand(rt: &impl Env, i: usize) -> bool {
    separator(rt) <= place_of(rt, i)
}

// The number of the last word, and one more.
pub fn count(rt: &impl Env) -> usize {
    let count = count_all(rt);
    let has_separator = separator(rt) < count;
    count
        .saturating_sub(usize::from(has_separator))
        .saturating_sub(usize::from(asks_status(rt)))
}

// Puts the whole word number i at the start of `word` and answers its length; nothing where there is none, and where it is
// longer than `word`.
pub fn whole(rt: &impl Env, i: usize, word: &mut [u8]) -> Option<usize>
    ensures { IfSome result (λ n. IsPrefixLen n word.new) }
{
    let place = place_of(rt, i).wrapping_add(usize::from(is_operand(rt, i)));
    word_at(rt, place, word)
}

// Puts the word number i at the start of `word` and answers its length: 0 where there is none, and where it is longer than
// `word`. The 0 stays: an empty word and none are one to every caller, which compares the word or takes its number.
pub fn get(rt: &impl Env, i: usize, word: &mut [u8]) -> usize
    ensures { IsPrefixLen result word.new }
{
    whole(rt, i, word).unwrap_or(0)
}

// A line of a scenario, read: what is set, loaded or saved, or an expression that is run.
#![tactic(auto)]

ghost use Rattle.std.specs.Prelude.{true, ◌≡◌, ◌≤◌, length, IfOk};
ghost use Rattle.text_buffer.specs.Text.{bytes_of};
ghost use Rattle.scenario.specs.Items.{wrong, opens_comment, columns_before_comment, text_of, keyword_of, limit_of, item_ended, number_from, set_from, pair_from, file_from, source_from, span_from, allowance_from, rest_of_line, item_in, item_of};

use hexadecimal::is_blank;
use line_words::numbers::{NumberError, number_of};
use line_words::{Place, is_same, next_word};

// The words that lines begin with.
#[derive(Clone, Copy, PartialEq, Eq)]
pub enum Keyword {
    Image,
    Memory,
    Register,
    Variable,
    Registers,
    Tracepoint,
    Buffer,
    Allowance,
    Load,
    Save,
    Run,
}

impl Keyword {
    const ALL: [Keyword; 11] = [
        Keyword::Image,
        Keyword::Memory,
        Keyword::Register,
        Keyword::Variable,
        Keyword::Registers,
        Keyword::Tracepoint,
        Keyword::Buffer,
        Keyword::Allowance,
        Keyword::Load,
        Keyword::Save,
        Keyword::Run,
    ];
}

// Why a line is refused.
#[derive(Clone, Copy, PartialEq, Eq)]
pub enum ItemFault {
    UnknownWord,
    MissingWord,
    NotNumber,
    TooLarge,
    LeftOver,
}

// A line is refused, at a column, counted from 0.
#[derive(Clone, Copy, PartialEq, Eq)]
pub struct ItemError {
    pub fault: ItemFault,
    pub column: usize,
}

// What a line says. Columns are counted from 0.
// Bytes: the first address (0 for run), and where the hexadecimal text stands.
// File: the first address (0 for load and save), and where the name stands.
// Set: the number of the register or variable (0 for the other words), and the value.
// The zeros stay: which words have such a number is said by the word itself, and an Option would say it again.
#[derive(Clone, Copy)]
pub enum Item {
    Nothing,
    Bytes {
        keyword: Keyword,
        first: u64,
        place: Place,
    },
    File {
        keyword: Keyword,
        first: u64,
        place: Place,
    },
    Set {
        keyword: Keyword,
        which: u64,
        value: u64,
    },
    DefaultAllowance,
}

// A number of a line, and the column behind it.
#[derive(Clone, Copy)]
struct NumberRead {
    value: u64,
    end: usize,
}

fn wrong<T>(fault: ItemFault, column: usize) -> Result<T, ItemError>
    ensures { result ≡ wrong fault column }
{
    Err(ItemError { fault, column })
}

#[tactic(auto, unfolding(crate::specs::Items::opens_comment))]
fn opens_comment(is_after_blank: bool, c: u8) -> bool
    ensures { result ≡ opens_comment is_after_blank c }
{
    is_after_blank && c == b'#'
}

// How many characters come before the comment.
fn before_comment(line: &[u8]) -> usize
    ensures { (result ≡ columns_before_comment true line.now) × (result ≤ length line.now) }
{
    let mut is_after_blank = true;
    for (n, &c) in line.iter().enumerate() {
        if opens_comment(is_after_blank, c) {
            return n;
        }
        is_after_blank = is_blank(c);
    }
    line.len()
}

// The text of a word that lines begin with.
fn text_of(keyword: Keyword) -> &'static [u8]
    ensures { result.now ≡ bytes_of (text_of keyword) }
{
    match keyword {
        Keyword::Image => b"image",
        Keyword::Memory => b"memory",
        Keyword::Register => b"register",
        Keyword::Variable => b"variable",
        Keyword::Registers => b"registers",
        Keyword::Tracepoint => b"tracepoint",
        Keyword::Buffer => b"buffer",
        Keyword::Allowance => b"allowance",
        Keyword::Load => b"load",
        Keyword::Save => b"save",
        Keyword::Run => b"run",
    }
}

// The word that lines begin with, if this is one.
#[tactic(auto, unfolding(crate::specs::Items::keyword_of))]
fn keyword_of(word: &[u8]) -> Option<Keyword>
    ensures { result ≡ keyword_of word.now }
{
    Keyword::ALL
        .iter()
        .copied()
        .find(|&keyword| is_same(text_of(keyword), word))
}

// The limits of numbers: one register more than may be lent can be asked for, so that 14 can be seen.
const LAST_REGISTER: u64 = sizes::REGISTERS_MOST as u64 - 1;

const LAST_VARIABLE: u64 = sizes::VARIABLE_COUNT as u64 - 1;

const ONE_TOO_MANY: u64 = sizes::REGISTERS_MOST as u64 + 1;

const LAST_TRACEPOINT: u64 = u16::MAX as u64;

const BUFFER_SIZE: u64 = sizes::BUFFER_MOST as u64;

// The greatest number that may follow a first word.
#[tactic(auto, unfolding(crate::specs::Items::limit_of))]
fn limit(keyword: Keyword) -> u64
    ensures { result ≡ limit_of keyword }
{
    match keyword {
        Keyword::Register => LAST_REGISTER,
        Keyword::Variable => LAST_VARIABLE,
        Keyword::Registers => ONE_TOO_MANY,
        Keyword::Tracepoint => LAST_TRACEPOINT,
        Keyword::Buffer => BUFFER_SIZE,
        _ => u64::MAX,
    }
}

// The item, if no word follows from column `at` on.
fn ends(line: &[u8], at: usize, item: Item) -> Result<Item, ItemError>
    requires { at ≤ length line.now }
    ensures { result ≡ item_ended item line.now at }
{
    let word = next_word(line, at);
    if word.start == word.end {
        return Ok(item);
    }
    wrong(ItemFault::LeftOver, word.start)
}

// The first word from column `at` on as a number.
fn number_at(line: &[u8], at: usize, limit: u64) -> Result<NumberRead, ItemError>
    requires { at ≤ length line.now }
    ensures number { result ≡ number_from limit line.now at }
    ensures within { IfOk result (λ read. read.end ≤ length line.now) }
{
    let word = next_word(line, at);
    let start = word.start;
    let end = word.end;
    if start == end {
        return wrong(ItemFault::MissingWord, start);
    }
    match number_of(&line[start..end]) {
        Err(NumberError::Not) => wrong(ItemFault::NotNumber, start),
        Err(NumberError::Large) => wrong(ItemFault::TooLarge, start),
        Ok(value) => {
            if value <= limit {
                return Ok(NumberRead { value, end });
            }
            wrong(ItemFault::TooLarge, start)
        }
    }
}

fn read_value(
    line: &[u8],
    at: usize,
    keyword: Keyword,
    which: u64,
    limit: u64,
) -> Result<Item, ItemError>
    requires { at ≤ length line.now }
    ensures { result ≡ set_from keyword which limit line.now at }
{
    let read = number_at(line, at, limit)?;
    let item = Item::Set {
        keyword,
        which,
        value: read.value,
    };
    ends(line, read.end, item)
}

// A register or a variable, and its value.
fn read_pair(line: &[u8], at: usize, keyword: Keyword) -> Result<Item, ItemError>
    requires { at ≤ length line.now }
    ensures { result ≡ pair_from keyword line.now at }
{
    let read = number_at(line, at, limit(keyword))?;
    read_value(line, read.end, keyword, read.value, u64::MAX)
}

fn read_file(line: &[u8], at: usize, keyword: Keyword, first: u64) -> Result<Item, ItemError>
    requires { at ≤ length line.now }
    ensures { result ≡ file_from keyword first line.now at }
{
    let place = next_word(line, at);
    if place.start == place.end {
        return wrong(ItemFault::MissingWord, place.start);
    }
    let item = Item::File {
        keyword,
        first,
        place,
    };
    ends(line, place.end, item)
}

// The bytes of a span: inline, or those of a file.
fn read_source(line: &[u8], at: usize, keyword: Keyword, first: u64) -> Result<Item, ItemError>
    requires { at ≤ length line.now }
    ensures { result ≡ source_from keyword first line.now at }
{
    let word = next_word(line, at);
    let start = word.start;
    let end = word.end;
    if start == end {
        return wrong(ItemFault::MissingWord, start);
    }
    if is_same(b"bytes", &line[start..end]) {
        let place = Place {
            start: end,
            end: line.len(),
        };
        return Ok(Item::Bytes {
            keyword,
            first,
            place,
        });
    }
    if is_same(b"file", &line[start..end]) {
        return read_file(line, end, keyword, first);
    }
    wrong(ItemFault::UnknownWord, start)
}

fn read_span(line: &[u8], at: usize, keyword: Keyword) -> Result<Item, ItemError>
    requires { at ≤ length line.now }
    ensures { result ≡ span_from keyword line.now at }
{
    let read = number_at(line, at, u64::MAX)?;
    read_source(line, read.end, keyword, read.value)
}

fn read_allowance(line: &[u8], at: usize) -> Result<Item, ItemError>
    requires { at ≤ length line.now }
    ensures { result ≡ allowance_from line.now at }
{
    let word = next_word(line, at);
    let start = word.start;
    let end = word.end;
    if is_same(b"default", &line[start..end]) {
        return ends(line, end, Item::DefaultAllowance);
    }
    read_value(line, at, Keyword::Allowance, 0, u64::MAX)
}

// The line from column `at` on, behind its first word.
#[tactic(auto, unfolding(crate::specs::Items::rest_of_line))]
fn read_rest(line: &[u8], at: usize, keyword: Keyword) -> Result<Item, ItemError>
    requires { at ≤ length line.now }
    ensures { result ≡ rest_of_line keyword line.now at }
{
    match keyword {
        Keyword::Image | Keyword::Memory => read_span(line, at, keyword),
        Keyword::Register | Keyword::Variable => read_pair(line, at, keyword),
        Keyword::Registers | Keyword::Tracepoint | Keyword::Buffer => {
            read_value(line, at, keyword, 0, limit(keyword))
        }
        Keyword::Allowance => read_allowance(line, at),
        Keyword::Load | Keyword::Save => read_file(line, at, keyword, 0),
        Keyword::Run => Ok(Item::Bytes {
            keyword,
            first: 0,
            place: Place {
                start: at,
                end: line.len(),
            },
        }),
    }
}

fn read_item(line: &[u8]) -> Result<Item, ItemError>
    ensures { result ≡ item_in line.now }
{
    let word = next_word(line, 0);
    let start = word.start;
    let end = word.end;
    if start == end {
        return Ok(Item::Nothing);
    }
    match keyword_of(&line[start..end]) {
        Some(keyword) => read_rest(line, end, keyword),
        None => wrong(ItemFault::UnknownWord, start),
    }
}

// What the line says, up to its comment.
pub fn read_line(line: &[u8]) -> Result<Item, ItemError>
    ensures { result ≡ item_of line.now }
{
    read_item(&line[..before_comment(line)])
}

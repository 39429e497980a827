// The text of an answer, appended to a buffer as `text_buffer` does.
ghost use Rattle.io.specs.Counts.{IsPrefixLen};

use memory::Search;
use refusals::Reason;
use text_buffer::TextBuffer;

fn append_digits(text: &mut TextBuffer, number: u64, width: usize)
    ensures { IsPrefixLen text.new.end text.new.bytes.now }
{
    let mut figures = [0u8; 16];
    let k = io::hex(number, width, &mut figures);
    text.append(&figures[..k]);
}

pub fn append_number(text: &mut TextBuffer, number: u64)
    ensures { IsPrefixLen text.new.end text.new.bytes.now }
{
    append_digits(text, number, 1);
}

fn append_pairs(text: &mut TextBuffer, bytes: &[u8])
    ensures { IsPrefixLen text.new.end text.new.bytes.now }
{
    text.append(b"");
    for byte in bytes {
        append_digits(text, u64::from(*byte), 2);
    }
}

pub fn append_bytes(text: &mut TextBuffer, bytes: &[u8])
    ensures { IsPrefixLen text.new.end text.new.bytes.now }
{
    if bytes.is_empty() {
        text.append(b"-");
        return;
    }
    append_pairs(text, bytes);
}

pub fn append_refused(text: &mut TextBuffer, reason: Reason)
    ensures { IsPrefixLen text.new.end text.new.bytes.now }
{
    text.append(b"refused ");
    append_number(text, u64::from(reason.number()));
}

pub fn append_broken(text: &mut TextBuffer)
    ensures { IsPrefixLen text.new.end text.new.bytes.now }
{
    text.append(b"error: not a line of this form");
}

fn append_count(text: &mut TextBuffer, word: &[u8], count: usize)
    ensures { IsPrefixLen text.new.end text.new.bytes.now }
{
    text.append(word);
    append_number(text, count as u64);
}

pub fn append_search(text: &mut TextBuffer, search: Search)
    ensures { IsPrefixLen text.new.end text.new.bytes.now }
{
    match search {
        Search::Found(n) => append_count(text, b"zero ", n),
        Search::Reached(n) => append_count(text, b"size ", n),
        Search::Ended(n) => append_count(text, b"end ", n),
    }
}

fn append_outcome(text: &mut TextBuffer, written: Option<usize>)
    ensures { IsPrefixLen text.new.end text.new.bytes.now }
{
    match written {
        Some(n) => append_number(text, n as u64),
        None => text.append(b"full"),
    }
}

// What a writer has answered, and the whole part that it was lent.
pub fn append_written(text: &mut TextBuffer, written: Option<usize>, part: &[u8])
    ensures { IsPrefixLen text.new.end text.new.bytes.now }
{
    append_outcome(text, written);
    text.append(b" ");
    append_bytes(text, part);
}

// Target memory: two spans of lent bytes, what is read there, and the search for a zero byte.
// Sums of addresses could wrap: they are compared by differences, or it is told by the sum that it has wrapped.
#![tactic(auto)]

ghost use Rattle.std.specs.Prelude.{◌≡◌, length, true, IfOk, OnErr, [], ◌≤◌};
ghost use Rattle.refusals.specs.Numbers.{number_or_0};
ghost use Rattle.memory.specs.Spans.{span_of, target_of, ends_past, share_address, spans_refusal};
ghost use Rattle.memory.specs.Joining.Holding.{cleared, held_at};
ghost use Rattle.memory.specs.Fetch.{fetch_refusal, fetched, rest_of};
ghost use Rattle.memory.specs.FirstZero.{sought_of, searched, NoZero};
ghost use Rattle.memory.specs.Joining.Searching.{Passed};

use refusals::Reason;

// A span: its first address, and the bytes that are lent.
#[derive(Clone, Copy)]
pub struct Span<'a> {
    pub first: u64,
    pub bytes: &'a [u8],
}

// Target memory: the program image and the working memory.
#[derive(Clone, Copy)]
pub struct Target<'a> {
    pub image: Span<'a>,
    pub work: Span<'a>,
}

// Target memory that is refused with neither 12 nor 13.
#[derive(Clone, Copy)]
pub struct Memory<'a> {
    pub target: Target<'a>,
    pub ghost allowed: { spans_refusal (target_of target) ≡ 0 },
}

// ---- refusals 12 and 13
// Where a span may be refused, `place` is cleared before the last test: the store keeps that test in a branch of its
// own, which other spans do not enter. Without a store the compiler makes both tests of every span, 12 machine
// instructions more a fetch, and a byte of the image costs more than C's.

// Whether first address + length exceeds 2^64: the sum modulo 2^64 is then below the first address, and not 0.
fn ends_past(span: Span, place: &mut [u64; 2]) -> bool
    ensures { (result ≡ ends_past (span_of span.entry)) × (result ≡ true → place.new ≡ cleared) }
{
    let end = span.first.wrapping_add(span.bytes.len() as u64);
    if end < span.first {
        *place = [0, 0];
        return end != 0;
    }
    false
}

// Whether two spans share an address.
fn share_address(low: Span, high: Span, place: &mut [u64; 2]) -> bool
    ensures { (result ≡ share_address (span_of low.entry) (span_of high.entry)) × (result ≡ true → place.new ≡ cleared) }
{
    if low.first <= high.first {
        if high.first - low.first < low.bytes.len() as u64 {
            *place = [0, 0];
            return 0 < high.bytes.len();
        }
        return false;
    }
    if low.first - high.first < high.bytes.len() as u64 {
        *place = [0, 0];
        return 0 < low.bytes.len();
    }
    false
}

// 12 or 13, or the memory that may be read. A refusal clears `place`.
pub fn spans_refusal_clearing<'a>(
    target: Target<'a>,
    place: &mut [u64; 2],
) -> Result<Memory<'a>, Reason>
    ensures number { number_or_0 result ≡ spans_refusal (target_of target.entry) }
    ensures same { IfOk result (λ memory. memory.target ≡ target.entry) }
    ensures clears { OnErr result (place.new ≡ cleared) }
{
    if ends_past(target.image, place) {
        return Err(Reason::SpanPastEnd);
    }
    if ends_past(target.work, place) {
        return Err(Reason::SpanPastEnd);
    }
    if share_address(target.image, target.work, place) {
        return Err(Reason::SpansShare);
    }
    Ok(Memory { target })
}

// The same for a caller that has nothing to clear.
pub fn spans_refusal<'a>(target: Target<'a>) -> Result<Memory<'a>, Reason>
    ensures number { number_or_0 result ≡ spans_refusal (target_of target.entry) }
    ensures same { IfOk result (λ memory. memory.target ≡ target.entry) }
{
    spans_refusal_clearing(target, &mut [0, 0])
}

// ---- what is read

// The span that holds an address, with the index of its byte there.
#[derive(Clone, Copy)]
pub enum Held {
    InImage(u64),
    InWork(u64),
}

impl<'a> Memory<'a> {
    // Where an address is. No span ends past 2^64, so that one comparison, of the difference modulo 2^64, tells whether
    // a span holds it. No two hold it, so that the order is free: stack and heap are asked for most, and come first.
    pub fn holder(self, address: u64) -> Option<Held>
        ensures { result ≡ held_at (target_of self.entry.target) address }
    {
        let in_work = address.wrapping_sub(self.target.work.first);
        if in_work < self.target.work.bytes.len() as u64 {
            return Some(Held::InWork(in_work));
        }
        let in_image = address.wrapping_sub(self.target.image.first);
        if in_image < self.target.image.bytes.len() as u64 {
            return Some(Held::InImage(in_image));
        }
        None
    }

    // The bytes from `address` to the end of the span that holds it; none where no span does: all that `fetch` and the
    // instructions lend.
    pub fn rest(self, address: u64) -> &'a [u8]
        ensures { result.now ≡ rest_of (target_of self.entry.target) address }
    {
        match self.holder(address) {
            Some(Held::InImage(at)) => &self.target.image.bytes[at as usize..],
            Some(Held::InWork(at)) => &self.target.work.bytes[at as usize..],
            None => &self.target.image.bytes[..0],
        }
    }
}

// The `size` bytes at `address`, in whichever span holds them all, or why they are not lent: 12, 13 or 19.
pub fn lend<'a>(target: Target<'a>, address: u64, size: u64) -> Result<&'a [u8], Reason>
    ensures number { number_or_0 result ≡ fetch_refusal (target_of target.entry) address size }
    ensures part { IfOk result (λ part. part.now ≡ fetched (target_of target.entry) address size) }
    ensures none { OnErr result (fetched (target_of target.entry) address size ≡ []) }
{
    let memory = spans_refusal(target)?;
    let rest = memory.rest(address);
    if (rest.len() as u64) < size {
        return Err(Reason::RangeNotReadable);
    }
    Ok(&rest[..size as usize])
}

// Why `fetch` lends nothing: 12, 13 or 19.
pub fn fetch_refusal(target: Target, address: u64, size: u64) -> Result<(), Reason>
    ensures { number_or_0 result ≡ fetch_refusal (target_of target.entry) address size }
{
    lend(target, address, size)?;
    Ok(())
}

// The `size` bytes at `address`, in whichever span holds them all; an empty part where that is refused.
pub fn fetch<'a>(target: Target<'a>, address: u64, size: u64) -> &'a [u8]
    ensures { result.now ≡ fetched (target_of target.entry) address size }
{
    match lend(target, address, size) {
        Ok(part) => part,
        Err(_) => &target.image.bytes[..0],
    }
}

// ---- the search for a zero byte

// How a search for the first zero byte went.
#[derive(Clone, Copy)]
pub enum Search {
    Found(usize), // a zero: so many bytes up to and with it
    Reached(usize), // the size, and no zero
    Ended(usize), // so many bytes, fewer than the size, and no zero
}

// Passes blocks of 8 among the bytes, up to one that has a zero, and answers how many bytes it has passed. The compiler
// compares the bytes of a block all at once, since their number is a literal.
fn before_zero(bytes: &[u8]) -> usize
    ensures { Passed bytes.now result }
{
    let blocks = bytes.len() / 8;
    for block in 0..blocks {
        let passed = 8 * block;
        if bytes[passed..passed + 8].contains(&0) {
            return passed;
        }
    }
    8 * blocks
}

// Searches the first `size` bytes: by blocks as far as no zero comes, then byte by byte. Both ends are one limit.
pub fn find_zero(bytes: &[u8], size: usize) -> Search
    ensures { sought_of result ≡ searched size bytes.now }
{
    let limit = size.min(bytes.len());
    for at in before_zero(&bytes[..limit])..limit {
        if bytes[at] == 0 {
            return Search::Found(at + 1);
        }
    }
    if limit == size {
        return Search::Reached(limit);
    }
    Search::Ended(limit)
}

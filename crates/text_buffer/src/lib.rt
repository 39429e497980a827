// A text that grows in a buffer that the caller lends, cut where the buffer ends.
#![tactic(auto)]

ghost use Rattle.std.specs.Prelude.{ℕ, ◌≡◌, ◌≤◌, take, length};
ghost use Rattle.io.specs.Counts.{IsPrefixLen};
ghost use Rattle.io.specs.Digits.{last_digits, IsDigitCount};
ghost use Rattle.text_buffer.specs.Text.{Appends};

pub mod rows;

// The buffer, and where the text so far ends. A text that is said to end behind the buffer ends with it once something
// is appended.
#[derive(Drop)]
pub struct TextBuffer<'a> {
    pub bytes: &'a mut [u8],
    pub end: usize,
}

impl<'a> TextBuffer<'a> {
    // No text yet.
    pub fn new(bytes: &'a mut [u8]) -> TextBuffer<'a>
        ensures { (result.bytes ≡ bytes.entry) × (result.end ≡ 0) }
    {
        TextBuffer { bytes, end: 0 }
    }

    // The text so far.
    pub fn written(&self) -> &[u8]
        ensures { result.now ≡ take self.now.end self.now.bytes.now }
    {
        &self.bytes[..self.end.min(self.bytes.len())]
    }

    // Appends bytes.
    pub fn append(&mut self, bytes: &[u8])
        ensures count { IsPrefixLen self.new.end self.new.bytes.now }
        ensures text { Appends self.old.bytes.now self.old.end bytes.now self.new.bytes.now self.new.end }
        ensures lent { self.new.bytes.ghost_name ≡ self.old.bytes.ghost_name }
    {
        self.end = append(self.bytes, self.end, bytes);
    }

    // Appends a number in decimal, with no zeros in front.
    pub fn append_number(&mut self, number: u64)
        ensures count { IsPrefixLen self.new.end self.new.bytes.now }
        ensures text { (k : ℕ) × IsDigitCount 10 1 number k × Appends self.old.bytes.now self.old.end (last_digits 10 k number) self.new.bytes.now self.new.end }
        ensures lent { self.new.bytes.ghost_name ≡ self.old.bytes.ghost_name }
    {
        let mut figures = [0u8; 20];
        let count = io::decimal(number, &mut figures);
        self.append(&figures[..count]);
    }
}

// The same as `append`, for pieces of one to three bytes, as most are: the library's copy is a call, which costs more.
// The test in the loop keeps the compiler from making a call of the loop.
fn append_each(out: &mut [u8], at: usize, bytes: &[u8]) -> usize
    requires { at ≤ length out.old }
    ensures { Appends out.old at bytes.now out.new result }
{
    let mut end = at;
    for i in 0..bytes.len() {
        if out.len() <= end {
            return end;
        }
        out[end] = bytes[i];
        end += 1;
    }
    end
}

// Appends bytes to the text that ends at `at`, and answers where it ends then.
pub fn append(out: &mut [u8], at: usize, bytes: &[u8]) -> usize
    ensures count { IsPrefixLen result out.new }
    ensures text { Appends out.old at bytes.now out.new result }
{
    if out.len() < at {
        return out.len();
    }
    if bytes.len() < 4 {
        return append_each(out, at, bytes);
    }
    let count = bytes.len().min(out.len() - at);
    out[at..at + count].copy_from_slice(&bytes[..count]);
    at + count
}

pub fn append_number(out: &mut [u8], at: usize, number: u64) -> usize
    ensures count { IsPrefixLen result out.new }
    ensures text { (k : ℕ) × IsDigitCount 10 1 number k × Appends out.old at (last_digits 10 k number) out.new result }
{
    let mut figures = [0u8; 20];
    let k = io::decimal(number, &mut figures);
    append(out, at, &figures[..k])
}

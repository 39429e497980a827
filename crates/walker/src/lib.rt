// The walker over the frames of a trace buffer, from the newest on. It keeps the lent buffer and its own place in it.
#![tactic(auto)]

ghost use Rattle.std.specs.Prelude.{◌≡◌};
ghost use Rattle.reader.specs.Located.{walked, place_after};
ghost use Rattle.reader.specs.Answers.{located_of};

use reader::Frame;
use refusals::Refusal;

#[derive(Drop)]
pub struct Walker<'a> {
    pub buffer: &'a [u8],
    pub place: usize,
}

impl<'a> Walker<'a> {
    // A walker before the newest frame, where `used` bytes of the buffer are used.
    pub fn new(buffer: &'a [u8], used: usize) -> Walker<'a>
        ensures { (result.buffer ≡ buffer.entry) × (result.place ≡ used) }
    {
        Walker {
            buffer,
            place: used,
        }
    }

    // One step: the next older frame, at whose start the walker then is; or a refusal, with the place kept.
    pub fn step(&mut self) -> Result<Frame, Refusal>
        ensures { (located_of result ≡ walked self.old.buffer.now self.old.place)
            × (self.new.buffer ≡ self.old.buffer)
            × (self.new.place ≡ place_after self.old.place (walked self.old.buffer.now self.old.place)) }
    {
        let frame = reader::walk(self.buffer, self.place)?;
        self.place = frame.start;
        Ok(frame)
    }
}

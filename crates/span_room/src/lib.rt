// Two spans in one lent buffer, so that either may be long: the image's bytes at its start, the working memory's at its
// end.
#![tactic(auto)]

ghost use Rattle.std.specs.Prelude.{◌≡◌};
ghost use Rattle.span_room.specs.Room.{last_of, moved_to_end};

// The last bytes, so many; all where there are fewer.
pub fn last_bytes<'a>(bytes: &'a [u8], count: usize) -> &'a [u8]
    ensures { result.now ≡ last_of count bytes.now }
{
    &bytes[bytes.len().saturating_sub(count)..]
}

// Moves `count` bytes that begin at `from` to the buffer's end. Bytes that do not lie in the buffer are not moved.
pub fn move_to_end(bytes: &mut [u8], from: usize, count: usize)
    ensures { bytes.new ≡ moved_to_end bytes.old from count }
{
    if bytes.len() < count {
        return;
    }
    let to = bytes.len() - count;
    if from <= to {
        bytes.copy_within(from..from + count, to);
    }
}

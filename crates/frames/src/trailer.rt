// The trailer that closes a frame. Its bytes and the fields of a tag are known here alone.
ghost use Rattle.std.specs.Prelude.{◌≡◌};
ghost use Rattle.frames.specs.Trailer.{tag_of, decode_trailer};
ghost use Rattle.frames.specs.Joining.Answers.{ending_of, Leaves};
ghost use Rattle.frames.specs.Writing.{written_trailer};

use crate::Tag;

pub const TRAILER_SIZE: usize = 8;

// What a trailer says: the frame's tag, and the length of its records.
#[derive(Clone, Copy)]
pub struct Trailer {
    pub tag: Tag,
    pub length: usize,
}

// The tag of a frame of this tracepoint.
pub fn tag_of(tracepoint: u16) -> Tag
    ensures { result ≡ tag_of tracepoint }
{
    Tag { tracepoint }
}

// Receives the free part of the buffer, as the writers of records do.
pub fn write_trailer(free: &mut [u8], tag: Tag, length: u32) -> Option<usize>
    ensures { Leaves (written_trailer free.old 0 tag length) result free.new }
{
    if free.len() < TRAILER_SIZE {
        return None;
    }
    free[0] = 0x46;
    free[1] = 0x00;
    encoding::put_little(free, 2, u64::from(tag.tracepoint), 2);
    encoding::put_little(free, 4, u64::from(length), 4);
    Some(TRAILER_SIZE)
}

pub fn append_trailer(buffer: &mut [u8], used: usize, tag: Tag, length: u32) -> Option<usize>
    ensures { Leaves (written_trailer buffer.old used tag length) result buffer.new }
{
    if buffer.len() < used {
        return None;
    }
    write_trailer(&mut buffer[used..], tag, length)
}

// The trailer that these bytes are.
pub fn read_trailer(bytes: &[u8]) -> Option<Trailer>
    ensures { result ≡ ending_of (decode_trailer bytes.now) }
{
    if bytes.len() != TRAILER_SIZE {
        return None;
    }
    if bytes[0] != 0x46 {
        return None;
    }
    if bytes[1] != 0x00 {
        return None;
    }
    let tracepoint = encoding::little_endian(&bytes[2..4]) as u16;
    let length = encoding::little_endian(&bytes[4..8]) as usize;
    let tag = Tag { tracepoint };
    Some(Trailer { tag, length })
}

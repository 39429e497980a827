// Frames: what a run records, and how it is written into the trace buffer.
#![tactic(auto)]

pub mod trailer;

ghost use Rattle.std.specs.Prelude.{◌≡◌, IsSome};
ghost use Rattle.frames.specs.Record.{memory, variable, decode_memory, decode_variable, decode};
ghost use Rattle.frames.specs.Writing.{written_record};
ghost use Rattle.frames.specs.Joining.Answers.{Leaves, size_of, Tells};
ghost use Rattle.frames.specs.Buffer.{unfit};

// 15: the buffer is too large, or more is used than it has.
pub fn is_unfit(buffer: &[u8], used: usize) -> bool
    ensures { result ≡ unfit buffer.now used }
{
    sizes::BUFFER_MOST < buffer.len() || buffer.len() < used
}

// The bytes of a memory record before those recorded.
pub const MEMORY_HEADER: usize = 11;

const VARIABLE_SIZE: usize = 13;

// A writer receives the free part of the buffer. It writes at its front, whole or not at all, and says how many bytes
// it has written, or none for want of room. Those of memory records are placed inside their callers: an answer through
// memory costs a run 5 machine instructions more a record.
#[inline(always)]
pub fn write_memory(free: &mut [u8], address: u64, bytes: &[u8]) -> Option<usize>
    ensures { Leaves (written_record free.old 0 (memory address bytes.now)) result free.new }
{
    let count = bytes.len();
    if sizes::RECORD_MOST < count {
        return None;
    }
    if free.len() < MEMORY_HEADER + count {
        return None;
    }
    free[0] = 0x4d;
    encoding::put_little(free, 1, address, 8);
    encoding::put_little(free, 9, count as u64, 2);
    encoding::put_bytes(free, MEMORY_HEADER, bytes);
    Some(MEMORY_HEADER + count)
}

pub fn write_variable(free: &mut [u8], number: u32, value: u64) -> Option<usize>
    ensures { Leaves (written_record free.old 0 (variable number value)) result free.new }
{
    if free.len() < VARIABLE_SIZE {
        return None;
    }
    free[0] = 0x56;
    encoding::put_little(free, 1, u64::from(number), 4);
    encoding::put_little(free, 5, value, 8);
    Some(VARIABLE_SIZE)
}

// The same for a whole buffer of which `used` bytes are taken: its free part is lent to the writer.
#[inline(always)]
pub fn append_memory(buffer: &mut [u8], used: usize, address: u64, bytes: &[u8]) -> Option<usize>
    ensures { Leaves (written_record buffer.old used (memory address bytes.now)) result buffer.new }
{
    if buffer.len() < used {
        return None;
    }
    write_memory(&mut buffer[used..], address, bytes)
}

pub fn append_variable(buffer: &mut [u8], used: usize, number: u32, value: u64) -> Option<usize>
    ensures { Leaves (written_record buffer.old used (variable number value)) result buffer.new }
{
    if buffer.len() < used {
        return None;
    }
    write_variable(&mut buffer[used..], number, value)
}

// What is told of a record. The bytes of a memory record stand behind its header.
#[derive(Clone, Copy)]
pub enum Record {
    Memory { address: u64, length: usize },
    Variable { number: u64, value: u64 },
}

// What a trailer says of its frame.
#[derive(Clone, Copy)]
pub struct Tag {
    pub tracepoint: u16,
}

fn memory_size(bytes: &[u8]) -> Option<usize>
    ensures { result ≡ size_of (decode_memory bytes.now) }
{
    if bytes.len() < MEMORY_HEADER {
        return None;
    }
    let count = encoding::little_endian(&bytes[9..11]) as usize;
    if count == 0 {
        return None;
    }
    let size = MEMORY_HEADER + count;
    if bytes.len() < size {
        return None;
    }
    Some(size)
}

fn variable_size(bytes: &[u8]) -> Option<usize>
    ensures { result ≡ size_of (decode_variable bytes.now) }
{
    if bytes.len() < VARIABLE_SIZE {
        return None;
    }
    let number = encoding::little_endian(&bytes[1..5]);
    if number >= sizes::VARIABLE_COUNT as u64 {
        return None;
    }
    Some(VARIABLE_SIZE)
}

// The number of bytes of the record at the front, where there is one.
pub fn record_size(bytes: &[u8]) -> Option<usize>
    ensures { result ≡ size_of (decode bytes.now) }
{
    if bytes.is_empty() {
        return None;
    }
    match bytes[0] {
        0x56 => variable_size(bytes),
        0x4d => memory_size(bytes),
        _ => None,
    }
}

// The record at the front, where there is one: nothing that `record_size` has tested is tested again. A number below 64
// is its first byte.
pub fn read_record(bytes: &[u8]) -> Record
    requires { IsSome (size_of (decode bytes.now)) }
    ensures { Tells result (decode bytes.now) }
{
    if bytes[0] == 0x4d {
        let address = encoding::little_endian(&bytes[1..9]);
        let length = encoding::little_endian(&bytes[9..11]) as usize;
        return Record::Memory { address, length };
    }
    let number = u64::from(bytes[1]);
    let value = encoding::little_endian(&bytes[5..13]);
    Record::Variable { number, value }
}

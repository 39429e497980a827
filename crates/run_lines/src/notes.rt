// What a line of a scenario replaces or discards.
ghost use Rattle.std.specs.Prelude.{◌≡◌};
ghost use Rattle.io.specs.Counts.{IsPrefixLen};
ghost use Rattle.text_buffer.specs.Text.{Appends};
ghost use Rattle.run_lines.specs.Notes.{note_at, replaced_text, discarded_text};

use phrases::numbers::{append_address, append_count};
use text_buffer::TextBuffer;

fn append_note_at(text: &mut TextBuffer, line: u64, word: &[u8])
    ensures count { IsPrefixLen text.new.end text.new.bytes.now }
    ensures text { Appends text.old.bytes.now text.old.end (note_at line word.now) text.new.bytes.now text.new.end }
    ensures lent { text.new.bytes.ghost_name ≡ text.old.bytes.ghost_name }
{
    text.append(b"note: line ");
    text.append_number(line);
    text.append(b": ");
    text.append(word);
    text.append(b": ");
}

// Appends that a span was set before: `note: line 7: memory: 16 bytes at 0000000000001000 replaced`.
pub fn append_replaced(text: &mut TextBuffer, line: u64, word: &[u8], len: usize, first: u64)
    ensures count { IsPrefixLen text.new.end text.new.bytes.now }
    ensures text { Appends text.old.bytes.now text.old.end (replaced_text line word.now len first) text.new.bytes.now text.new.end }
    ensures lent { text.new.bytes.ghost_name ≡ text.old.bytes.ghost_name }
{
    append_note_at(text, line, word);
    append_count(text, len as u64, b"byte");
    text.append(b" at ");
    append_address(text, first);
    text.append(b" replaced\n");
}

// Appends that the trace buffer was in use: `note: line 9: buffer: 42 recorded bytes discarded`.
pub fn append_discarded(text: &mut TextBuffer, line: u64, word: &[u8], used: usize)
    ensures count { IsPrefixLen text.new.end text.new.bytes.now }
    ensures text { Appends text.old.bytes.now text.old.end (discarded_text line word.now used) text.new.bytes.now text.new.end }
    ensures lent { text.new.bytes.ghost_name ≡ text.old.bytes.ghost_name }
{
    append_note_at(text, line, word);
    append_count(text, used as u64, b"recorded byte");
    text.append(b" discarded\n");
}

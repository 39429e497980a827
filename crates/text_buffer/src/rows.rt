// A row of a table of texts: the text, and spaces behind it.
ghost use Rattle.std.specs.Prelude.{◌≡◌, ◌≤◌, length, take};
ghost use Rattle.io.specs.Counts.{IsPrefixLen};
ghost use Rattle.text_buffer.specs.Rows.{trimmed};
ghost use Rattle.text_buffer.specs.Text.{Appends};

use crate::TextBuffer;

// How long a row is without the spaces at its end.
pub fn row_length(row: &[u8]) -> usize
    ensures { (result ≡ trimmed row.now) × (result ≤ length row.now) }
{
    for n in (0..row.len()).rev() {
        if row[n] != b' ' {
            return n + 1;
        }
    }
    0
}

// Appends a row's text.
pub fn append_row(text: &mut TextBuffer, row: &[u8])
    ensures count { IsPrefixLen text.new.end text.new.bytes.now }
    ensures text { Appends text.old.bytes.now text.old.end (take (trimmed row.now) row.now) text.new.bytes.now text.new.end }
    ensures lent { text.new.bytes.ghost_name ≡ text.old.bytes.ghost_name }
{
    text.append(&row[..row_length(row)]);
}

// A line with a call: its first character is its kind, and its fields are counted from there, as field 0.
ghost use Rattle.std.specs.Prelude.{◌≤◌, length};

use crate::fields::{Field, bytes_at, has_fields, number_at};

// What is called. `main` says what each has for fields.
#[derive(Clone, Copy)]
pub enum Kind {
    Word,
    Fetch,
    Rest,
    Zero,
    Memory,
    Variable,
    Trailer,
    Division,
    Read,
    Count,
    Locate,
    Step,
}

impl Kind {
    fn of(c: u8) -> Option<Kind> {
        match c {
            b'w' => Some(Kind::Word),
            b'f' => Some(Kind::Fetch),
            b'r' => Some(Kind::Rest),
            b'z' => Some(Kind::Zero),
            b'm' => Some(Kind::Memory),
            b'v' => Some(Kind::Variable),
            b't' => Some(Kind::Trailer),
            b'd' => Some(Kind::Division),
            b'g' => Some(Kind::Read),
            b'c' => Some(Kind::Count),
            b'l' => Some(Kind::Locate),
            b's' => Some(Kind::Step),
            _ => None,
        }
    }

    // Whether a text is the fields of a call of this kind.
    fn has(self, text: &[u8]) -> bool {
        match self {
            Kind::Word => has_fields(text, &[Field::Eight, Field::Eight, Field::Eight]),
            Kind::Fetch => has_fields(
                text,
                &[
                    Field::Eight,
                    Field::Bytes,
                    Field::Eight,
                    Field::Bytes,
                    Field::Eight,
                    Field::Eight,
                ],
            ),
            Kind::Rest => has_fields(
                text,
                &[
                    Field::Eight,
                    Field::Bytes,
                    Field::Eight,
                    Field::Bytes,
                    Field::Eight,
                ],
            ),
            Kind::Zero => has_fields(text, &[Field::Bytes, Field::Eight]),
            Kind::Memory => has_fields(text, &[Field::Eight, Field::Eight, Field::Bytes]),
            Kind::Variable => has_fields(text, &[Field::Eight, Field::Four, Field::Eight]),
            Kind::Trailer => has_fields(text, &[Field::Eight, Field::Two, Field::Four]),
            Kind::Division => has_fields(text, &[Field::Bytes]),
            Kind::Read => has_fields(
                text,
                &[
                    Field::Bytes,
                    Field::Eight,
                    Field::Eight,
                    Field::Eight,
                    Field::Eight,
                ],
            ),
            Kind::Count | Kind::Locate => {
                has_fields(
                    text,
                    &[Field::Bytes, Field::Eight, Field::Eight, Field::Eight],
                )
            }
            Kind::Step => has_fields(text, &[Field::Bytes, Field::Eight, Field::Eight]),
        }
    }
}

#[derive(Clone, Copy)]
pub struct Call<'a> {
    pub kind: Kind,
    line: &'a [u8],
}

impl<'a> Call<'a> {
    // The call of a line, if it has this form.
    pub fn of(line: &'a [u8]) -> Option<Call<'a>> {
        if line.is_empty() {
            return None;
        }
        let kind = Kind::of(line[0])?;
        if kind.has(&line[1..]) {
            Some(Call { kind, line })
        } else {
            None
        }
    }

    pub fn number(self, place: usize) -> u64 {
        number_at(self.line, place)
    }

    // Puts the bytes of a field at the start of `out`, and answers how many there are.
    pub fn bytes(self, place: usize, out: &mut [u8]) -> usize
        ensures { result ≤ length out.new }
    {
        bytes_at(self.line, place, out)
    }
}

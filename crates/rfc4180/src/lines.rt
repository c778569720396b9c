// One line at a place of a text.
ghost use Rattle.std.specs.Prelude.{◌≡◌, ◌+◌, ◌-◌, ◌≤◌, min, length, drop, slice_set};
ghost use Rattle.rfc4180.specs.Laws.{Agrees, Resumes};
ghost use Rattle.rfc4180.specs.Reading.{read_line, behind_line_end};
ghost use Rattle.rfc4180.specs.Told.{delimiter, fields_of, line_answer, Filled};

use crate::faults::{Location, TextFault};
use crate::fields::{Field, field_at};

// A line that was read: how many fields it has, and the first byte behind its end.
#[derive(Clone, Copy, Debug, PartialEq, Eq)]
pub struct Line {
    pub fields: usize,
    pub next: usize,
}

// What stands behind a field.
#[derive(Clone, Copy, Debug, PartialEq, Eq)]
enum Delimiter {
    Comma,
    LineEnd,
    TextEnd,
}

fn delimiter_at(text: &[u8], at: usize) -> Delimiter
    requires { at ≤ length text.now }
    ensures { result ≡ delimiter (drop at text.now) }
{
    match &text[at..] {
        [] => Delimiter::TextEnd,
        [b',', ..] => Delimiter::Comma,
        [_, ..] => Delimiter::LineEnd,
    }
}

// Puts `field` at the place `i`, if there is one. By index, since a write by `get_mut` tells a proof no element.
fn put<'a>(fields: &mut [Field<'a>], i: usize, field: Field<'a>)
    ensures { fields.new ≡ slice_set fields.old i field.entry }
{
    if i < fields.len() {
        fields[i] = field;
    }
}

// The first byte behind the first CR LF at or after `from`, or the text's end.
pub fn next_line(text: &[u8], from: usize) -> usize
    ensures value { result ≡ length text.now - length (behind_line_end (drop from text.now)) }
    ensures first { Resumes (drop from text.now) (drop result text.now) }
{
    let mut rest = &text[from.min(text.len())..];
    loop {
        rest = match rest {
            [b'\r', b'\n', tail @ ..] => return text.len() - tail.len(),
            [_, tail @ ..] => tail,
            [] => return text.len(),
        };
    }
}

// Reads the line of `text` that begins at the byte `place`, under the number `number`, and puts its fields into
// `fields`, as far as these reach: all are read, whether or not there is room for them.
pub fn read_line<'a>(
    text: &'a [u8],
    place: usize,
    number: usize,
    fields: &mut [Field<'a>],
) -> Result<Line, TextFault>
    ensures agrees { Agrees (drop place text.now) }
    ensures answer { result ≡ line_answer number place (length text.now) (read_line (drop place text.now)) }
    ensures fields { Filled (fields_of (read_line (drop place text.now))) fields.old fields.new }
{
    let mut at = Location {
        line: number,
        column: 1,
        byte: place.min(text.len()),
    };
    loop {
        let field = field_at(text, at)?;
        put(fields, at.column - 1, field);
        let end = at.byte + field.size();
        match delimiter_at(text, end) {
            Delimiter::Comma => at = at.behind_comma(end),
            Delimiter::LineEnd => return Ok(Line {
                fields: at.column,
                next: end + 2,
            }),
            Delimiter::TextEnd => return Ok(Line {
                fields: at.column,
                next: end,
            }),
        }
    }
}

// One field at the front of a text.
ghost use Rattle.std.specs.Prelude.{◌≡◌, ◌+◌, ◌^◌, ◌<◌, ◌≤◌, length, drop};
ghost use Rattle.rfc4180.specs.Grammar.{plain, inside, quoted, written};
ghost use Rattle.rfc4180.specs.Reading.{stops, size, plain_extent, quoted_extent, read_field};
ghost use Rattle.rfc4180.specs.declared.fields.RunFault.TheVariants.{Offends, Runs};
ghost use Rattle.rfc4180.specs.Told.{content, field_text, told_field, field_answer, field_size, run_fault};

use crate::faults::{Location, TextFault};

// A field as it stands in the text: a quoted one without its outer marks, doubled marks still doubled.
#[derive(Clone, Copy, Debug)]
pub enum Field<'a> {
    Plain(&'a [u8]),
    Quoted(&'a [u8]),
}

impl<'a> Field<'a> {
    // The bytes of a plain field, the inside of a quoted one.
    pub fn content(&self) -> &'a [u8]
        ensures { result.now ≡ content self.now }
    {
        match *self {
            Field::Plain(bytes) => bytes,
            Field::Quoted(inside) => inside,
        }
    }

    // How many bytes the field takes in the text, its outer marks included.
    pub fn size(&self) -> usize
        ensures { result ≡ length (written (field_text self.now)) }
    {
        match *self {
            Field::Plain(bytes) => bytes.len(),
            Field::Quoted(inside) => size_with_marks(inside),
        }
    }
}

// A function of its own, since a slice that is a parameter is known to leave room for the marks in a `usize`.
fn size_with_marks(inside: &[u8]) -> usize
    ensures { result ≡ length (written (quoted inside.now)) }
{
    inside.len() + 2
}

// Why the bytes of a field do not end one, and how many of them stand before that shows: an offending byte, or,
// inside quotation marks, the end of the text.
#[derive(Clone, Copy, Debug, PartialEq, Eq)]
pub(crate) enum RunFault {
    Offends(usize),
    Runs(usize),
}

impl RunFault {
    // The fault of the field at `field`, whose bytes begin `marks` bytes behind its first.
    fn in_field(self, field: Location, marks: usize) -> TextFault
        requires { field.byte + (marks + size (Err self)) < 2 ^ 64 }
        ensures { result ≡ run_fault field marks self }
    {
        match self {
            RunFault::Offends(n) => TextFault::NotAllowed {
                at: field.forward(marks + n),
                field: field.byte,
            },
            RunFault::Runs(n) => TextFault::Unclosed {
                at: field.forward(marks + n),
                field: field.byte,
            },
        }
    }
}

fn is_plain(b: u8) -> bool
    ensures { result ≡ plain b }
{
    (32..=126).contains(&b) && b != b'"' && b != b','
}

fn is_inside(b: u8) -> bool
    ensures { result ≡ inside b }
{
    is_plain(b) || matches!(b, b',' | b'\r' | b'\n')
}

// Whether a field may end before `rest`.
fn stops_before(rest: &[u8]) -> bool
    ensures { result ≡ stops rest.now }
{
    matches!(rest, [] | [b',', ..] | [b'\r', b'\n', ..])
}

fn plain_run(text: &[u8]) -> Result<usize, RunFault>
    ensures value { result ≡ plain_extent text.now }
    ensures within { size result ≤ length text.now }
{
    let mut rest = text;
    loop {
        let n = text.len() - rest.len();
        rest = match rest {
            [b, tail @ ..] if is_plain(*b) => tail,
            _ => {
                return if stops_before(rest) {
                    Ok(n)
                } else {
                    Err(RunFault::Offends(n))
                };
            }
        };
    }
}

// Goes on behind an opening mark.
fn quoted_run(text: &[u8]) -> Result<usize, RunFault>
    ensures value { result ≡ quoted_extent text.now }
    ensures within { elim result [ Ok n ↦ n < length text.now | Err e ↦ elim e [ Offends n ↦ n ≤ length text.now | Runs n ↦ n ≡ length text.now ] ] }
{
    let mut rest = text;
    loop {
        let n = text.len() - rest.len();
        rest = match rest {
            [b'"', b'"', tail @ ..] => tail,
            [b'"', behind @ ..] => {
                return if stops_before(behind) {
                    Ok(n)
                } else {
                    Err(RunFault::Offends(n + 1))
                };
            }
            [b, tail @ ..] if is_inside(*b) => tail,
            [_, ..] => return Err(RunFault::Offends(n)),
            [] => return Err(RunFault::Runs(n)),
        };
    }
}

// The field of `text` that begins at `at`.
pub(crate) fn field_at(text: &[u8], at: Location) -> Result<Field<'_>, TextFault>
    requires { at.byte ≤ length text.now }
    ensures told { told_field result ≡ field_answer at (read_field (drop at.byte text.now)) }
    ensures within { at.byte + field_size result ≤ length text.now }
{
    let rest = &text[at.byte..];
    if let [b'"', inside @ ..] = rest {
        let n = quoted_run(inside).map_err(|fault| fault.in_field(at, 1))?;
        Ok(Field::Quoted(&inside[..n]))
    } else {
        let n = plain_run(rest).map_err(|fault| fault.in_field(at, 0))?;
        Ok(Field::Plain(&rest[..n]))
    }
}

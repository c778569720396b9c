// Report lines, one by one.
ghost use Rattle.std.specs.Prelude.{◌≡◌, ◌+◌, ◌<◌, length};
ghost use Rattle.std.specs.Iterator.{at_most};
ghost use Rattle.rfc4180.specs.Reading.{read_line};
ghost use Rattle.rfc4180.specs.Told.{fields_of, line_answer, Filled};
ghost use Rattle.report.specs.Lines.{of_reading};
ghost use Rattle.report.specs.Numbers.{ReadsBack};
ghost use Rattle.report.specs.Readers.{unread, told_next, next, Begun, Behind, Gives, place_behind};

use super::Reader;
use crate::columns::{Report, Row};
use crate::faults::LineFault;
use domain::Width;
use rfc4180::{Field, Line, Location, TextFault};

impl<'a> Reader<'a> {
    // A reader before the first line.
    pub fn begin(text: &'a [u8], width: Width) -> Reader<'a>
        ensures { Begun text.now width result }
    {
        Reader {
            text,
            place: 0,
            lines: 0,
            width,
        }
    }

    // Reads the fields of the next line, and moves on behind it, or behind the damage.
    fn lex(&mut self, fields: &mut [Field<'a>]) -> Result<Line, TextFault>
        requires { self.old.place < length self.old.text.now }
        ensures answer { result ≡ line_answer (self.old.lines + 1) self.old.place (length self.old.text.now) (read_line (unread self.old)) }
        ensures fields { Filled (fields_of (read_line (unread self.old))) fields.old fields.new }
        ensures behind { Behind self.old self.new }
    {
        let read = rfc4180::read_line(self.text, self.place, self.lines + 1, fields);
        self.place = place_behind(self.text, read);
        self.lines += 1;
        read
    }

    // The next line, taken or turned away.
    fn take(&mut self) -> Result<Report, LineFault>
        requires { self.old.place < length self.old.text.now }
        ensures answer { result ≡ of_reading self.old.width.count (self.old.lines + 1) self.old.place (read_line (unread self.old)) }
        ensures behind { Behind self.old self.new }
    {
        let start = Location {
            line: self.lines + 1,
            column: 1,
            byte: self.place,
        };
        let width = self.width.count();
        let wanted = width + 2;
        // As many as a line of six attributes has: nothing is allocated while a line is read.
        let mut fields = [Field::Plain(b""); 8];
        let line = self.lex(&mut fields)?;
        if line.fields != wanted {
            return Err(LineFault::FieldCount(Location {
                column: line.fields.min(wanted) + 1,
                ..start
            }));
        }
        let row = Row {
            fields: &fields[..wanted],
            start,
        };
        row.report(width)
    }

    // What became of the next line, or nothing at the end of the text.
    pub fn next_line(&mut self) -> Option<Result<Report, LineFault>>
        ensures answer { told_next result ≡ next self.old.width.count self.old.lines self.old.place (unread self.old) }
        ensures behind { Behind self.old self.new }
        ensures numbers { ReadsBack }
    {
        if self.place >= self.text.len() {
            return None;
        }
        Some(self.take())
    }
}

// The outcomes of the lines that are left, in their order.
impl<'a> Iterator for Reader<'a> {
    type Item = Result<Report, LineFault>;

    ghost next_gives = { Gives };

    ghost remaining = { λ r. at_most (length (unread r)) };

    fn next(&mut self) -> Option<Result<Report, LineFault>> {
        self.next_line()
    }
}

// Where reading goes on: behind the line that was read, or behind the first line end at or after the faulty field's
// first byte.
fn place_behind(text: &[u8], read: Result<Line, TextFault>) -> usize
    ensures { result ≡ place_behind text.now read }
{
    match read {
        Ok(line) => line.next,
        Err(fault) => rfc4180::next_line(text, fault.field()),
    }
}

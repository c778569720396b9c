// A header: whether its text is one line of the right number of fields, and its copy in a text area.
ghost use Rattle.std.specs.Prelude.{◌≡◌, ℕ, ◌+◌, length, Err, IfOk, IfErr};
ghost use Rattle.rfc4180.specs.Reading.{read_line};
ghost use Rattle.sheet.specs.Calls.{header_answer, room_answer, second_line, area_after};
ghost use Rattle.sheet.specs.Headers.{without_line_end};
ghost use Rattle.sheet.specs.Rows.{bytes_of};
ghost use Rattle.sheet.specs.Sheets.{Headed};

use crate::faults::HeaderFault;
use domain::Width;
use rfc4180::{Location, TextFault};

// The text without the CR LF at its end, if it has one.
fn content(text: &[u8]) -> &[u8]
    ensures { result.now ≡ without_line_end text.now }
{
    text.strip_suffix(b"\r\n").unwrap_or(text)
}

// The header's line without its end, or why it is turned away whatever the room.
fn header_line(width: Width, header: &[u8]) -> Result<&[u8], HeaderFault>
    ensures content { IfOk result (λ line. line.now ≡ without_line_end header.now) }
    ensures taken { IfOk result (λ line. (room : ℕ) → header_answer width.count room (length header.now) (read_line header.now) ≡ room_answer room (length line.now + 2)) }
    ensures refused { IfErr result (λ e. (room : ℕ) → header_answer width.count room (length header.now) (read_line header.now) ≡ Err e) }
{
    let line = rfc4180::read_line(header, 0, 1, &mut [])?;
    if line.next < header.len() {
        return Err(HeaderFault::Text(second_line(line.next)));
    }
    let wanted = width.count() + 1;
    if line.fields != wanted {
        return Err(HeaderFault::Fields {
            found: line.fields,
            wanted,
        });
    }
    Ok(content(header))
}

fn second_line(byte: usize) -> TextFault
    ensures { result ≡ second_line byte }
{
    TextFault::NotAllowed {
        at: Location {
            line: 2,
            column: 1,
            byte,
        },
        field: byte,
    }
}

// Writes the line of the header to the area's start, for a sheet of this width.
pub(crate) fn write_header(
    width: Width,
    header: &[u8],
    area: &mut [u8],
) -> Result<usize, HeaderFault>
    ensures answer { result ≡ header_answer width.count (length area.old) (length header.now) (read_line header.now) }
    ensures area { area.new ≡ area_after (bytes_of (read_line header.now)) area.old result }
    ensures back { IfOk result (λ n. Headed width.count header.now n area.old area.new) }
{
    let line = header_line(width, header)?;
    let needed = line.len() + 2;
    if area.len() < needed {
        return Err(HeaderFault::AreaTooShort { needed });
    }
    area[..line.len()].copy_from_slice(line);
    area[line.len()..needed].copy_from_slice(b"\r\n");
    Ok(needed)
}

// A row, put into a text area.
ghost use Rattle.std.specs.Prelude.{◌≡◌, ◌+◌, ◌≤◌, ◌++◌, length, take, drop, IfOk, OnOk};
ghost use Rattle.sheet.specs.Calls.{row_answer, area_after};
ghost use Rattle.sheet.specs.Limits.{max_rows, max_row};
ghost use Rattle.sheet.specs.Rows.{row_bytes};
ghost use Rattle.sheet.specs.Sheets.{RowBack, GoesOn};
ghost use Rattle.sheet.specs.Shown.{Shown};

use crate::digits::{put_byte, put_reading, reading_size};
use crate::faults::RowFault;
use crate::fields::{attributes_size, put_attributes};
use domain::Width;
use release::Line;

// The most rows that a sheet may have.
pub const MAX_ROWS: u32 = 4_000_000_000;

// The most bytes that a row takes: an area of this size has room for any.
pub const MAX_ROW: usize = 169;

// The size of the row of a line.
fn row_size(width: Width, line: &Line) -> usize
    ensures value { result ≡ length (row_bytes width.count line.now) }
    ensures bound { result ≤ max_row }
    ensures shown { Shown width.count line.now }
{
    attributes_size(line.manner, &line.ranges[..width.count()]) + reading_size(line.reading) + 2
}

// Puts the row of a line into the area's first `end` bytes, which are as many as it takes.
fn put_row(area: &mut [u8], end: usize, width: Width, line: &Line)
    requires { (end ≡ length (row_bytes width.count line.now)) × (end ≤ length area.old) }
    ensures { area.new ≡ row_bytes width.count line.now ++ drop end area.old }
{
    let feed = put_byte(area, end, b'\n');
    let reading = put_byte(area, feed, b'\r');
    let attributes = put_reading(area, reading, line.reading);
    put_attributes(area, attributes, line.manner, &line.ranges[..width.count()]);
}

// Writes the row of a line to the area's start, for a sheet that has so many rows.
pub(crate) fn write_row(
    width: Width,
    rows: u32,
    line: &Line,
    area: &mut [u8],
) -> Result<usize, RowFault>
    ensures answer { result ≡ row_answer rows (length area.old) (length (row_bytes width.count line.now)) }
    ensures most { length (row_bytes width.count line.now) ≤ max_row }
    ensures area { area.new ≡ area_after (row_bytes width.count line.now) area.old result }
    ensures back { IfOk result (λ n. RowBack width.count line.now n area.old area.new) }
    ensures goes_on { IfOk result (λ n. GoesOn width.count rows width.count (rows + 1) line.now (take n area.new)) }
    ensures room { OnOk result (rows + 1 ≤ max_rows) }
{
    let needed = row_size(width, line);
    if rows >= MAX_ROWS {
        return Err(RowFault::Full);
    }
    if area.len() < needed {
        return Err(RowFault::AreaTooShort { needed });
    }
    put_row(area, needed, width, line);
    Ok(needed)
}

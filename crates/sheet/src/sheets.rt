// A sheet is bare, then headed, then ended: three types of plain numbers, each moving into the next.
ghost use Rattle.std.specs.Prelude.{◌≡◌, ◌<◌, ◌≤◌, ◌⊎◌, length, take, IfOk, MatchResult};
ghost use Rattle.rfc4180.specs.Reading.{read_line};
ghost use Rattle.sheet.specs.Calls.{header_answer, row_answer, rows_after, area_after};
ghost use Rattle.sheet.specs.Limits.{max_width, max_row};
ghost use Rattle.sheet.specs.Rows.{bytes_of, row_bytes};
ghost use Rattle.sheet.specs.Sheets.{Headed, RowBack, GoesOn, GivesBack};
ghost use Rattle.sheet.specs.Told.{told_header};

use crate::faults::{BeginFault, HeaderFault, RowFault};
use crate::headers::write_header;
use crate::rows::write_row;
use domain::Width;
use release::Line;
use std::fmt;

// A sheet that waits for its header.
#[derive(Drop)]
pub struct BareSheet {
    width: Width,
}

// A sheet that takes rows.
#[derive(Drop)]
pub struct HeadedSheet {
    width: Width,
    rows: u32,
}

// A sheet that takes nothing more.
#[derive(Debug, Drop)]
pub struct EndedSheet {
    total: u32,
}

// By hand, here and for the headed sheet, since a width is shown as its number.
impl fmt::Debug for BareSheet {
    fn fmt<W: fmt::Write>(&self, f: &mut fmt::Formatter<W>) -> fmt::Result {
        f.debug_struct("BareSheet")
            .field("width", &self.width.count())
            .finish()
    }
}

impl fmt::Debug for HeadedSheet {
    fn fmt<W: fmt::Write>(&self, f: &mut fmt::Formatter<W>) -> fmt::Result {
        f.debug_struct("HeadedSheet")
            .field("width", &self.width.count())
            .field("rows", &self.rows)
            .finish()
    }
}

// A header that was turned away, and the sheet, which is still bare.
#[derive(Debug, Drop)]
pub struct HeaderRefused {
    pub sheet: BareSheet,
    pub fault: HeaderFault,
}

impl BareSheet {
    // A sheet of `width` attributes.
    pub fn begin(width: usize) -> Result<BareSheet, BeginFault>
        ensures { MatchResult result (λ sheet. sheet.width.count ≡ width) (λ _. (width ≡ 0) ⊎ (max_width < width)) }
    {
        let width = Width::new(width).map_err(|_| BeginFault::Width)?;
        Ok(BareSheet { width })
    }

    // Writes the header, one line of a field for each attribute and one for the reading, to the area's start.
    pub fn head(self, header: &[u8], area: &mut [u8]) -> Result<(HeadedSheet, usize), HeaderRefused>
        ensures answer { told_header result ≡ header_answer self.width.count (length area.old) (length header.now) (read_line header.now) }
        ensures area { area.new ≡ area_after (bytes_of (read_line header.now)) area.old (told_header result) }
        ensures sheet { MatchResult result (λ t. (t.0.width ≡ self.width) × (t.0.rows ≡ 0)) (λ e. e.sheet ≡ self) }
        ensures back { IfOk result (λ t. Headed self.width.count header.now t.1 area.old area.new) }
    {
        let width = self.width;
        let size = write_header(width, header, area).map_err(|fault| HeaderRefused {
            sheet: self,
            fault,
        })?;
        Ok((HeadedSheet { width, rows: 0 }, size))
    }
}

impl HeadedSheet {
    // Writes the row of a line to the area's start: the ranges of the sheet's attributes, then the reading.
    pub fn row(&mut self, line: &Line, area: &mut [u8]) -> Result<usize, RowFault>
        ensures answer { result ≡ row_answer self.old.rows (length area.old) (length (row_bytes self.old.width.count line.now)) }
        ensures most { length (row_bytes self.old.width.count line.now) ≤ max_row }
        ensures area { area.new ≡ area_after (row_bytes self.old.width.count line.now) area.old result }
        ensures width { self.new.width ≡ self.old.width }
        ensures rows { self.new.rows ≡ rows_after self.old.rows result }
        ensures back { IfOk result (λ n. RowBack self.old.width.count line.now n area.old area.new) }
        ensures goes_on { IfOk result (λ n. GoesOn self.old.width.count self.old.rows self.new.width.count self.new.rows line.now (take n area.new)) }
    {
        let size = write_row(self.width, self.rows, line, area)?;
        self.rows += 1;
        Ok(size)
    }

    // The rows so far.
    fn count(&self) -> u32
        ensures value { result ≡ self.now.rows }
        ensures back { GivesBack self.now.width.count self.now.rows }
    {
        self.rows
    }

    // Ends the sheet.
    pub fn end(self) -> EndedSheet
        ensures rows { result.total ≡ self.rows }
        ensures back { GivesBack self.width.count self.rows }
    {
        EndedSheet {
            total: self.count(),
        }
    }
}

impl EndedSheet {
    // How many rows the sheet has.
    pub fn rows(&self) -> u32
        ensures { result ≡ self.now.total }
    {
        self.total
    }
}

// A whole text of report lines.
ghost use Rattle.std.specs.Prelude.{◌≡◌, map, IfOk};
ghost use Rattle.report.specs.Lines.{told, outcomes};
ghost use Rattle.report.specs.Whole.{Whole};

use crate::columns::Report;
use crate::faults::LineFault;
use crate::reader::Reader;
use domain::Width;
use std::alloc::{AllocError, Global};

// What became of each line of `text`, in their order.
pub fn read_all(
    heap: Global,
    text: &[u8],
    width: Width,
) -> Result<Vec<Result<Report, LineFault>>, AllocError>
    ensures outcomes { IfOk result (λ v. map told v.items ≡ outcomes width.count text.now) }
    ensures whole { Whole width.count text.now }
{
    Reader::begin(text, width).collect(heap)
}

// What a line shows, beside the record that it writes.
ghost use Rattle.std.specs.Prelude.{◌≡◌, ◌≤◌};
ghost use Rattle.audit.specs.Lines as lines;

use crate::wrong::Wrong;
use domain::{PLACES, Range};
use release::{Line, Manner, Record};

// How many ranges a line of that manner uses.
fn used(manner: Manner, width: usize) -> usize
    ensures value { result ≡ lines.used manner width }
    ensures few { result ≤ 6 }
{
    match manner {
        Manner::Suppressed => 0,
        _ => width.min(PLACES),
    }
}

// Whether each range covers the value at its place.
fn cover(ranges: &[Range], values: &[u32]) -> bool
    ensures { result ≡ lines.cover ranges.now values.now }
{
    ranges
        .iter()
        .zip(values)
        .all(|(range, value)| range.covers(*value))
}

// Whether each range is (0, 0).
fn are_unused(ranges: &[Range]) -> bool
    ensures { result ≡ lines.are_unused ranges.now }
{
    ranges.iter().all(|range| *range == Range::point(0))
}

// Whether the ranges that are used cover the record's values, and the others are (0, 0).
fn shows(line: &Line, fed: &Record, width: usize) -> bool
    ensures { result ≡ lines.shows line.now fed.now width }
{
    let (shown, rest) = line.ranges.split_at(used(line.manner, width));
    cover(shown, &fed.values) && are_unused(rest)
}

// What is wrong with a line that writes the record, whatever else was written.
pub(crate) fn line_fault(line: &Line, fed: &Record, width: usize) -> Option<Wrong>
    ensures { result ≡ lines.line_fault line.now fed.now width }
{
    if line.reading != fed.reading {
        Some(Wrong::Reading)
    } else if !shows(line, fed, width) {
        Some(Wrong::Ranges)
    } else {
        None
    }
}

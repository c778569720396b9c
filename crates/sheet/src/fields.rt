// The fields of a row, put into a text area from the last to the first.
ghost use Rattle.std.specs.Prelude.{◌≡◌, ◌+◌, ◌*◌, ◌≤◌, ◌++◌, map, length, drop};
ghost use Rattle.rfc4180.specs.Grammar.{written, with_commas};
ghost use Rattle.sheet.specs.Limits.{max_width};
ghost use Rattle.sheet.specs.Rows.{range_field, attribute_field};
ghost use Rattle.sheet.specs.Shown.{Small};
ghost use Rattle.std.specs.List.{AllByRecursion};

use crate::digits::{digit_count, put_byte, put_number};
use domain::Range;
use release::Manner;

// The size of a range's field.
fn range_size(range: Range) -> usize
    ensures value { result ≡ length (written (range_field range)) }
    ensures bound { result ≤ 25 }
{
    if range.low == range.high {
        digit_count(range.low)
    } else {
        digit_count(range.low) + digit_count(range.high) + 5
    }
}

// Puts a range: one value as its number, any other as [low,high] between quotation marks.
fn put_range(area: &mut [u8], end: usize, range: Range) -> usize
    requires { (length (written (range_field range)) ≤ end) × (end ≤ length area.old) }
    ensures start { result + length (written (range_field range)) ≡ end }
    ensures written { drop result area.new ≡ written (range_field range) ++ drop end area.old }
{
    if range.low == range.high {
        return put_number(area, end, range.low);
    }
    let closing = put_byte(area, end, b'"');
    let bracket = put_byte(area, closing, b']');
    let high = put_number(area, bracket, range.high);
    let comma = put_byte(area, high, b',');
    let low = put_number(area, comma, range.low);
    let opening = put_byte(area, low, b'[');
    put_byte(area, opening, b'"')
}

// The size of an attribute's field: of a range, or of the star of a suppressed record.
fn attribute_size(manner: Manner, range: Range) -> usize
    ensures value { result ≡ length (written (attribute_field manner range)) }
    ensures bound { result ≤ 25 }
    ensures small { Small range }
{
    match manner {
        Manner::Released | Manner::Reused => range_size(range),
        Manner::Suppressed => 1,
    }
}

// Puts an attribute's field: a range, or the star of a suppressed record.
fn put_attribute(area: &mut [u8], end: usize, manner: Manner, range: Range) -> usize
    requires { (length (written (attribute_field manner range)) ≤ end) × (end ≤ length area.old) }
    ensures start { result + length (written (attribute_field manner range)) ≡ end }
    ensures written { drop result area.new ≡ written (attribute_field manner range) ++ drop end area.old }
{
    match manner {
        Manner::Released | Manner::Reused => put_range(area, end, range),
        Manner::Suppressed => put_byte(area, end, b'*'),
    }
}

// The size of the attributes' fields, each with its comma.
pub(crate) fn attributes_size(manner: Manner, ranges: &[Range]) -> usize
    requires { length ranges.now ≤ max_width }
    ensures value { result ≡ length (with_commas (map (attribute_field manner) ranges.now)) }
    ensures bound { result ≤ 26 * length ranges.now }
    ensures small { AllByRecursion Small ranges.now }
{
    let mut size = 0;
    for range in ranges {
        size += attribute_size(manner, *range) + 1;
    }
    size
}

// Puts the attributes' fields, each with its comma, so that the last comma ends at `end`.
pub(crate) fn put_attributes(area: &mut [u8], end: usize, manner: Manner, ranges: &[Range]) -> usize
    requires { (length (with_commas (map (attribute_field manner) ranges.now)) ≤ end) × (end ≤ length area.old) }
    ensures start { result + length (with_commas (map (attribute_field manner) ranges.now)) ≡ end }
    ensures written { drop result area.new ≡ with_commas (map (attribute_field manner) ranges.now) ++ drop end area.old }
{
    let mut start = end;
    for range in ranges.iter().rev() {
        let comma = put_byte(area, start, b',');
        start = put_attribute(area, comma, manner, *range);
    }
    start
}

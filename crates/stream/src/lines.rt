// Lines on a lent list.
ghost use Rattle.std.specs.Prelude.{◌≡◌, ◌≤◌, min, map, length, slice_set};
ghost use Rattle.rules.specs.Release as release;
ghost use Rattle.split.specs.Parted.{marked};
ghost use Rattle.stream.specs.Writing.{released, Writes};

use domain::{PLACES, Range};
use release::{Line, Manner};
use rules::Entry;
use split::Member;

// The line that writes a record.
pub(crate) fn line_of(entry: &Entry, manner: Manner, number: u32, ranges: &[Range; PLACES]) -> Line
    ensures { result ≡ release.line entry.now manner number ranges.now }
{
    Line {
        position: entry.position,
        reading: entry.fed.reading,
        manner,
        number,
        ranges: *ranges,
    }
}

// Puts the line at the list's front, if the list has a place, and answers how many lines it put.
pub(crate) fn put(list: &mut [Line], line: Line) -> usize
    ensures list { list.new ≡ slice_set list.old 0 line }
    ensures count { result ≡ min 1 (length list.old) }
{
    let Some(first) = list.first_mut() else {
        return 0;
    };
    *first = line;
    1
}

// Writes the members of the part, as released in a box of that number and these ranges, at the list's front, and answers
// how many.
pub(crate) fn write_part(
    list: &mut [Line],
    members: &[Member],
    part: usize,
    number: u32,
    ranges: &[Range; PLACES],
) -> usize
    ensures written { length (marked part members.now) ≤ length list.old → Writes (map (released number ranges.now) (marked part members.now)) list.old list.new result }
    ensures fits { result ≤ length list.old }
{
    let mut n = 0;
    for member in members {
        if member.part == Some(part) {
            let line = line_of(&member.entry, Manner::Released, number, ranges);
            n += put(&mut list[n..], line);
        }
    }
    n
}

ghost use Rattle.std.specs.Prelude.{◌≡◌, ◌≤◌, map, vec_len, vec_capacity};
ghost use Rattle.std.specs.List.{range_with_len};
ghost use Rattle.rules.specs.Clusters.{box_of};
ghost use Rattle.split.specs.Parted.{marked, part_of};

use crate::{Member, Part};
use domain::{Domain, PLACES, Range, box_loss};
use pool::widened;

// The least box around the members of the part.
fn box_around<D: Domain>(d: &D, members: &[Member], part: usize) -> [Range; PLACES]
    ensures { result ≡ box_of (D.meaning d.now) (marked part members.now) }
{
    members
        .iter()
        .filter(|member| member.part == Some(part))
        .fold(None, |bounds, member| {
            Some(widened(d, bounds, &member.entry.fed.values))
        })
        .unwrap_or([Range::point(0); PLACES])
}

// Box and loss of the members of the part.
pub(crate) fn part_of<D: Domain>(d: &D, members: &[Member], part: usize) -> Part
    ensures { result ≡ part_of (D.meaning d.now) (marked part members.now) }
{
    let bounds = box_around(d, members, part);
    Part {
        bounds,
        loss: box_loss(d, &bounds),
    }
}

// Box and loss of each of the first parts, so many.
pub(crate) fn measure<D: Domain>(d: &D, members: &[Member], made: usize, parts: &mut Vec<Part>)
    requires { made ≤ vec_capacity parts.old }
    ensures all { parts.new.items ≡ map (λ j. part_of (D.meaning d.now) (marked j members.now)) (range_with_len 0 made) }
    ensures count { vec_len parts.new ≡ made }
    ensures capacity { vec_capacity parts.new ≡ vec_capacity parts.old }
{
    parts.clear();
    // A part is known by its number.
    for j in 0..made {
        parts.push_reserved(part_of(d, members, j));
    }
}

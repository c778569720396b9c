ghost use Rattle.std.specs.Prelude.{◌≡◌, ◌≤◌, map, length, vec_len, vec_capacity};
ghost use Rattle.rules.specs.Clusters as clusters;
ghost use Rattle.split.specs.Faces.{placed};
ghost use Rattle.split.specs.Parted.{of_part};
ghost use Rattle.split.specs.Settling.{moved};

use crate::Member;
use crate::faces::{Face, place_of};
use rules::Held;

// The members of the cluster, all of that part or of none.
pub(crate) fn gather_members(
    held: &[Held],
    label: u32,
    part: Option<usize>,
    members: &mut Vec<Member>,
)
    requires { length held.now ≤ vec_capacity members.old }
    ensures all { members.new.items ≡ map (of_part part) (clusters.members label held.now) }
    ensures few { vec_len members.new ≤ length held.now }
    ensures capacity { vec_capacity members.new ≡ vec_capacity members.old }
{
    members.clear();
    for h in held {
        if h.label == label {
            members.push_reserved(Member {
                entry: h.entry,
                part,
            });
        }
    }
}

// Each member is of its owner's part, if he has one.
pub(crate) fn place_members(members: &mut [Member], faces: &[Face])
    ensures { members.new ≡ map (placed faces.now) members.old }
{
    for member in members.iter_mut() {
        member.part = place_of(faces, member.entry.fed.owner);
    }
}

// All of the owner's records are of the part.
pub(crate) fn move_owner(members: &mut [Member], owner: u32, part: usize)
    ensures { members.new ≡ map (moved owner part) members.old }
{
    for member in members.iter_mut() {
        if member.entry.fed.owner == owner {
            member.part = Some(part);
        }
    }
}

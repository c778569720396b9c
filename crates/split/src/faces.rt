ghost use Rattle.std.specs.Prelude.{◌≡◌, ◌≤◌, [], map, length, vec_len, vec_capacity};
ghost use Rattle.rules.specs.Choosing.{listed};
ghost use Rattle.split.specs.Faces.{earliest, face, owner_of, lacks_part, place_among};
ghost use Rattle.split.specs.Parted.{entries};

use crate::Member;
use rules::Entry;

// An owner of the cluster: his earliest record in it, which stands for him, and the place of his part, once he has one.
#[derive(Clone, Copy)]
pub(crate) struct Face {
    pub stand_in: Entry,
    pub part: Option<usize>,
}

impl Face {
    pub fn owner(&self) -> u32
        ensures { result ≡ owner_of self.now }
    {
        self.stand_in.fed.owner
    }

    pub fn lacks_part(&self) -> bool
        ensures { result ≡ lacks_part self.now }
    {
        self.part.is_none()
    }
}

fn is_known(faces: &[Face], owner: u32) -> bool
    ensures { result ≡ listed owner (map owner_of faces.now) }
{
    faces.iter().any(|face| face.owner() == owner)
}

// The owners of the members, by their earliest records, none in a part.
pub(crate) fn collect(members: &[Member], faces: &mut Vec<Face>)
    requires { length members.now ≤ vec_capacity faces.old }
    ensures all { faces.new.items ≡ map (face []) (earliest (entries members.now)) }
    ensures few { vec_len faces.new ≤ length members.now }
    ensures capacity { vec_capacity faces.new ≡ vec_capacity faces.old }
{
    faces.clear();
    for member in members {
        if !is_known(faces.as_slice(), member.entry.fed.owner) {
            faces.push_reserved(Face {
                stand_in: member.entry,
                part: None,
            });
        }
    }
}

// The place of the owner's part.
pub(crate) fn place_of(faces: &[Face], owner: u32) -> Option<usize>
    ensures { result ≡ place_among faces.now owner }
{
    faces
        .iter()
        .find(|face| face.owner() == owner)
        .and_then(|face| face.part)
}

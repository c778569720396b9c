ghost use Rattle.std.specs.Prelude.{◌≡◌, ℕ, ◌+◌, ◌<◌, ◌≤◌, not, ◌&&◌, List, [], ◌∷◌, ◌++◌, map, length, Some};
ghost use Rattle.keeper.specs.Keeping.{Keeps};
ghost use Rattle.rules.specs.declared.Entry.{Entry};
ghost use Rattle.rules.specs.Choosing.{listed, head};
ghost use Rattle.rules.specs.Clusters.{owner};
ghost use Rattle.rules.specs.Split.{next_part};
ghost use Rattle.split.specs.Faces.{earliest, face, owner_of, lacks_part};
ghost use Rattle.split.specs.Near.{rank_of, no_neighbour, neighbour, names, remaining, others_than, joined, Cuts};

use crate::faces::Face;
use crate::near::{Neighbour, is_among, seen_from};
use domain::Domain;
use rules::Entry;

// How many owners remain without a part.
fn count_remaining(faces: &[Face]) -> usize
    ensures { result ≡ length (remaining faces.now) }
{
    faces.iter().filter(|face| face.lacks_part()).count()
}

// The stand-in of the first of them.
fn first_remaining(faces: &[Face]) -> Option<Entry>
    ensures { result ≡ head (remaining faces.now) }
{
    faces
        .iter()
        .find(|face| face.lacks_part())
        .map(|face| face.stand_in)
}

fn is_other(face: &Face, seed: &Entry) -> bool
    ensures { result ≡ (lacks_part face.now && not (listed (owner_of face.now) (owner seed.now ∷ []))) }
{
    face.lacks_part() && seed.fed.owner != face.owner()
}

// The places become a keeper of the other owners that remain.
fn offer_others<D: Domain>(d: &D, faces: &[Face], seed: &Entry, near: &mut [Neighbour])
    ensures keeps { Keeps rank_of no_neighbour near.new (map (neighbour (D.meaning d.now) seed.now) (others_than seed.now (remaining faces.now))) }
{
    keeper::clear(near);
    for face in faces {
        if is_other(face, seed) {
            let _ = keeper::offer(near, seen_from(d, seed, &face.stand_in));
        }
    }
}

fn joins(face: &Face, seed: u32, near: &[Neighbour]) -> bool
    ensures { result ≡ (lacks_part face.now && listed (owner_of face.now) (seed ∷ names near.now)) }
{
    face.lacks_part() && (seed == face.owner() || is_among(near, face.owner()))
}

// The seed and those near it get the part.
fn join(faces: &mut [Face], seed: u32, near: &[Neighbour], part: usize)
    ensures { faces.new ≡ map (joined (seed ∷ names near.now) part) faces.old }
{
    for face in faces.iter_mut() {
        if joins(face, seed, near) {
            face.part = Some(part);
        }
    }
}

// The next part: the first owner that remains, and of the others those nearest to him, as many as there are places.
fn gather<D: Domain>(d: &D, faces: &mut [Face], near: &mut [Neighbour], part: usize)
    ensures fewer { 1 ≤ length (remaining faces.old) → length (remaining faces.new) < length (remaining faces.old) }
    ensures next { (es : List Entry) (ps : List (List ℕ)) (p : List ℕ) → faces.old ≡ map (face ps) (earliest es) → length ps ≡ part → next_part (D.meaning d.now) (length near.old + 1) es (map owner (remaining faces.old)) ≡ Some p → faces.new ≡ map (face (ps ++ p ∷ [])) (earliest es) }
{
    if let Some(seed) = first_remaining(faces) {
        offer_others(d, faces, &seed, near);
        join(faces, seed.fed.owner, keeper::items(near), part);
    }
}

// The parts by owners, while more remain than there are places: how many were made.
pub(crate) fn make_parts<D: Domain>(d: &D, faces: &mut [Face], near: &mut [Neighbour]) -> usize
    ensures few { result ≤ length faces.old }
    ensures cuts { (es : List Entry) → faces.old ≡ map (face []) (earliest es) → Cuts (D.meaning d.now) (length near.old + 1) es faces.new result }
{
    let mut made = 0;
    while count_remaining(faces) > near.len() {
        gather(d, faces, near, made);
        made += 1;
    }
    made
}

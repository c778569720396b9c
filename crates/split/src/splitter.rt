ghost use Rattle.std.specs.Prelude.{◌≤◌, vec_capacity};

use crate::faces::Face;
use crate::{Member, Part};

mod calls;
mod parting;

// Parts one cluster at a time, in memory that is reserved once: the members in order of position, each with the place of
// its part, and the parts in order of making. The owners are there while a cluster is parted.
#[derive(Drop)]
pub struct Splitter {
    members: Vec<Member>,
    parts: Vec<Part>,
    faces: Vec<Face>,
    ghost for_members: { 256 ≤ vec_capacity members },
    ghost for_parts: { 256 ≤ vec_capacity parts },
    ghost for_faces: { 256 ≤ vec_capacity faces },
}

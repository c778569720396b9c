// The parts of a cluster that is released: each owner's records stay together, and no part has fewer than k owners if
// the cluster has that many.
#![tactic(auto)]

use domain::{PLACES, Range};
use rules::Entry;

mod boxes;
mod faces;
mod making;
mod members;
mod near;
mod settling;
mod splitter;

pub use splitter::Splitter;

// The most held records that are parted.
const MOST_HELD: usize = 256;

// The largest crowd.
const MOST_CROWD: usize = 32;

// A record of the cluster that is parted, and the place of its part, once it has one.
#[derive(Clone, Copy)]
pub struct Member {
    pub entry: Entry,
    pub part: Option<usize>,
}

// A part: the least box around its records, and the box's loss.
#[derive(Clone, Copy)]
pub struct Part {
    pub bounds: [Range; PLACES],
    pub loss: u32,
}

#[cfg(test)]
mod tests;

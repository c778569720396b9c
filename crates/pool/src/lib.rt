// The held records and the open clusters.
#![tactic(auto)]

use domain::{PLACES, Range};
use rules::Held;

mod changes;
mod edits;
mod members;
mod places;

pub use members::widened;
pub use places::find;

// An open cluster: its label, and of its members how many owners they have, their least box and its loss.
#[derive(Clone, Copy, Debug)]
pub struct Cluster {
    pub label: u32,
    pub size: usize,
    pub loss: u32,
    pub bounds: [Range; PLACES],
}

// The held records, by position, and the open clusters, the oldest first. That the memory stays is said of each change: an
// invariant would say only that there is enough.
#[derive(Drop)]
pub struct Pool {
    pub held: Vec<Held>,
    pub clusters: Vec<Cluster>,
}

#[cfg(test)]
mod tests;

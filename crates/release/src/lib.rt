// The plain types of a release: what is fed, what is set, and what is written.
#![tactic(auto)]

ghost use Rattle.std.specs.Prelude.{◌≡◌};
ghost use Rattle.release.specs.Manners.{manner_number};

use domain::{PLACES, Range};
use std::fmt;

// The settings of a stream: the crowd `k`, the delay `delta`, the most open clusters `beta`, the released boxes in the
// mean `mu`, the places for kept boxes `rho`.
#[derive(Clone, Copy, Debug, PartialEq, Eq)]
pub struct Settings {
    pub k: u32,
    pub delta: u32,
    pub beta: u32,
    pub mu: u32,
    pub rho: u32,
}

// What is fed: the owner, the values, of which the first are used that the domain knows, and the reading.
#[derive(Clone, Copy, Debug, PartialEq, Eq)]
pub struct Record {
    pub owner: u32,
    pub values: [u32; PLACES],
    pub reading: i32,
}

// How a record goes out: in a box with its crowd, in a box that was released before, or in none.
#[derive(Clone, Copy, Debug, PartialEq, Eq)]
pub enum Manner {
    Released,
    Reused,
    Suppressed,
}

impl Manner {
    pub fn number(self) -> u32
        ensures { result ≡ manner_number self }
    {
        match self {
            Manner::Released => 1,
            Manner::Reused => 2,
            Manner::Suppressed => 3,
        }
    }
}

impl fmt::Display for Manner {
    fn fmt<W: fmt::Write>(&self, f: &mut fmt::Formatter<W>) -> fmt::Result {
        match self {
            Manner::Released => write!(f, "released"),
            Manner::Reused => write!(f, "reused"),
            Manner::Suppressed => write!(f, "suppressed"),
        }
    }
}

// A line of a release list: a record's position and reading, and the box that it goes out in. A suppressed record has
// the box number 0, and ranges that are not used are (0, 0): so lines are written.
#[derive(Clone, Copy, Debug, PartialEq, Eq)]
pub struct Line {
    pub position: u32,
    pub reading: i32,
    pub manner: Manner,
    pub number: u32,
    pub ranges: [Range; PLACES],
}

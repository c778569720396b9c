// The different owners whose records a box was released with.
ghost use Rattle.std.specs.Prelude.{◌≡◌, length};
ghost use Rattle.audit.specs.Crowds.{joined};

use arrayvec::ArrayVec;
use std::marker::Model;

// No stream asks for a larger crowd.
const MOST_OWNERS: usize = 32;

// Up to that many owners, in the order in which they were named.
#[derive(Drop)]
pub(crate) struct Crowd {
    owners: ArrayVec<u32, MOST_OWNERS>,
}

impl Model for Crowd {
    ghost use Rattle.std.specs.Prelude.{ℕ, List};

    ghost Value = { List ℕ };

    ghost view = { λ c. c.owners.items };
}

impl Crowd {
    ghost use Rattle.std.specs.Prelude.{[]};

    pub(crate) fn new() -> Crowd
        ensures { result ≡ [] }
    {
        Crowd {
            owners: ArrayVec::new(),
        }
    }

    pub(crate) fn size(&self) -> usize
        ensures { result ≡ length self.now }
    {
        self.owners.len()
    }

    // An owner that is new is added, while there is room.
    pub(crate) fn name(&mut self, owner: u32)
        ensures { self.new ≡ joined owner self.old }
    {
        if !self.owners.is_full() && !self.owners.contains(&owner) {
            self.owners.push(owner);
        }
    }
}

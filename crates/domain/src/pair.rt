ghost use Rattle.domain.specs.Pair.{pair_meaning};
ghost use Rattle.domain.specs.JoinsLemmas as Joins;

use crate::{Domain, PLACES, Range};

// The attributes of `left`, then those of `right`.
#[derive(Drop)]
pub struct Pair<P, Q> {
    pub left: P,
    pub right: Q,
}

impl<P: Domain, Q: Domain> Domain for Pair<P, Q> {
    ghost meaning = { λ s. pair_meaning (P.meaning s.left) (Q.meaning s.right) };

    ghost semilattice = { λ x i. Joins.semilattice _ };

    fn width(&self) -> usize {
        (self.left.width() + self.right.width()).min(PLACES + 1)
    }

    // A width stands for a greater one only above every place, so below `PLACES` the left width parts the two. Each answer
    // parts them by itself: a function that names the side was slower.
    fn admits(&self, i: usize, v: u32) -> bool {
        let left = self.left.width();
        if i >= PLACES {
            false
        } else if i < left {
            self.left.admits(i, v)
        } else {
            self.right.admits(i - left, v)
        }
    }

    fn join(&self, i: usize, a: Range, b: Range) -> Range {
        let left = self.left.width();
        if i >= PLACES {
            a
        } else if i < left {
            self.left.join(i, a, b)
        } else {
            self.right.join(i - left, a, b)
        }
    }

    fn loss(&self, i: usize, a: Range) -> u32 {
        let left = self.left.width();
        if i >= PLACES {
            0
        } else if i < left {
            self.left.loss(i, a)
        } else {
            self.right.loss(i - left, a)
        }
    }
}

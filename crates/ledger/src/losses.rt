ghost use Rattle.std.specs.Prelude.{◌≡◌, ◌*◌, ◌<◌, ◌≤◌, [], ◌∷◌, length, sum, take, IfOk};
ghost use Rattle.std.specs.VecDeque.{deque_capacity};
ghost use Rattle.rules.specs.States.{below_mean};
ghost use Rattle.ledger.specs.Means.{MeanOf};

use crate::Mean;
use std::alloc::{AllocError, Global};
use std::collections::VecDeque;

// The losses of the last `window` boxes, the latest first.
#[derive(Drop)]
pub(crate) struct Losses {
    window: u32,
    latest: VecDeque<u32>,
    ghost small: { window < 4294967296 },
    ghost short: { length latest.items ≤ window },
    // One more than stays, so that a loss enters before the oldest leaves.
    ghost room: { window < deque_capacity latest },
}

// The sum of a slice of them, since a queue's iterator asks at each loss which of its two slices is next: slower.
fn sum_of(losses: &[u32]) -> u64
    requires { length losses.now < 4294967296 }
    ensures value { result ≡ sum losses.now }
    ensures bound { result ≤ 4294967295 * length losses.now }
{
    losses.iter().map(|loss| u64::from(*loss)).sum()
}

impl Losses {
    // No loss yet, and memory for as many as enter.
    pub(crate) fn reserve(heap: Global, window: u32) -> Result<Losses, AllocError>
        ensures window { IfOk result (λ l. l.window ≡ window) }
        ensures none { IfOk result (λ l. l.latest.items ≡ []) }
    {
        Ok(Losses {
            window,
            latest: VecDeque::with_capacity(heap, window as usize + 1)?,
        })
    }

    // One loss more, the latest; the oldest leaves if there are then more than `window`.
    pub(crate) fn enter(&mut self, loss: u32)
        ensures latest { self.new.latest.items ≡ take self.old.window (loss ∷ self.old.latest.items) }
        ensures window { self.new.window ≡ self.old.window }
    {
        self.latest.push_front_reserved(loss);
        self.latest.truncate(self.window as usize);
    }

    // The mean; of none it is 0.
    pub(crate) fn mean(&self) -> Mean
        ensures { MeanOf self.now.latest.items result }
    {
        let (front, back) = self.latest.as_slices();
        Mean {
            sum: sum_of(front) + sum_of(back),
            // No more than `window`, so the cast loses nothing.
            count: (self.latest.len() as u32).max(1),
        }
    }

    pub(crate) fn is_below_mean(&self, loss: u32) -> bool
        ensures { result ≡ below_mean self.now.latest.items loss }
    {
        self.mean().is_above(loss)
    }
}

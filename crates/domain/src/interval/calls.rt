ghost use Rattle.std.specs.Prelude.{◌≡◌, ◌<◌, ◌≤◌, true, MatchResult};
ghost use Rattle.domain.specs.Examples.{Examples};
ghost use Rattle.domain.specs.Interval.{interval_meaning, interval_of};
ghost use Rattle.domain.specs.Meaning.{share};
ghost use Rattle.domain.specs.Ranges.{span, fits};
ghost use Rattle.domain.specs.Refusals.{interval_number};
ghost use Rattle.domain.specs.JoinsLemmas as Joins;

use super::Interval;
use crate::{Domain, FULL_LOSS, Range};
use thiserror::Error;

#[derive(Debug, Clone, Copy, PartialEq, Eq, Error)]
pub enum IntervalFault {
    #[error("the interval's lowest value lies above its highest")]
    LowAboveHigh,
}

impl IntervalFault {
    pub fn number(self) -> u32
        ensures { result ≡ interval_number self }
    {
        match self {
            IntervalFault::LowAboveHigh => 8,
        }
    }
}

impl Interval {
    pub fn new(low: u32, high: u32) -> Result<Interval, IntervalFault>
        ensures made { MatchResult result (λ d. (low ≤ high) × (interval_of d ≡ interval_meaning low high)) (λ _. high < low) }
        ensures examples { Examples }
    {
        if low <= high {
            Ok(Interval { low, high })
        } else {
            Err(IntervalFault::LowAboveHigh)
        }
    }

    // The values from 0 to `high`.
    pub fn up_to(high: u32) -> Interval
        ensures { interval_of result ≡ interval_meaning 0 high }
    {
        Interval { low: 0, high }
    }

    fn allows(&self, a: Range) -> bool
        ensures { result ≡ fits (span self.now.low self.now.high) a }
    {
        a.low <= a.high && self.low <= a.low && a.high <= self.high
    }

    // The part of the full loss that a range within has.
    fn share(&self, a: Range) -> u32
        ensures { fits (span self.now.low self.now.high) a ≡ true → result ≡ share (span self.now.low self.now.high) a }
    {
        if self.low < self.high && self.allows(a) {
            let part = u64::from(FULL_LOSS) * u64::from(a.high - a.low)
                / u64::from(self.high - self.low);
            // Proved to be at most the full loss, so the cast loses nothing.
            part as u32
        } else {
            0
        }
    }
}

// By hand, as in `taxonomy`: what would wrap an attribute into a domain of one needs a second trait of the same questions.
impl Domain for Interval {
    ghost meaning = { interval_of };

    ghost semilattice = { λ x i. Joins.semilattice _ };

    fn width(&self) -> usize {
        1
    }

    fn admits(&self, i: usize, v: u32) -> bool {
        i == 0 && (self.low..=self.high).contains(&v)
    }

    fn join(&self, i: usize, a: Range, b: Range) -> Range {
        if i == 0 && self.allows(a) && self.allows(b) {
            Range {
                low: a.low.min(b.low),
                high: a.high.max(b.high),
            }
        } else {
            a
        }
    }

    fn loss(&self, i: usize, a: Range) -> u32 {
        if i == 0 && self.allows(a) {
            self.share(a)
        } else {
            0
        }
    }
}

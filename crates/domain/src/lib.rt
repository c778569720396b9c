// Attribute domains: what a value may be widened to, and what that loses.
#![tactic(auto)]

ghost use Rattle.std.specs.Prelude.{◌≡◌, ℕ};
ghost use Rattle.domain.specs.Joins.{Semilattice};
ghost use Rattle.domain.specs.Meaning.{Meaning, width_of, admits_of, join_of, loss_of};

mod boxes;
mod interval;
mod pair;
mod range;
mod width;

pub use boxes::{box_loss, covers, join_boxes, point_box, widen};
pub use interval::{Interval, IntervalFault};
pub use pair::Pair;
pub use range::Range;
pub use width::{Width, WidthFault};

// The loss of a range that tells nothing.
pub const FULL_LOSS: u32 = 10_000;

// How many attributes a box has places for.
pub const PLACES: usize = 6;

// Four questions about attributes, numbered from 0. None changes the domain, and each has an answer whatever it is asked:
// an attribute is known if it is one of the domain's and below `PLACES`.
pub trait Domain {
    ghost meaning: { Self → Meaning };

    // The number of attributes, or 7 for seven and more, which are refused alike.
    fn width(&self) -> usize
        ensures { result ≡ width_of (meaning self.now) };

    // Whether the value is admitted, of a known attribute.
    fn admits(&self, i: usize, v: u32) -> bool
        ensures { result ≡ admits_of (meaning self.now) i v };

    // The least allowed range that contains both; `a` where `i` is not known or one of them is not allowed.
    fn join(&self, i: usize, a: Range, b: Range) -> Range
        ensures { result ≡ join_of (meaning self.now) i a b };

    // The loss of an allowed range of a known attribute; else 0.
    fn loss(&self, i: usize, a: Range) -> u32
        ensures { result ≡ loss_of (meaning self.now) i a };

    // Join is associative, commutative and idempotent on allowed ranges.
    ghost semilattice: { (x : Self) (i : ℕ) → Semilattice ((meaning x).attribute i) };
}

#[cfg(test)]
mod tests;

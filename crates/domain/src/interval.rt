ghost use Rattle.std.specs.Prelude.{◌≤◌};

mod calls;

pub use calls::IntervalFault;

// The values from `low` to `high`.
#[derive(Clone, Copy)]
pub struct Interval {
    low: u32,
    high: u32,
    ghost ordered: { low ≤ high },
}

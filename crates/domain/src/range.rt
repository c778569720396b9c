ghost use Rattle.std.specs.Prelude.{◌≡◌};
ghost use Rattle.domain.specs.Ranges.{point, within, is_inside};

// The values from `low` to `high`, both included.
#[derive(Debug, Clone, Copy, PartialEq, Eq)]
pub struct Range {
    pub low: u32,
    pub high: u32,
}

impl Range {
    pub fn point(v: u32) -> Range
        ensures { result ≡ point v }
    {
        Range { low: v, high: v }
    }

    pub fn covers(self, v: u32) -> bool
        ensures { result ≡ within self v }
    {
        (self.low..=self.high).contains(&v)
    }

    pub fn is_inside(self, other: Range) -> bool
        ensures { result ≡ is_inside self other }
    {
        other.low <= self.low && self.high <= other.high
    }
}

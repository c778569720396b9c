ghost use Rattle.std.specs.Prelude.{◌≡◌, ◌*◌, nat_le, nat_lt};

// A mean, unrounded: a sum over a count.
#[derive(Clone, Copy, Debug)]
pub struct Mean {
    pub sum: u64,
    pub count: u32,
}

// Two tests by name and no operators: a loss is no mean, and the rules know these two comparisons alone.
impl Mean {
    pub fn is_at_least(self, loss: u32) -> bool
        ensures { result ≡ nat_le (loss * self.count) self.sum }
    {
        u64::from(loss) * u64::from(self.count) <= self.sum
    }

    pub fn is_above(self, loss: u32) -> bool
        ensures { result ≡ nat_lt (loss * self.count) self.sum }
    {
        u64::from(loss) * u64::from(self.count) < self.sum
    }
}

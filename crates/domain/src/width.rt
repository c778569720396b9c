ghost use Rattle.std.specs.Prelude.{◌≤◌};

use crate::PLACES;
use thiserror::Error;

// A width of 0, or above `PLACES`.
#[derive(Debug, Clone, Copy, PartialEq, Eq, Error)]
pub enum WidthFault {
    #[error("a line has 1 to 6 attributes")]
    OutOfRange,
}

impl WidthFault {
    ghost use Rattle.std.specs.Prelude.{◌≡◌};
    ghost use Rattle.domain.specs.Widths.{width_number};

    pub fn number(&self) -> u32
        ensures { result ≡ width_number self.now }
    {
        match self {
            WidthFault::OutOfRange => 1,
        }
    }
}

// How many attributes there are: 1 to `PLACES`, which is 6.
#[derive(Debug, Clone, Copy, PartialEq, Eq)]
pub struct Width {
    count: usize,
    ghost some: { 1 ≤ count },
    ghost few: { count ≤ 6 },
}

impl Width {
    ghost use Rattle.std.specs.Prelude.{◌≡◌, MatchResult};
    ghost use Rattle.domain.specs.Widths.{OutOfWidth};

    pub fn new(count: usize) -> Result<Width, WidthFault>
        ensures { MatchResult result (λ w. w.count ≡ count) (λ _. OutOfWidth count) }
    {
        if !(1..=PLACES).contains(&count) {
            return Err(WidthFault::OutOfRange);
        }
        Ok(Width { count })
    }

    pub fn count(self) -> usize
        ensures { result ≡ self.count }
    {
        self.count
    }
}

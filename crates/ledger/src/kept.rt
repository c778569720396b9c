ghost use Rattle.std.specs.Prelude.{◌<◌};
ghost use Rattle.ledger.specs.KeptBoxes.{no_kept, rank_of};
ghost use Rattle.std.proofs.Common.{rules};

use domain::{PLACES, Range};
use keeper::{Rank, Ranked};

// A released box that is kept: its loss, its number and its ranges.
#[derive(Clone, Copy, Debug)]
pub struct KeptBox {
    pub loss: u32,
    pub number: u32,
    pub ranges: [Range; PLACES],
}

impl Ranked for KeptBox {
    const EMPTY: KeptBox = KeptBox {
        loss: u32::MAX,
        number: u32::MAX,
        ranges: [Range { low: 0, high: 0 }; PLACES],
    };

    ghost rank = { rank_of };

    ghost empty = { no_kept };

    // Losses are far smaller, so each box may be given.
    ghost offerable = { λ b. b.loss < 4294967295 };

    ghost above = { Prim.search rules };

    fn mark() -> KeptBox {
        KeptBox::EMPTY
    }

    fn rank(&self) -> Rank {
        Rank {
            first: self.loss,
            second: self.number,
        }
    }
}

ghost use Rattle.std.specs.Prelude.{◌≡◌, ◌<◌};
ghost use Rattle.rules.specs.Choosing.{listed};
ghost use Rattle.split.specs.Near.{rank_of, no_neighbour, neighbour, names};
ghost use Rattle.std.proofs.Common.{rules};

use domain::{Domain, box_loss, point_box, widen};
use keeper::{Rank, Ranked};
use rules::Entry;

// An owner beside a seed: the loss of the join of their stand-ins, and the position of his.
#[derive(Clone, Copy)]
pub(crate) struct Neighbour {
    pub distance: u32,
    pub position: u32,
    pub owner: u32,
}

impl Ranked for Neighbour {
    const EMPTY: Neighbour = Neighbour {
        distance: u32::MAX,
        position: u32::MAX,
        owner: 0,
    };

    ghost rank = { rank_of };

    ghost empty = { no_neighbour };

    ghost offerable = { λ n. n.distance < 4294967295 };

    ghost above = { Prim.search rules };

    fn mark() -> Neighbour {
        Neighbour::EMPTY
    }

    fn rank(&self) -> Rank {
        Rank {
            first: self.distance,
            second: self.position,
        }
    }
}

// `e` as seen from the seed.
pub(crate) fn seen_from<D: Domain>(d: &D, seed: &Entry, e: &Entry) -> Neighbour
    ensures value { result ≡ neighbour (D.meaning d.now) seed.now e.now }
    ensures near { result.distance < 4294967295 }
{
    let mut bounds = point_box(d, &seed.fed.values);
    widen(d, &mut bounds, &e.fed.values);
    Neighbour {
        distance: box_loss(d, &bounds),
        position: e.position,
        owner: e.fed.owner,
    }
}

pub(crate) fn is_among(near: &[Neighbour], owner: u32) -> bool
    ensures { result ≡ listed owner (names near.now) }
{
    near.iter().any(|n| n.owner == owner)
}

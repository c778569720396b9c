ghost use Rattle.std.specs.Prelude.{◌≡◌, ℕ, ◌+◌, ◌<◌, min, ◌∷◌, take, IfOk, filter};
ghost use Rattle.std.specs.Option.{option_map};
ghost use Rattle.domain.specs.Meaning.{Meaning};
ghost use Rattle.domain.specs.Boxes as boxes;
ghost use Rattle.domain.specs.Boxes.{box_loss};
ghost use Rattle.release.specs.declared.Settings.{Settings};
ghost use Rattle.rules.specs.Choosing.{chosen};
ghost use Rattle.ledger.specs.KeptBoxes.{kept_of};
ghost use Rattle.ledger.specs.Ledgers.{window_of, places_of, kept_boxes, ledger_boxes, KeptWell, Reserved, Enters};
ghost use Rattle.ledger.specs.Means.{MeanOf};

use crate::losses::Losses;
use crate::{KeptBox, Mean};
use domain::{Domain, PLACES, Range, covers};
use keeper::Ranked;
use std::alloc::{AllocError, Global};

// The boxes kept, as a keeper of the least; the last losses; how many were made.
#[derive(Drop)]
pub struct Ledger {
    kept: Vec<KeptBox>,
    losses: Losses,
    made: u32,
}

impl Ledger {
    // A ledger with memory for `mu` losses in the mean and `rho` kept boxes.
    pub fn reserve(heap: Global, mu: u32, rho: u32) -> Result<Ledger, AllocError>
        ensures { IfOk result (λ l. Reserved mu rho l) }
    {
        Ok(Ledger {
            kept: vec![in heap; KeptBox::EMPTY; rho as usize]?,
            losses: Losses::reserve(heap, mu)?,
            made: 0,
        })
    }

    // The mean of the last losses.
    pub fn mean(&self) -> Mean
        ensures { MeanOf (ledger_boxes self.now).losses result }
    {
        self.losses.mean()
    }

    // Gives the box the next number; its loss enters the mean, and if it is then strictly below the mean the box is
    // offered to the kept ones. Returns the number.
    pub fn enter(&mut self, bounds: &[Range; PLACES], loss: u32) -> u32
        ensures counted { result ≡ min ((ledger_boxes self.old).made + 1) 4294967295 }
        ensures made { (ledger_boxes self.new).made ≡ result }
        ensures losses { (ledger_boxes self.new).losses ≡ take (window_of self.old) (loss ∷ (ledger_boxes self.old).losses) }
        ensures window { window_of self.new ≡ window_of self.old }
        ensures places { places_of self.new ≡ places_of self.old }
        ensures entered { (m : Meaning) (g : Settings) → g.mu ≡ window_of self.old → KeptWell m g.rho self.old → loss ≡ box_loss m bounds.now → (ledger_boxes self.old).made < 4294967295 → Enters m g self.old (record { number = (ledger_boxes self.old).made + 1; ranges = bounds.now }) self.new }
    {
        let number = self.made.saturating_add(1);
        self.made = number;
        self.losses.enter(loss);
        if self.losses.is_below_mean(loss) {
            let entered = KeptBox {
                loss,
                number,
                ranges: *bounds,
            };
            let _ = keeper::offer(&mut self.kept, entered);
        }
        number
    }

    // The kept box of lowest rank among those that cover the values.
    pub fn cover<D: Domain>(&self, d: &D, values: &[u32; PLACES]) -> Option<KeptBox>
        ensures first { result ≡ chosen (filter (λ b. boxes.covers (D.meaning d.now) b.ranges values.now) (kept_boxes self.now)) }
        ensures value { option_map kept_of result ≡ chosen (filter (λ b. boxes.covers (D.meaning d.now) b.ranges values.now) (ledger_boxes self.now).kept) }
    {
        keeper::items(&self.kept)
            .iter()
            .find(|kept| covers(d, &kept.ranges, values))
            .copied()
    }
}

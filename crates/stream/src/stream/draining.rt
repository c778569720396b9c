// Turns for the lowest held position, until none is held.
ghost use Rattle.std.specs.Prelude.{◌≡◌, ◌≤◌, length, None};
ghost use Rattle.rules.specs.Facts.{Between};
ghost use Rattle.rules.specs.Refusals.{open_refusal};
ghost use Rattle.rules.specs.Runs.{drain};
ghost use Rattle.stream.specs.Views.{view, Stands};
ghost use Rattle.stream.specs.Within.{SameTerms, Comes, outcome_of};

use super::Stream;
use domain::Domain;
use release::Line;

impl<D: Domain> Stream<D> {
    // The lines begin the list; the answer tells how many. Each turn writes a record, so as many turns as records are
    // enough. These are counted, since that a turn writes one is known of streams alone to which a run leads.
    pub(crate) fn drain(&mut self, list: &mut [Line]) -> usize
        ensures terms { SameTerms self.old self.new }
        ensures drained { open_refusal (D.meaning self.old.domain) self.old.settings ≡ None → Between (D.meaning self.old.domain) self.old.settings (view self.old) → Stands (D.meaning self.old.domain) self.old → length self.old.pool.held.items ≤ length list.old → Comes (D.meaning self.old.domain) (outcome_of (drain (D.meaning self.old.domain) self.old.settings (length self.old.pool.held.items) (view self.old))) list.old list.new result self.new }
        ensures fits { result ≤ length list.old }
    {
        let mut n = 0;
        for _ in 0..self.pool.held.len() {
            if self.pool.held.is_empty() {
                break;
            }
            n += self.turn(0, &mut list[n..]);
        }
        n
    }
}

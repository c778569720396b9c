// A record's turn.
ghost use Rattle.std.specs.Prelude.{◌≡◌, ℕ, ◌<◌, ◌≤◌, true, List, length, IfSome, Some, None, vec_len, slice_index_or};
ghost use Rattle.std.specs.List.{AllByRecursion};
ghost use Rattle.rules.specs.declared.Held.{Held};
ghost use Rattle.rules.specs.Around.{Fit};
ghost use Rattle.rules.specs.Choosing.{In};
ghost use Rattle.rules.specs.Clusters as clustering;
ghost use Rattle.rules.specs.Facts.{Between};
ghost use Rattle.rules.specs.Refusals.{open_refusal};
ghost use Rattle.rules.specs.States as states;
ghost use Rattle.rules.specs.Turn as turns;
ghost use Rattle.stream.specs.Places.{held_at};
ghost use Rattle.stream.specs.Views.{view, Stands};
ghost use Rattle.stream.specs.Within.{SameTerms, Holds, Comes, AreApart, NextMerger, Round, rule_of};

use super::Stream;
use crate::lines::line_of;
use choice::{easiest, find, larger};
use domain::Domain;
use ledger::KeptBox;
use release::{Line, Manner};
use rules::Held;

// The five rules of a turn, in the order in which they are tried. They are values and no closures, so that a contract says
// which one it is.
pub(crate) enum Rule {
    Large,
    Covered(KeptBox),
    Outnumbered,
    TooFew,
    Joining,
}

// Places of two clusters in the table: one takes over the other.
#[derive(Clone, Copy)]
pub(crate) struct Merger {
    taker: usize,
    other: usize,
}

impl<D: Domain> Stream<D> {
    // How many owners hide one another.
    pub(crate) fn crowd(&self) -> usize
        ensures { result ≡ states.crowd self.now.settings (view self.now) }
    {
        self.settings.k as usize
    }

    // How many owners the cluster has.
    fn size_of(&self, label: u32) -> usize
        ensures { Stands (D.meaning self.now.domain) self.now → result ≡ clustering.size (clustering.members label self.now.pool.held.items) }
    {
        let clusters = self.pool.clusters.as_slice();
        find(clusters, label).map_or(0, |at| clusters[at].size)
    }

    // Whether more than half of the open clusters have more owners than the record's, which has `size`.
    fn is_outnumbered(&self, turn: &Held, size: usize) -> bool
        ensures { Stands (D.meaning self.now.domain) self.now → size ≡ clustering.size (clustering.members turn.now.label self.now.pool.held.items) → result ≡ turns.is_outnumbered (view self.now) turn.now }
    {
        let larger = larger(self.pool.clusters.as_slice(), size);
        larger > self.pool.clusters.len() - larger
    }

    // The first rule that fits.
    fn rule(&self, turn: &Held) -> Rule
        ensures { Stands (D.meaning self.now.domain) self.now → rule_of result ≡ turns.rule (D.meaning self.now.domain) self.now.settings (view self.now) turn.now }
    {
        let size = self.size_of(turn.label);
        if size >= self.crowd() {
            return Rule::Large;
        }
        if let Some(cover) = self.ledger.cover(&self.domain, &turn.entry.fed.values) {
            return Rule::Covered(cover);
        }
        if self.is_outnumbered(turn, size) {
            return Rule::Outnumbered;
        }
        if self.pool.names_fewer(self.crowd()) {
            Rule::TooFew
        } else {
            Rule::Joining
        }
    }

    // The next merger of a cluster that names fewer than a crowd.
    fn next_merger(&self, label: u32) -> Option<Merger>
        ensures apart { IfSome result (AreApart self.now label) }
        ensures next { Stands (D.meaning self.now.domain) self.now → AllByRecursion (λ h. Fit (D.meaning self.now.domain) h.entry) self.now.pool.held.items → In (clustering.clusters self.now.pool.held.items) label → NextMerger (D.meaning self.now.domain) self.now label result }
    {
        if self.size_of(label) >= self.crowd() {
            return None;
        }
        let clusters = self.pool.clusters.as_slice();
        let taker = find(clusters, label)?;
        let other = easiest(&self.domain, clusters, taker)?;
        Some(Merger { taker, other })
    }

    // One round of taking over: whether there was a merger, which closes a cluster.
    fn take_over(&mut self, label: u32) -> bool
        ensures closes { result ≡ true → vec_len self.new.pool.clusters < vec_len self.old.pool.clusters }
        ensures terms { SameTerms self.old self.new }
        ensures round { Stands (D.meaning self.old.domain) self.old → AllByRecursion (λ h. Fit (D.meaning self.old.domain) h.entry) self.old.pool.held.items → In (clustering.clusters self.old.pool.held.items) label → Round (D.meaning self.old.domain) label result self.old self.new }
    {
        let Some(merger) = self.next_merger(label) else {
            return false;
        };
        self.pool.merge(&self.domain, merger.taker, merger.other);
        true
    }

    // Takes over clusters until the cluster names a crowd, or no other is open.
    fn grow(&mut self, label: u32)
        ensures terms { SameTerms self.old self.new }
        ensures grown { Stands (D.meaning self.old.domain) self.old → AllByRecursion (λ h. Fit (D.meaning self.old.domain) h.entry) self.old.pool.held.items → In (clustering.clusters self.old.pool.held.items) label → Holds (D.meaning self.old.domain) (turns.grown (D.meaning self.old.domain) self.old.settings (view self.old) label) self.new }
    {
        while self.take_over(label) {}
    }

    // The record at place `at` has its turn: the first rule that fits is applied. Its lines begin the list; the answer
    // tells how many.
    pub(crate) fn turn(&mut self, at: usize, list: &mut [Line]) -> usize
        requires { at < vec_len self.old.pool.held }
        ensures terms { SameTerms self.old self.new }
        ensures comes { (t : Held) → slice_index_or self.old.pool.held.items at t ≡ t → open_refusal (D.meaning self.old.domain) self.old.settings ≡ None → Between (D.meaning self.old.domain) self.old.settings (view self.old) → Stands (D.meaning self.old.domain) self.old → length self.old.pool.held.items ≤ length list.old → Comes (D.meaning self.old.domain) (turns.turn (D.meaning self.old.domain) self.old.settings (view self.old) t) list.old list.new result self.new }
        ensures fits { result ≤ length list.old }
    {
        let turn = self.pool.held[at];
        match self.rule(&turn) {
            Rule::Large => self.release(turn.label, list),
            Rule::Covered(cover) => {
                let line = line_of(&turn.entry, Manner::Reused, cover.number, &cover.ranges);
                self.write_off(at, line, list)
            }
            Rule::Outnumbered | Rule::TooFew => self.suppress(at, &turn.entry, list),
            Rule::Joining => {
                self.grow(turn.label);
                self.release(turn.label, list)
            }
        }
    }
}

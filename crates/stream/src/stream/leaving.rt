// A record goes out alone, and leaves its cluster.
ghost use Rattle.std.specs.Prelude.{◌≡◌, ◌<◌, ◌≤◌, [], ◌∷◌, length, vec_len, slice_index_or};
ghost use Rattle.rules.specs.declared.Held.{Held};
ghost use Rattle.rules.specs.Facts.{ByPosition};
ghost use Rattle.rules.specs.States.{holding};
ghost use Rattle.rules.specs.Turn as turns;
ghost use Rattle.stream.specs.Views.{view, Stands};
ghost use Rattle.stream.specs.Within.{SameTerms, Comes};

use super::Stream;
use crate::lines::{line_of, put};
use domain::{Domain, PLACES, Range};
use release::{Line, Manner};
use rules::Entry;

impl<D: Domain> Stream<D> {
    // The record at place `at` is written by this line, at the list's front. Answers how many lines it wrote.
    pub(crate) fn write_off(&mut self, at: usize, line: Line, list: &mut [Line]) -> usize
        ensures terms { SameTerms self.old self.new }
        ensures comes { (t : Held) → slice_index_or self.old.pool.held.items at t ≡ t → at < vec_len self.old.pool.held → 0 < length list.old → ByPosition self.old.pool.held.items → Stands (D.meaning self.old.domain) self.old → Comes (D.meaning self.old.domain) (record { lines = line ∷ []; after = holding (view self.old) (turns.without t self.old.pool.held.items) }) list.old list.new result self.new }
        ensures fits { result ≤ length list.old }
    {
        self.pool.leave(&self.domain, at);
        put(list, line)
    }

    // The record at place `at` is suppressed, by a line at the list's front. Answers how many lines it wrote.
    pub(crate) fn suppress(&mut self, at: usize, entry: &Entry, list: &mut [Line]) -> usize
        ensures terms { SameTerms self.old self.new }
        ensures comes { (t : Held) → t.entry ≡ entry.now → slice_index_or self.old.pool.held.items at t ≡ t → at < vec_len self.old.pool.held → 0 < length list.old → self.old.suppressed < 4294967295 → ByPosition self.old.pool.held.items → Stands (D.meaning self.old.domain) self.old → Comes (D.meaning self.old.domain) (turns.suppress (view self.old) t) list.old list.new result self.new }
        ensures fits { result ≤ length list.old }
    {
        let line = line_of(entry, Manner::Suppressed, 0, &[Range::point(0); PLACES]);
        self.suppressed = self.suppressed.saturating_add(1);
        self.write_off(at, line, list)
    }
}

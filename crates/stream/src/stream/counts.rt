// The counts that a stream tells.
ghost use Rattle.std.specs.Prelude.{◌≡◌, ◌+◌, length};
ghost use Rattle.rules.specs.Facts as facts;
ghost use Rattle.rules.specs.Promise as promise;
ghost use Rattle.rules.specs.Runs.{History};
ghost use Rattle.stream.specs.Views.{view, Leads};

use super::Stream;
use domain::Domain;

impl<D: Domain> Stream<D> {
    // How many records were accepted since opening.
    pub fn accepted(&self) -> u32
        ensures value { result ≡ (view self.now).accepted }
        ensures counts { (h : History) → Leads (D.meaning self.now.domain) h self.now → result ≡ length (promise.accepted h) }
    {
        self.accepted
    }

    // How many of them are held.
    pub fn held(&self) -> usize
        ensures value { result ≡ length (view self.now).held }
        ensures counts { (h : History) → Leads (D.meaning self.now.domain) h self.now → result + length (promise.written h) ≡ length (promise.accepted h) }
    {
        self.pool.held.len()
    }

    // How many of them were suppressed.
    pub fn suppressed(&self) -> u32
        ensures value { result ≡ (view self.now).suppressed }
        ensures counts { (h : History) → Leads (D.meaning self.now.domain) h self.now → result ≡ facts.suppressed_lines (promise.written h) }
    {
        self.suppressed
    }
}

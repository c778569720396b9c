// Opening, feeding and closing.
ghost use Rattle.std.specs.Prelude.{◌≡◌, ◌≤◌, false, length, is_ok, None};
ghost use Rattle.rules.specs.Facts.{Between};
ghost use Rattle.rules.specs.Refusals as refusals;
ghost use Rattle.rules.specs.Runs.{History, feeding, closing, serve_due};
ghost use Rattle.stream.specs.Calls.{Opens, refusal_of, GoesOn};
ghost use Rattle.stream.specs.Views.{view, Stands, Leads};
ghost use Rattle.stream.specs.Within.{SameTerms, Comes, outcome_of};

use super::Stream;
use crate::checks::{open_refusal, unfit};
use crate::dues::due;
use crate::faults::OpenFault;
use domain::Domain;
use ledger::Ledger;
use pool::Pool;
use release::{Line, Record, Settings};
use rules::Refusal;
use split::Splitter;
use std::alloc::Global;

// The most records that a stream takes.
const MOST_RECORDS: u32 = 4_000_000_000;

impl<D: Domain + Drop> Stream<D> {
    // A stream over the domain, before the first record. All memory that it needs is reserved here.
    pub fn open(heap: Global, domain: D, settings: Settings) -> Result<Stream<D>, OpenFault>
        ensures { Opens (D.meaning domain) domain settings result }
    {
        if let Some(refusal) = open_refusal(&domain, settings) {
            return Err(refusal.into());
        }
        let pool = Pool::reserve(heap)?;
        let ledger = Ledger::reserve(heap, settings.mu, settings.rho)?;
        let splitter = Splitter::reserve(heap)?;
        Ok(Stream {
            domain,
            settings,
            pool,
            ledger,
            splitter,
            accepted: 0,
            suppressed: 0,
            closed: false,
        })
    }
}

impl<D: Domain> Stream<D> {
    // Why a feeding is turned away, with a list of so many places.
    fn feed_refusal(&self, fed: &Record, room: usize) -> Option<Refusal>
        ensures { result ≡ refusals.feed_refusal (D.meaning self.now.domain) (view self.now) fed.now room }
    {
        if self.closed {
            Some(Refusal::Closed)
        } else if self.accepted >= MOST_RECORDS {
            Some(Refusal::Full)
        } else if room <= self.pool.held.len() {
            Some(Refusal::ShortList)
        } else {
            unfit(&self.domain, fed).map(Refusal::Unfit)
        }
    }

    // Why a closing is turned away, with a list of so many places.
    fn close_refusal(&self, room: usize) -> Option<Refusal>
        ensures { result ≡ refusals.close_refusal (view self.now) room }
    {
        if self.closed {
            Some(Refusal::Closed)
        } else if room < self.pool.held.len() {
            Some(Refusal::ShortList)
        } else {
            None
        }
    }

    // The held record whose deadline has come has its turn. Its lines begin the list; the answer tells how many.
    fn serve_due(&mut self, list: &mut [Line]) -> usize
        ensures terms { SameTerms self.old self.new }
        ensures serves { refusals.open_refusal (D.meaning self.old.domain) self.old.settings ≡ None → Between (D.meaning self.old.domain) self.old.settings (view self.old) → Stands (D.meaning self.old.domain) self.old → length self.old.pool.held.items ≤ length list.old → Comes (D.meaning self.old.domain) (outcome_of (serve_due (D.meaning self.old.domain) self.old.settings (view self.old))) list.old list.new result self.new }
        ensures fits { result ≤ length list.old }
    {
        match due(self.pool.held.as_slice(), &self.settings, self.accepted) {
            Some(at) => self.turn(at, list),
            None => 0,
        }
    }

    // One record more. The lines that it lets go begin the list; the answer tells how many.
    pub fn feed(&mut self, fed: Record, list: &mut [Line]) -> Result<usize, Refusal>
        ensures refusal { refusal_of result ≡ refusals.feed_refusal (D.meaning self.old.domain) (view self.old) fed (length list.old) }
        ensures unchanged { is_ok result ≡ false → (self.new ≡ self.old) × (list.new ≡ list.old) }
        ensures terms { SameTerms self.old self.new }
        ensures goes_on { (h : History) → Leads (D.meaning self.old.domain) h self.old → GoesOn (D.meaning self.old.domain) h (feeding fed (length list.old)) result list.old list.new self.new }
    {
        if let Some(refusal) = self.feed_refusal(&fed, list.len()) {
            return Err(refusal);
        }
        self.arrive(fed);
        Ok(self.serve_due(list))
    }

    // No record comes any more: all that is held goes out. The lines begin the list; the answer tells how many.
    pub fn close(&mut self, list: &mut [Line]) -> Result<usize, Refusal>
        ensures refusal { refusal_of result ≡ refusals.close_refusal (view self.old) (length list.old) }
        ensures unchanged { is_ok result ≡ false → (self.new ≡ self.old) × (list.new ≡ list.old) }
        ensures terms { SameTerms self.old self.new }
        ensures goes_on { (h : History) → Leads (D.meaning self.old.domain) h self.old → GoesOn (D.meaning self.old.domain) h (closing (length list.old)) result list.old list.new self.new }
    {
        if let Some(refusal) = self.close_refusal(list.len()) {
            return Err(refusal);
        }
        self.closed = true;
        Ok(self.drain(list))
    }
}

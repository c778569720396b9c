// A record arrives.
ghost use Rattle.std.specs.Prelude.{◌≡◌, ℕ, ◌+◌, ◌<◌, None};
ghost use Rattle.rules.specs.Arrival as arrival;
ghost use Rattle.rules.specs.Clusters.{entered};
ghost use Rattle.rules.specs.Refusals.{feed_refusal};
ghost use Rattle.rules.specs.Runs.{History};
ghost use Rattle.pool.specs.Changes.{SameMemory};
ghost use Rattle.pool.specs.Tables.{Faithful};
ghost use Rattle.stream.specs.Housing.{HasPlace, Housed};
ghost use Rattle.stream.specs.Views.{view, Leads};
ghost use Rattle.stream.specs.Within.{SameTerms, Holds};

use super::Stream;
use choice::taker;
use domain::Domain;
use pool::Pool;
use release::Record;
use rules::Entry;

// The record joins the cluster at that place of the table, or opens one.
fn house<D: Domain>(pool: &mut Pool, d: &D, home: Option<usize>, entry: Entry)
    ensures housed { Faithful (D.meaning d.now) pool.old → HasPlace pool.old home entry → Housed (D.meaning d.now) home entry pool.old pool.new }
    ensures memory { SameMemory pool.old pool.new }
{
    match home {
        Some(at) => pool.join(d, at, entry),
        None => pool.open_cluster(d, entry),
    }
}

impl<D: Domain> Stream<D> {
    // One cluster takes the record, at the next position, and no other changes.
    pub(crate) fn arrive(&mut self, fed: Record)
        requires { self.old.accepted < 4000000000 }
        ensures terms { SameTerms self.old self.new }
        ensures arrives { (h : History) (room : ℕ) → Leads (D.meaning self.old.domain) h self.old → feed_refusal (D.meaning self.old.domain) (view self.old) fed room ≡ None → Holds (D.meaning self.old.domain) (arrival.arrive (D.meaning self.old.domain) self.old.settings (view self.old) (entered (self.old.accepted + 1) fed)) self.new }
    {
        let entry = Entry {
            position: self.accepted + 1,
            fed,
        };
        let mean = self.ledger.mean();
        let clusters = self.pool.clusters.as_slice();
        let home = taker(
            &self.domain,
            clusters,
            mean,
            self.settings.beta,
            &fed.values,
        );
        house(&mut self.pool, &self.domain, home, entry);
        self.accepted = entry.position;
    }
}

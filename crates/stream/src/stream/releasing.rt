// A cluster is released, and closes.
ghost use Rattle.std.specs.Prelude.{◌≡◌, ◌+◌, ◌≤◌, length, None};
ghost use Rattle.rules.specs.Choosing.{In};
ghost use Rattle.rules.specs.Clusters as clustering;
ghost use Rattle.rules.specs.Facts.{Between};
ghost use Rattle.rules.specs.Refusals.{open_refusal};
ghost use Rattle.rules.specs.Release as releases;
ghost use Rattle.stream.specs.Views.{view, Stands};
ghost use Rattle.stream.specs.Within.{SameTerms, Comes};

use super::Stream;
use crate::releases::release_parts;
use choice::find;
use domain::Domain;
use release::Line;

impl<D: Domain> Stream<D> {
    // The records of the cluster are written part by part, and it closes. The lines begin the list; the answer tells how
    // many.
    pub(crate) fn release(&mut self, label: u32, list: &mut [Line]) -> usize
        ensures terms { SameTerms self.old self.new }
        ensures comes { open_refusal (D.meaning self.old.domain) self.old.settings ≡ None → Between (D.meaning self.old.domain) self.old.settings (view self.old) → Stands (D.meaning self.old.domain) self.old → In (clustering.clusters self.old.pool.held.items) label → self.old.settings.k ≤ clustering.size (clustering.members label self.old.pool.held.items) → length self.old.pool.held.items ≤ length list.old → Comes (D.meaning self.old.domain) (releases.release (D.meaning self.old.domain) self.old.settings (view self.old) label) list.old list.new result self.new }
        ensures fits { result ≤ length list.old }
    {
        let Some(at) = find(self.pool.clusters.as_slice(), label) else {
            return 0;
        };
        let cluster = self.pool.clusters[at];
        self.splitter.part(
            &self.domain,
            self.pool.held.as_slice(),
            &cluster,
            self.settings.k,
        );
        let n = release_parts(
            &mut self.ledger,
            self.splitter.parts(),
            self.splitter.members(),
            list,
        );
        self.pool.close_cluster(label);
        n
    }
}

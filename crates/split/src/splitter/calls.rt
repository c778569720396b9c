ghost use Rattle.std.specs.Prelude.{◌≡◌, ◌≤◌, false, [], length, IfOk};
ghost use Rattle.rules.specs.Clusters as clusters;
ghost use Rattle.pool.specs.Tables.{cluster_of};
ghost use Rattle.split.specs.Parted.{Parted, can_part};
ghost use Rattle.split.specs.Splitters.{members_in, parts_in};

use crate::splitter::Splitter;
use crate::{MOST_CROWD, MOST_HELD, Member, Part};
use domain::Domain;
use pool::Cluster;
use rules::Held;
use std::alloc::{AllocError, Global};

impl Splitter {
    // Nothing is parted yet.
    pub fn reserve(heap: Global) -> Result<Splitter, AllocError>
        ensures no_members { IfOk result (λ s. members_in s ≡ []) }
        ensures no_parts { IfOk result (λ s. parts_in s ≡ []) }
    {
        Ok(Splitter {
            members: Vec::with_capacity(heap, MOST_HELD)?,
            parts: Vec::with_capacity(heap, MOST_HELD)?,
            faces: Vec::with_capacity(heap, MOST_HELD)?,
        })
    }

    // The parts, in order of making.
    pub fn parts(&self) -> &[Part]
        ensures { result.now ≡ parts_in self.now }
    {
        self.parts.as_slice()
    }

    // The members of the cluster in order of position, each with the place of its part.
    pub fn members(&self) -> &[Member]
        ensures { result.now ≡ members_in self.now }
    {
        self.members.as_slice()
    }

    // Parts the members of the cluster at crowd `k`. Nothing is parted where there are too many held records, or at a
    // crowd that no stream has.
    pub fn part<D: Domain>(&mut self, d: &D, held: &[Held], cluster: &Cluster, k: u32)
        ensures parted { cluster.now ≡ cluster_of (D.meaning d.now) held.now cluster.now.label → length held.now ≤ 256 → 2 ≤ k → k ≤ 32 → Parted (D.meaning d.now) k (clusters.members cluster.now.label held.now) (members_in self.new) (parts_in self.new) }
        ensures no_members { can_part held.now k ≡ false → members_in self.new ≡ [] }
        ensures no_parts { can_part held.now k ≡ false → parts_in self.new ≡ [] }
    {
        if held.len() <= MOST_HELD && 2 <= k && k as usize <= MOST_CROWD {
            self.part_cluster(d, held, cluster, k as usize);
        } else {
            self.members.clear();
            self.parts.clear();
        }
    }
}

// What changes a pool. Each change keeps the table in step with the held records, and none but `reserve` asks for memory.
ghost use Rattle.std.specs.Prelude.{◌≡◌, ◌<◌, not, [], ◌∷◌, ◌++◌, IfOk, if◌then◌else◌, vec_len, vec_capacity, nat_lt, slice_index_or, slice_set, MatchOption};
ghost use Rattle.std.specs.List.{remove, AllByRecursion};
ghost use Rattle.domain.specs.Meaning.{Meaning};
ghost use Rattle.rules.specs.Around.{Fit};
ghost use Rattle.rules.specs.Choosing.{In, listed};
ghost use Rattle.rules.specs.Clusters as rules;
ghost use Rattle.rules.specs.Turn.{merged};
ghost use Rattle.pool.specs.Changes.{Empty, SameMemory, can_open, can_join, held_also, label_of, are_two, other_rows, opened, with_record, renewed, taken_over};
ghost use Rattle.pool.specs.Places.{place_of};
ghost use Rattle.pool.specs.Tables.{held_of, rows_of, labels, label_at, Faithful};

use crate::edits::{put_row, relabel};
use crate::members::{cluster_of, count_owners, has_owner, names_fewer};
use crate::{Cluster, Pool, find};
use domain::{Domain, PLACES, box_loss, join_boxes, point_box, widen};
use rules::{Entry, Held};
use std::alloc::{AllocError, Global};

// The most records that a stream may hold, and the most open clusters.
const MOST_HELD: usize = 256;

const MOST_OPEN: usize = 64;

impl Cluster {
    // One record more: its values, and whether the cluster did not name its owner.
    fn take_record<D: Domain>(&mut self, d: &D, values: &[u32; PLACES], new_owner: bool)
        ensures { self.new ≡ with_record (D.meaning d.now) values.now new_owner self.old }
    {
        widen(d, &mut self.bounds, values);
        self.loss = box_loss(d, &self.bounds);
        if new_owner {
            self.size = self.size.saturating_add(1);
        }
    }
}

impl Pool {
    // An empty pool with the memory for all that a stream may hold.
    pub fn reserve(heap: Global) -> Result<Pool, AllocError>
        ensures { IfOk result Empty }
    {
        let held = Vec::with_capacity(heap, MOST_HELD)?;
        let clusters = Vec::with_capacity(heap, MOST_OPEN)?;
        Ok(Pool { held, clusters })
    }

    // Whether the held records have fewer than `k` owners.
    pub fn names_fewer(&self, k: usize) -> bool
        ensures { result ≡ nat_lt (rules.size (rules.records (held_of self.now))) k }
    {
        names_fewer(self.held.as_slice(), k)
    }

    // The place of the cluster's row in the table.
    pub fn place_of(&self, label: u32) -> Option<usize>
        ensures value { result ≡ place_of label (rows_of self.now) }
        ensures found { In (labels (rows_of self.now)) label → MatchOption result ⊥ (λ i. (i < vec_len self.now.clusters) × (label_at (rows_of self.now) i ≡ label)) }
    {
        find(self.clusters.as_slice(), label)
    }

    // The record opens a cluster, whose label is its position. Where there is no memory for both, nothing changes.
    pub fn open_cluster<D: Domain>(&mut self, d: &D, entry: Entry)
        ensures held { held_of self.new ≡ (if can_open self.old then held_also entry.position entry (held_of self.old) else held_of self.old) }
        ensures clusters { rows_of self.new ≡ (if can_open self.old then rows_of self.old ++ opened (D.meaning d.now) entry ∷ [] else rows_of self.old) }
        ensures faithful { AllByRecursion (λ h. h.label < entry.position) (held_of self.old) → Faithful (D.meaning d.now) self.old → Faithful (D.meaning d.now) self.new }
        ensures memory { SameMemory self.old self.new }
    {
        if self.held.len() < self.held.capacity()
            && self.clusters.len() < self.clusters.capacity()
        {
            let bounds = point_box(d, &entry.fed.values);
            self.clusters.push_reserved(Cluster {
                label: entry.position,
                size: 1,
                loss: box_loss(d, &bounds),
                bounds,
            });
            self.held.push_reserved(Held {
                entry,
                label: entry.position,
            });
        }
    }

    // The record joins the cluster at place `at` of the table. Where there is no such place, or no memory for the record,
    // nothing changes.
    pub fn join<D: Domain>(&mut self, d: &D, at: usize, entry: Entry)
        ensures held { held_of self.new ≡ (if can_join self.old at then held_also (label_at (rows_of self.old) at) entry (held_of self.old) else held_of self.old) }
        ensures clusters { (x : Cluster) → rows_of self.new ≡ (if can_join self.old at then slice_set (rows_of self.old) at (with_record (D.meaning d.now) (rules.values entry) (not (listed (rules.owner entry) (rules.owners (rules.members (label_at (rows_of self.old) at) (held_of self.old))))) (slice_index_or (rows_of self.old) at x)) else rows_of self.old) }
        ensures faithful { Faithful (D.meaning d.now) self.old → Faithful (D.meaning d.now) self.new }
        ensures memory { SameMemory self.old self.new }
    {
        if self.held.len() < self.held.capacity() {
            if let Some(cluster) = self.clusters.get_mut(at) {
                let label = cluster.label;
                let new_owner = !has_owner(self.held.as_slice(), label, entry.fed.owner);
                cluster.take_record(d, &entry.fed.values, new_owner);
                self.held.push_reserved(Held { entry, label });
            }
        }
    }

    // The held record at place `at` leaves its cluster, which closes if that was its last. Where there is no such place,
    // nothing changes.
    pub fn leave<D: Domain>(&mut self, d: &D, at: usize)
        ensures held { held_of self.new ≡ (if nat_lt at (vec_len self.old.held) then remove (held_of self.old) at else held_of self.old) }
        ensures clusters { rows_of self.new ≡ (if nat_lt at (vec_len self.old.held) then renewed (D.meaning d.now) (remove (held_of self.old) at) (label_of (held_of self.old) at) (rows_of self.old) else rows_of self.old) }
        ensures faithful { Faithful (D.meaning d.now) self.old → Faithful (D.meaning d.now) self.new }
        ensures memory { SameMemory self.old self.new }
    {
        if at < self.held.len() {
            let gone = self.held.remove(at);
            self.renew(d, gone.label);
        }
    }

    // The row of a cluster is made again from the members that it has, and goes if it has none.
    fn renew<D: Domain>(&mut self, d: &D, label: u32)
        ensures held { self.new.held ≡ self.old.held }
        ensures clusters { rows_of self.new ≡ renewed (D.meaning d.now) (held_of self.old) label (rows_of self.old) }
        ensures memory { SameMemory self.old self.new }
    {
        let row = cluster_of(d, self.held.as_slice(), label);
        if row.size == 0 {
            self.clusters.retain(|x| x.label != label);
        } else {
            put_row(&mut self.clusters, row);
        }
    }

    // The cluster of that label closes with all its records.
    pub fn close_cluster(&mut self, label: u32)
        ensures held { held_of self.new ≡ rules.others label (held_of self.old) }
        ensures clusters { rows_of self.new ≡ other_rows label (rows_of self.old) }
        ensures faithful { (m : Meaning) → Faithful m self.old → Faithful m self.new }
        ensures memory { SameMemory self.old self.new }
    {
        self.held.retain(|h| h.label != label);
        self.clusters.retain(|x| x.label != label);
    }

    // The cluster at place `at` of the table takes over the one at place `other`, which closes. Where these are not two
    // places, nothing changes.
    pub fn merge<D: Domain>(&mut self, d: &D, at: usize, other: usize)
        ensures held { held_of self.new ≡ (if are_two self.old at other then merged (label_at (rows_of self.old) at) (label_at (rows_of self.old) other) (held_of self.old) else held_of self.old) }
        ensures same_records { rules.records (held_of self.new) ≡ rules.records (held_of self.old) }
        ensures clusters { (x : Cluster) → rows_of self.new ≡ (if are_two self.old at other then taken_over (D.meaning d.now) (held_of self.old) (slice_index_or (rows_of self.old) at x) (slice_index_or (rows_of self.old) other x) (rows_of self.old) else rows_of self.old) }
        ensures faithful { AllByRecursion (λ h. Fit (D.meaning d.now) h.entry) (held_of self.old) → Faithful (D.meaning d.now) self.old → Faithful (D.meaning d.now) self.new }
        ensures memory { SameMemory self.old self.new }
    {
        if at == other {
            return;
        }
        if let (Some(&taker), Some(&closing)) = (self.clusters.get(at), self.clusters.get(other)) {
            let bounds = join_boxes(d, &taker.bounds, &closing.bounds);
            relabel(&mut self.held, taker.label, closing.label);
            let row = Cluster {
                label: taker.label,
                size: count_owners(self.held.as_slice(), taker.label),
                loss: box_loss(d, &bounds),
                bounds,
            };
            put_row(&mut self.clusters, row);
            self.clusters.retain(|x| x.label != closing.label);
        }
    }
}

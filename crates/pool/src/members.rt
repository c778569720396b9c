// What the held records tell of a cluster's members.
ghost use Rattle.std.specs.Prelude.{◌≡◌, ◌≤◌, length, nat_lt};
ghost use Rattle.rules.specs.Choosing.{listed};
ghost use Rattle.rules.specs.Clusters as rules;
ghost use Rattle.pool.specs.Tables.{cluster_of, widened};

use crate::Cluster;
use domain::{Domain, PLACES, Range, box_loss, point_box, widen};
use rules::Held;

// Whether one of the records is the owner's.
fn names(held: &[Held], owner: u32) -> bool
    ensures { result ≡ listed owner (rules.owners (rules.records held.now)) }
{
    held.iter().any(|h| h.entry.fed.owner == owner)
}

// Whether the records have fewer than `k` owners.
pub(crate) fn names_fewer(held: &[Held], k: usize) -> bool
    ensures { result ≡ nat_lt (rules.size (rules.records held.now)) k }
{
    // An owner counts at his earliest record.
    let owners = held
        .iter()
        .enumerate()
        .filter(|&(i, h)| !names(&held[..i], h.entry.fed.owner))
        .take(k)
        .count();
    owners < k
}

// Whether one of the cluster's records is the owner's.
pub(crate) fn has_owner(held: &[Held], label: u32, owner: u32) -> bool
    ensures { result ≡ listed owner (rules.owners (rules.members label held.now)) }
{
    // The owner first, which is the rarer.
    held.iter()
        .any(|h| h.entry.fed.owner == owner && h.label == label)
}

// How many owners the cluster's records have.
pub(crate) fn count_owners(held: &[Held], label: u32) -> usize
    ensures value { result ≡ rules.size (rules.members label held.now) }
    ensures within { result ≤ length held.now }
{
    // An owner counts at his earliest record.
    held.iter()
        .enumerate()
        .filter(|&(i, h)| h.label == label && !has_owner(&held[..i], label, h.entry.fed.owner))
        .count()
}

// The box, widened to cover the values; where there is none yet, the values' own.
pub fn widened<D: Domain>(
    d: &D,
    bounds: Option<[Range; PLACES]>,
    values: &[u32; PLACES],
) -> [Range; PLACES]
    ensures { result ≡ widened (D.meaning d.now) bounds values.now }
{
    match bounds {
        Some(mut bounds) => {
            widen(d, &mut bounds, values);
            bounds
        }
        None => point_box(d, values),
    }
}

// The least box that covers the cluster's records; of none, unused ranges.
pub(crate) fn box_of<D: Domain>(d: &D, held: &[Held], label: u32) -> [Range; PLACES]
    ensures { result ≡ rules.box_of (D.meaning d.now) (rules.members label held.now) }
{
    held.iter()
        .filter(|h| h.label == label)
        .fold(None, |bounds, h| {
            Some(widened(d, bounds, &h.entry.fed.values))
        })
        .unwrap_or([Range::point(0); PLACES])
}

// The cluster's row in the table.
pub(crate) fn cluster_of<D: Domain>(d: &D, held: &[Held], label: u32) -> Cluster
    ensures { result ≡ cluster_of (D.meaning d.now) held.now label }
{
    let bounds = box_of(d, held, label);
    Cluster {
        label,
        size: count_owners(held, label),
        loss: box_loss(d, &bounds),
        bounds,
    }
}

ghost use Rattle.std.specs.Prelude.{◌≡◌, ◌<◌, ◌≤◌, ◌⊎◌, length, None, MatchOption, ◌≢◌};
ghost use Rattle.choice.specs.Choices.{Joins};
ghost use Rattle.choice.specs.Offers.{rise_of};

use crate::losses::loss_joined;
use domain::Domain;
use pool::Cluster;

// The place of a cluster that may join another, and by how much it then raises the loss.
#[derive(Clone, Copy)]
struct Rise {
    place: usize,
    raise: u32,
}

impl Rise {
    fn of<D: Domain>(d: &D, own: &Cluster, place: usize, other: &Cluster) -> Rise
        ensures { result ≡ rise_of (D.meaning d.now) own.now place other.now }
    {
        let loss = loss_joined(d, &own.bounds, |i| other.bounds[i]);
        Rise {
            place,
            raise: loss.saturating_sub(own.loss),
        }
    }
}

// The place of the cluster whose joining raises the loss of the one at `at` least, the oldest of equals.
pub fn easiest<D: Domain>(d: &D, clusters: &[Cluster], at: usize) -> Option<usize>
    ensures other { MatchOption result ((length clusters.now ≤ 1) ⊎ (length clusters.now ≤ at)) (λ j. (j < length clusters.now) × (j ≢ at)) }
    ensures outside { length clusters.now ≤ at → result ≡ None }
    ensures rule { Joins (D.meaning d.now) clusters.now at result }
{
    let own = clusters.get(at)?;
    clusters
        .iter()
        .enumerate()
        .filter(|&(place, _)| place != at)
        .map(|(place, other)| Rise::of(d, own, place, other))
        .min_by_key(|x| x.raise)
        .map(|x| x.place)
}

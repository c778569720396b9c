ghost use Rattle.std.specs.Prelude.{◌≡◌, ◌<◌, ◌⊎◌, length, IfSome, IfNone};
ghost use Rattle.choice.specs.Choices.{Takes};
ghost use Rattle.choice.specs.Offers as weighing;
ghost use Rattle.choice.specs.Offers.{offer_of, offers, best_of};

use crate::loss_with;
use domain::{Domain, PLACES};
use ledger::Mean;
use pool::Cluster;

// What a cluster would be as the taker of a record: its place and size, by how much the record raises its loss, and
// whether the loss is then at most the mean.
#[derive(Clone, Copy)]
struct Offer {
    place: usize,
    size: usize,
    raise: u32,
    fits: bool,
}

impl Offer {
    fn of<D: Domain>(
        d: &D,
        mean: Mean,
        values: &[u32; PLACES],
        place: usize,
        cluster: &Cluster,
    ) -> Offer
        ensures { result ≡ offer_of (D.meaning d.now) mean values.now place cluster.now }
    {
        let loss = loss_with(d, cluster, values);
        Offer {
            place,
            size: cluster.size,
            raise: loss.saturating_sub(cluster.loss),
            fits: mean.is_at_least(loss),
        }
    }
}

// Of the offers that raise the loss least, the smallest that fits, or the smallest if none does. The first of equals.
fn best_offer<D: Domain>(
    d: &D,
    clusters: &[Cluster],
    mean: Mean,
    values: &[u32; PLACES],
) -> Option<Offer>
    ensures { result ≡ best_of (offers (D.meaning d.now) mean values.now clusters.now) }
{
    clusters
        .iter()
        .enumerate()
        .map(|(place, cluster)| Offer::of(d, mean, values, place, cluster))
        .min_by_key(|x| (x.raise, !x.fits, x.size))
}

// A new cluster is rather opened than one taken that does not fit, where there is room.
fn decide(best: Option<Offer>, room: bool) -> Option<usize>
    ensures { result ≡ weighing.decided room best }
{
    best.filter(|x| x.fits || !room).map(|x| x.place)
}

// The place of the open cluster that takes a record, or none if a new one does.
pub fn taker<D: Domain>(
    d: &D,
    clusters: &[Cluster],
    mean: Mean,
    beta: u32,
    values: &[u32; PLACES],
) -> Option<usize>
    ensures within { IfSome result (λ i. i < length clusters.now) }
    ensures room { IfNone result ((length clusters.now < beta) ⊎ (length clusters.now ≡ 0)) }
    ensures home { Takes (D.meaning d.now) clusters.now mean beta values.now result }
{
    let best = best_offer(d, clusters, mean, values);
    decide(best, clusters.len() < beta as usize)
}

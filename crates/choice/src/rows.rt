ghost use Rattle.std.specs.Prelude.{◌≡◌, ℕ, ◌≤◌, List, length, filter, nat_lt};
ghost use Rattle.domain.specs.Meaning.{Meaning};
ghost use Rattle.rules.specs.declared.Held.{Held};
ghost use Rattle.rules.specs.Clusters as clustering;
ghost use Rattle.rules.specs.Turn as turn;
ghost use Rattle.pool.specs.Tables.{table};

use pool::Cluster;

// How many clusters have more owners than `size`.
pub fn larger(clusters: &[Cluster], size: usize) -> usize
    ensures count { result ≡ length (filter (λ x. nat_lt size x.size) clusters.now) }
    ensures few { result ≤ length clusters.now }
    ensures rule { (m : Meaning) (hs : List Held) (c : ℕ) → clusters.now ≡ table m hs → size ≡ clustering.size (clustering.members c hs) → result ≡ turn.larger c hs }
{
    // By a loop with the count as its invariant: it is read beside the rule that counts them.
    let mut n = 0;
    for cluster in clusters {
        if cluster.size > size {
            n += 1;
        }
    }
    n
}

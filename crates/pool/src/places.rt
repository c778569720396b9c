ghost use Rattle.std.specs.Prelude.{◌≡◌, ◌<◌, true, List, length, is_some, MatchOption};
ghost use Rattle.domain.specs.Meaning.{Meaning};
ghost use Rattle.rules.specs.declared.Held.{Held};
ghost use Rattle.rules.specs.Choosing.{In};
ghost use Rattle.pool.specs.Places.{place_of, Finds};
ghost use Rattle.pool.specs.Tables.{labels, label_at, table};

use crate::Cluster;

// The place of the cluster with that label.
pub fn find(clusters: &[Cluster], label: u32) -> Option<usize>
    ensures value { result ≡ place_of label clusters.now }
    ensures first { Finds clusters.now label result }
    ensures found { In (labels clusters.now) label → MatchOption result ⊥ (λ i. (i < length clusters.now) × (label_at clusters.now i ≡ label)) }
    ensures held { (m : Meaning) (hs : List Held) (h : Held) → clusters.now ≡ table m hs → In hs h → h.label ≡ label → is_some result ≡ true }
{
    // From the first on: in a pool labels ascend, but not in every list.
    clusters.iter().position(|x| x.label == label)
}

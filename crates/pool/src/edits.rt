// Single passes over the two lists of a pool. None asks for memory.
ghost use Rattle.std.specs.Prelude.{◌≡◌, map, vec_capacity};
ghost use Rattle.rules.specs.Turn.{merged};
ghost use Rattle.pool.specs.Changes.{replaced};

use crate::Cluster;
use rules::Held;

// The records of one cluster go over to another.
pub(crate) fn relabel(held: &mut Vec<Held>, to: u32, from: u32)
    ensures items { held.new.items ≡ merged to from held.old.items }
    ensures memory { vec_capacity held.new ≡ vec_capacity held.old }
{
    for h in held.iter_mut() {
        if h.label == from {
            h.label = to;
        }
    }
}

// The row takes the place of its cluster's.
pub(crate) fn put_row(clusters: &mut Vec<Cluster>, row: Cluster)
    ensures items { clusters.new.items ≡ map (replaced row) clusters.old.items }
    ensures memory { vec_capacity clusters.new ≡ vec_capacity clusters.old }
{
    for x in clusters.iter_mut() {
        if x.label == row.label {
            *x = row;
        }
    }
}

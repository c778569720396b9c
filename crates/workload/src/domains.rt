// The domains of the workloads.
ghost use Rattle.std.specs.Prelude.{◌≡◌, IfOk};
ghost use Rattle.domain.specs.Interval.{interval_of, interval_meaning};
ghost use Rattle.taxonomy.specs.Examples.{two_groups};
ghost use Rattle.taxonomy.specs.Taxonomy.{leaves_of, groups_of};
ghost use Rattle.workload.specs.Domains.{Thousands};

use domain::{Interval, Pair};
use std::alloc::Global;
use taxonomy::examples::halves;
use taxonomy::{Taxonomy, TaxonomyFault};

pub type Two = Pair<Interval, Taxonomy>;

pub type Three = Pair<Pair<Interval, Interval>, Interval>;

pub type Six = Pair<Three, Three>;

// A width in decimetres, up to 100, and a model, one of eight in two halves.
pub fn two(heap: Global) -> Result<Two, TaxonomyFault>
    ensures { IfOk result (λ d. (interval_of d.left ≡ interval_meaning 0 100) × (leaves_of d.right ≡ 8) × (groups_of d.right ≡ two_groups)) }
{
    let right = halves(heap)?;
    Ok(Pair {
        left: Interval::up_to(100),
        right,
    })
}

fn three() -> Three
    ensures { Thousands result }
{
    Pair {
        left: Pair {
            left: Interval::up_to(1000),
            right: Interval::up_to(1000),
        },
        right: Interval::up_to(1000),
    }
}

// Six attributes, each up to 1,000.
pub fn six() -> Six
    ensures { (Thousands result.left) × (Thousands result.right) }
{
    Pair {
        left: three(),
        right: three(),
    }
}

ghost use Rattle.std.specs.Prelude.{◌≡◌, IfOk, IsOkUnless};
ghost use Rattle.taxonomy.specs.Examples.{Examples, two_groups};
ghost use Rattle.taxonomy.specs.Taxonomy.{leaves_of, groups_of};

use crate::{Taxonomy, TaxonomyFault};
use domain::Range;
use std::alloc::Global;

// Eight leaves in two halves, which the table of examples is about.
pub fn halves(heap: Global) -> Result<Taxonomy, TaxonomyFault>
    ensures made { IfOk result (λ t. (leaves_of t ≡ 8) × (groups_of t ≡ two_groups)) }
    ensures refused { IsOkUnless result TaxonomyFault.Memory }
    ensures table { Examples }
{
    let mut t = Taxonomy::new(heap, 8)?;
    t.add(Range { low: 0, high: 3 }).unwrap();
    t.add(Range { low: 4, high: 7 }).unwrap();
    Ok(t)
}

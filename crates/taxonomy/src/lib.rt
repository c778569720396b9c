// Taxonomies: a tree of leaves, with groups that are nested.
#![tactic(auto)]

ghost use Rattle.std.specs.Prelude.{◌≡◌, ◌≤◌, true, vec_len, vec_capacity};
ghost use Rattle.taxonomy.specs.Groups.{most_leaves, most_groups, well_nested};

use domain::Range;

mod calls;
pub mod examples;

pub use calls::{GroupFault, TaxonomyFault};

pub const MOST_LEAVES: u32 = 256;

pub const MOST_GROUPS: usize = 32;

// The leaves 0 to `leaves - 1` and groups of them, with room for as many groups as there may be.
#[derive(Drop)]
pub struct Taxonomy {
    leaves: u32,
    groups: Vec<Range>,
    ghost limits: { (1 ≤ leaves) × (leaves ≤ most_leaves) },
    ghost sound: { well_nested leaves groups.items ≡ true },
    ghost few: { vec_len groups ≤ most_groups },
    ghost room: { most_groups ≤ vec_capacity groups },
}

#[cfg(test)]
mod tests;

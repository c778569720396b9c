ghost use Rattle.std.specs.Prelude.{◌≡◌, true, [], ◌∷◌, ◌++◌, IfOk, MatchResult};
ghost use Rattle.domain.specs.Boxes.{all_pass};
ghost use Rattle.domain.specs.Meaning.{share};
ghost use Rattle.domain.specs.declared.range.Range.{Range};
ghost use Rattle.std.specs.Result.{result_err};
ghost use Rattle.taxonomy.specs.Cover as covers;
ghost use Rattle.taxonomy.specs.Groups.{whole, nested, among, allowed};
ghost use Rattle.taxonomy.specs.Refusals.{leaf_count, Why, fault_of, taxonomy_number, group_number};
ghost use Rattle.taxonomy.specs.Taxonomy.{leaves_of, groups_of, taxonomy_of};
ghost use Rattle.domain.specs.JoinsLemmas as Joins;

use crate::{MOST_GROUPS, MOST_LEAVES, Taxonomy};
use domain::{Domain, Interval, Range};
use std::alloc::Global;
use thiserror::Error;

// Why no taxonomy was made.
#[derive(Debug, Clone, Copy, PartialEq, Eq, Error)]
pub enum TaxonomyFault {
    #[error("a taxonomy has 1 to 256 leaves")]
    LeafCount,
    #[error("there is no memory for the taxonomy's groups")]
    Memory,
}

impl TaxonomyFault {
    // Want of memory has none.
    pub fn number(self) -> Option<u32>
        ensures { result ≡ taxonomy_number self }
    {
        match self {
            TaxonomyFault::LeafCount => Some(4),
            TaxonomyFault::Memory => None,
        }
    }
}

// Why a group was not added.
#[derive(Debug, Clone, Copy, PartialEq, Eq, Error)]
pub enum GroupFault {
    #[error("a group takes in two or more leaves of the taxonomy, and must be new to it")]
    NoNewGroup,
    #[error("the group overlaps another in part")]
    Overlaps,
    #[error("the taxonomy has 32 groups, and takes no more")]
    Full,
}

impl GroupFault {
    pub fn number(self) -> u32
        ensures { result ≡ group_number self }
    {
        match self {
            GroupFault::NoNewGroup => 5,
            GroupFault::Overlaps => 6,
            GroupFault::Full => 7,
        }
    }
}

fn are_nested(a: Range, b: Range) -> bool
    ensures { result ≡ nested a b }
{
    a.is_inside(b) || b.is_inside(a) || a.high < b.low || b.high < a.low
}

// `g` if it contains both `a` and `b` and is narrower than `best`, else `best`.
fn narrower(a: Range, b: Range, best: Range, g: Range) -> Range
    ensures { result ≡ covers.narrower a b best g }
{
    if a.is_inside(g) && b.is_inside(g) && g.is_inside(best) {
        g
    } else {
        best
    }
}

impl Taxonomy {
    // A tree of `leaves` leaves without groups.
    pub fn new(heap: Global, leaves: u32) -> Result<Taxonomy, TaxonomyFault>
        ensures made { IfOk result (λ t. (leaves_of t ≡ leaves) × (groups_of t ≡ [])) }
        ensures refused { MatchResult result (λ _. leaf_count leaves ≡ true) (λ e. Why e leaves) }
    {
        if leaves == 0 || leaves > MOST_LEAVES {
            return Err(TaxonomyFault::LeafCount);
        }
        let groups = Vec::with_capacity(heap, MOST_GROUPS).map_err(|_| TaxonomyFault::Memory)?;
        Ok(Taxonomy { leaves, groups })
    }

    fn whole(&self) -> Range
        ensures { result ≡ whole (leaves_of self.now) }
    {
        Range {
            low: 0,
            high: self.leaves - 1,
        }
    }

    fn has_group(&self, a: Range) -> bool
        ensures { result ≡ among a (groups_of self.now) }
    {
        self.groups.contains(&a)
    }

    // Whether the range is a leaf, the whole tree or a group.
    pub fn allows(&self, a: Range) -> bool
        ensures value { result ≡ allowed (leaves_of self.now) (groups_of self.now) a }
        ensures nests { result ≡ true → (b : Range) → allowed (leaves_of self.now) (groups_of self.now) b ≡ true → nested a b ≡ true }
    {
        a.low <= a.high
            && a.high < self.leaves
            && (a.low == a.high || a == self.whole() || self.has_group(a))
    }

    fn nests(&self, group: Range) -> bool
        ensures { result ≡ all_pass (λ h. nested h group) (groups_of self.now) }
    {
        self.groups.iter().all(|g| are_nested(*g, group))
    }

    // Adds a group, or says why not, and then leaves the taxonomy as it is.
    pub fn add(&mut self, group: Range) -> Result<(), GroupFault>
        ensures verdict { result_err result ≡ fault_of (leaves_of self.old) (groups_of self.old) group }
        ensures after { MatchResult result (λ _. (leaves_of self.new ≡ leaves_of self.old) × (groups_of self.new ≡ groups_of self.old ++ (group ∷ []))) (λ _. self.new ≡ self.old) }
    {
        if group.low >= group.high || group.high >= self.leaves || self.allows(group) {
            return Err(GroupFault::NoNewGroup);
        }
        if !self.nests(group) {
            return Err(GroupFault::Overlaps);
        }
        if self.groups.len() >= MOST_GROUPS {
            return Err(GroupFault::Full);
        }
        self.groups.push_reserved(group);
        Ok(())
    }

    // The narrowest allowed range that contains two that are allowed.
    fn cover(&self, a: Range, b: Range) -> Range
        ensures { result ≡ covers.cover (leaves_of self.now) (groups_of self.now) a b }
    {
        if b.is_inside(a) {
            a
        } else {
            self.groups
                .iter()
                .fold(self.whole(), |best, g| narrower(a, b, best, *g))
        }
    }

    // The loss of an allowed range, which is that in the interval of the leaves.
    fn share(&self, a: Range) -> u32
        ensures { allowed (leaves_of self.now) (groups_of self.now) a ≡ true → result ≡ share (whole (leaves_of self.now)) a }
    {
        Interval::up_to(self.leaves - 1).loss(0, a)
    }
}

// By hand, as `Interval` is a domain.
impl Domain for Taxonomy {
    ghost meaning = { taxonomy_of };

    ghost semilattice = { λ x i. Joins.semilattice _ };

    fn width(&self) -> usize {
        1
    }

    fn admits(&self, i: usize, v: u32) -> bool {
        i == 0 && v < self.leaves
    }

    fn join(&self, i: usize, a: Range, b: Range) -> Range {
        if i == 0 && self.allows(a) && self.allows(b) {
            self.cover(a, b)
        } else {
            a
        }
    }

    fn loss(&self, i: usize, a: Range) -> u32 {
        if i == 0 && self.allows(a) {
            self.share(a)
        } else {
            0
        }
    }
}

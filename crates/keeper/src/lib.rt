// The keeper of the least: n places hold the n items of least rank among those given, and of equal ranks the earlier.
//
// A keeper is a slice that its owner lends to each call. It begins with `clear`; `offer` gives it an item; `items` reads
// what it holds, in order of rank. Of places that were never cleared only what is said without `Keeps` is promised.
#![tactic(auto)]

ghost use Rattle.std.specs.Prelude.{◌≡◌, ℕ, ◌<◌, ◌≤◌, min, true, false, List, [], length, take, position, replicate, Some};
ghost use Rattle.std.specs.Option.{option_to_list};
ghost use Rattle.std.specs.List.{AllByRecursion};
ghost use Rattle.keeper.specs.Keeping.{Keeps, Takes, Reads, count_in, items_in};
ghost use Rattle.keeper.specs.Leasts.{Computes};
ghost use Rattle.keeper.specs.Ranks.{lower};
ghost use Rattle.keeper.specs.declared.Rank.{Rank};
ghost use Rattle.std.proofs.Common.{rules};

use std::mem;

// Compared by the first number and then by the second.
#[derive(Clone, Copy, PartialEq, Eq, PartialOrd, Ord, Debug)]
pub struct Rank {
    pub first: u32,
    pub second: u32,
}

impl Rank {
    pub fn is_below(self, other: Rank) -> bool
        ensures { result ≡ lower self other }
    {
        self < other
    }
}

// A kind of item that has a rank.
pub trait Ranked: Copy {
    // Stands in each free place.
    const EMPTY: Self;

    ghost rank: { Self → Rank };

    // `EMPTY`, as a clause can name it.
    ghost empty: { Self };

    // What may be given.
    ghost offerable: { Self → Type 0 };

    // `EMPTY`: no proof over every kind can see the value of a constant, so each kind returns its own here.
    fn mark() -> Self
        ensures { result ≡ empty };

    fn rank(&self) -> Rank
        ensures { result ≡ rank self.now };

    // Each kind owes that its empty mark ranks above all of these.
    ghost above: { (x : Self) → offerable x → lower (rank x) (rank empty) ≡ true };
}

fn ranks_below<T: Ranked>(a: &T, b: &T) -> bool
    ensures { result ≡ lower (T.rank a.now) (T.rank b.now) }
{
    a.rank().is_below(b.rank())
}

// The empty mark is no item, nor is what ranks no lower.
fn is_item<T: Ranked>(x: &T) -> bool
    ensures { result ≡ lower (T.rank x.now) (T.rank T.empty) }
{
    ranks_below(x, &T::mark())
}

// Where the item belongs: at the first place that ranks above it.
fn place_for<T: Ranked>(places: &[T], item: &T) -> Option<usize>
    ensures { result ≡ position (λ x. lower (T.rank item.now) (T.rank x)) places.now }
{
    places.iter().position(|place| ranks_below(item, place))
}

// Makes the places a keeper to which nothing was given.
pub fn clear<T: Ranked>(places: &mut [T])
    ensures fills { places.new ≡ replicate (length places.old) T.empty }
    ensures keeps { Keeps T.rank T.empty places.new [] }
{
    // Not by `fill`, which clones: a kind promises nothing of its clones.
    for place in places {
        *place = T::mark();
    }
}

// Gives the keeper an item, and hands back the one that goes without a place, if any: the item itself or one that was held.
// What ranks no lower than the empty mark is no item, and is handed back.
pub fn offer<T: Ranked>(places: &mut [T], item: T) -> Option<T>
    ensures takes { lower (T.rank item) (T.rank T.empty) ≡ true → (given : List T) → Keeps T.rank T.empty places.old given → Takes T.rank T.empty given places.old item places.new (option_to_list result) }
    ensures finds_no_place { AllByRecursion (λ x. lower (T.rank item) (T.rank x) ≡ false) places.old → (places.new ≡ places.old) × (result ≡ Some item) }
    ensures no_item { lower (T.rank item) (T.rank T.empty) ≡ false → (places.new ≡ places.old) × (result ≡ Some item) }
    ensures every_item { T.offerable item → lower (T.rank item) (T.rank T.empty) ≡ true }
{
    if !is_item(&item) {
        return Some(item);
    }
    match place_for(places, &item) {
        Some(at) => {
            // Those from there on move on by one, equals too, and the last goes without a place.
            places[at..].rotate_right(1);
            let out = mem::replace(&mut places[at], item);
            is_item(&out).then_some(out)
        }
        None => Some(item),
    }
}

// How many items the keeper holds: that many places, from the first on.
pub fn held<T: Ranked>(places: &[T]) -> usize
    ensures counts { result ≡ count_in T.rank T.empty places.now }
    ensures within { result ≤ length places.now }
    ensures keeps { (given : List T) → Keeps T.rank T.empty places.now given → result ≡ min (length places.now) (length given) }
    ensures reads { (given : List T) → Keeps T.rank T.empty places.now given → Reads T.rank T.empty given places.now (take result places.now) }
    ensures computes { (by : T → Rank) (n : ℕ) (xs : List T) → Computes by n xs }
{
    places.iter().take_while(|place| is_item(*place)).count()
}

// The items held, in order of rank.
pub fn items<T: Ranked>(places: &[T]) -> &[T]
    ensures front { result.now ≡ items_in T.rank T.empty places.now }
    ensures reads { (given : List T) → Keeps T.rank T.empty places.now given → Reads T.rank T.empty given places.now result.now }
    ensures computes { (by : T → Rank) (n : ℕ) (xs : List T) → Computes by n xs }
{
    &places[..held(places)]
}

#[cfg(test)]
mod tests {
    use super::*;

    #[derive(Clone, Copy, PartialEq)]
    struct Parcel {
        weight: u32,
        shelf: u32,
        label: u8,
    }

    impl Ranked for Parcel {
        const EMPTY: Parcel = Parcel {
            weight: u32::MAX,
            shelf: u32::MAX,
            label: 0,
        };

        ghost rank = { λ p. record { first = p.weight; second = p.shelf } };

        ghost empty = { record { weight = 4294967295; shelf = 4294967295; label = 0 } };

        ghost offerable = { λ p. p.weight < 4294967295 };

        ghost above = { Prim.search rules };

        fn mark() -> Parcel {
            Parcel::EMPTY
        }

        fn rank(&self) -> Rank {
            Rank {
                first: self.weight,
                second: self.shelf,
            }
        }
    }

    const HEAVY: Parcel = Parcel {
        weight: 9,
        shelf: 1,
        label: 1,
    };

    const FIRST: Parcel = Parcel {
        weight: 4,
        shelf: 2,
        label: 2,
    };

    const TWIN: Parcel = Parcel {
        weight: 4,
        shelf: 2,
        label: 3,
    };

    const LOW_SHELF: Parcel = Parcel {
        weight: 4,
        shelf: 1,
        label: 4,
    };

    #[test]
    fn fewer_items_than_places(rt: HostRuntime) {
        let mut places = [HEAVY; 3];
        clear(&mut places);
        let _ = offer(&mut places, FIRST);
        let _ = offer(&mut places, LOW_SHELF);
        assert!(rt; items(&places) == [LOW_SHELF, FIRST].as_slice());
    }

    // Four items for two places.
    #[test]
    fn of_equal_ranks_the_earlier(rt: HostRuntime) {
        let mut places = [FIRST, HEAVY];
        assert!(rt; offer(&mut places, TWIN) == Some(HEAVY));
        assert!(rt; offer(&mut places, LOW_SHELF) == Some(TWIN));
        assert!(rt; places == [LOW_SHELF, FIRST]);
    }

    #[test]
    fn one_place(rt: HostRuntime) {
        let mut places = [FIRST];
        assert!(rt; offer(&mut places, TWIN) == Some(TWIN));
    }

    #[test]
    fn no_place(rt: HostRuntime) {
        assert!(rt; offer(&mut [], FIRST) == Some(FIRST));
    }
}

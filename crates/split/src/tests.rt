ghost use Rattle.std.specs.Prelude.{◌≡◌, T, length};
ghost use Rattle.split.specs.Splitters.{parts_in};

use super::*;
use domain::Interval;
use pool::Cluster;
use release::Record;
use rules::{Entry, Held};
use std::test::Fail;

// A record of the cluster that record 1 opened.
fn at(position: u32, owner: u32, value: u32) -> Held
    ensures { result.label ≡ 1 }
{
    Held {
        entry: Entry {
            position,
            fed: Record {
                owner,
                values: [value, 0, 0, 0, 0, 0],
                reading: 0,
            },
        },
        label: 1,
    }
}

// Of a cluster that is split only label and size count.
fn cluster(size: usize) -> Cluster
    ensures { result.size ≡ size }
{
    Cluster {
        label: 1,
        size,
        loss: 0,
        bounds: [Range::point(0); PLACES],
    }
}

// The first range of each of two parts.
fn is_split_in(s: &Splitter, a: Range, b: Range) -> bool
    ensures { T result → length (parts_in s.now) ≡ 2 }
{
    match s.parts() {
        [p, q] => p.bounds[0] == a && q.bounds[0] == b,
        _ => false,
    }
}

#[test]
fn two_and_two(rt: HostRuntime) -> Result<(), Fail> {
    let mut s = Splitter::reserve(rt.alloc())?;
    let held = [at(1, 1, 10), at(2, 2, 30), at(3, 3, 11), at(4, 4, 31)];
    s.part(&Interval::up_to(100), &held, &cluster(4), 2);
    assert!(rt; is_split_in(&s, Range { low: 10, high: 11 }, Range { low: 30, high: 31 }));
    Ok(())
}

// The leftover owner brings both of his records.
#[test]
fn a_fifth(rt: HostRuntime) -> Result<(), Fail> {
    let mut s = Splitter::reserve(rt.alloc())?;
    let held = [
        at(1, 1, 10),
        at(2, 2, 30),
        at(3, 3, 11),
        at(4, 4, 31),
        at(5, 5, 20),
        at(6, 5, 22),
    ];
    s.part(&Interval::up_to(100), &held, &cluster(5), 2);
    assert!(rt; is_split_in(&s, Range { low: 10, high: 22 }, Range { low: 30, high: 31 }));
    let places = s.members().iter().map(|member| member.part);
    assert!(rt; places.eq([Some(0), Some(1), Some(0), Some(1), Some(0), Some(0)]));
    Ok(())
}

#[test]
fn too_many(rt: HostRuntime) -> Result<(), Fail> {
    let mut s = Splitter::reserve(rt.alloc())?;
    let held = [at(1, 1, 10); 257];
    s.part(&Interval::up_to(100), &held, &cluster(1), 2);
    assert!(rt; s.parts().is_empty());
    Ok(())
}

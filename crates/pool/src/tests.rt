ghost use Rattle.std.specs.Prelude.{◌≡◌, ◌≤◌, IfOk, vec_len};
ghost use Rattle.rules.specs.Clusters.{owner};
ghost use Rattle.pool.specs.Tables.{Roomy};

use super::*;
use domain::{Domain, Interval};
use release::Record;
use rules::Entry;
use std::alloc::{AllocError, Global};
use std::test::Fail;

// A record with one value.
fn record(position: u32, name: u32, value: u32) -> Entry
    ensures place { result.position ≡ position }
    ensures named { owner result ≡ name }
{
    Entry {
        position,
        fed: Record {
            owner: name,
            values: [value, 0, 0, 0, 0, 0],
            reading: 0,
        },
    }
}

// The table's row at a place, as label, size and loss; zeros past the end.
fn row(pool: &Pool, at: usize) -> (u32, usize, u32)
    ensures { vec_len pool.now.clusters ≤ at → result ≡ (0, 0, 0) }
{
    match pool.clusters.as_slice().get(at) {
        Some(x) => (x.label, x.size, x.loss),
        None => (0, 0, 0),
    }
}

// A cluster of two owners with three records, and one of a fourth record.
fn two_clusters(heap: Global, d: &Interval) -> Result<Pool, AllocError>
    ensures { IfOk result Roomy }
{
    let mut pool = Pool::reserve(heap)?;
    pool.open_cluster(d, record(1, 7, 2));
    pool.join(d, 0, record(2, 7, 3));
    pool.join(d, 0, record(3, 8, 6));
    pool.open_cluster(d, record(4, 9, 10));
    Ok(pool)
}

#[test]
fn a_known_owner_does_not_count_again(rt: HostRuntime) -> Result<(), Fail> {
    let pool = two_clusters(rt.alloc(), &Interval::up_to(10))?;
    assert_eq!(rt; row(&pool, 0), (1, 2, 4000));
    assert!(rt; pool.names_fewer(4) && !pool.names_fewer(3));
    Ok(())
}

#[test]
fn the_last_record_closes_its_cluster(rt: HostRuntime) -> Result<(), Fail> {
    let d = Interval::up_to(10);
    let mut pool = two_clusters(rt.alloc(), &d)?;
    pool.leave(&d, 3);
    assert_eq!(rt; pool.place_of(4), None);
    pool.leave(&d, 0);
    assert_eq!(rt; row(&pool, 0), (1, 2, 3000));
    Ok(())
}

#[test]
fn the_younger_takes_over_the_older(rt: HostRuntime) -> Result<(), Fail> {
    let d = Interval::up_to(10);
    let mut pool = two_clusters(rt.alloc(), &d)?;
    pool.merge(&d, 1, 0);
    assert_eq!(rt; row(&pool, 0), (4, 3, 8000));
    pool.close_cluster(4);
    assert!(rt; pool.held.is_empty() && pool.clusters.is_empty());
    Ok(())
}

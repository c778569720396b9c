use super::*;
use domain::{Interval, Range};
use ledger::Mean;
use pool::Cluster;

const NONE: Range = Range { low: 0, high: 0 };

const LOW: Cluster = Cluster {
    label: 1,
    size: 2,
    loss: 3333,
    bounds: [Range { low: 0, high: 1 }, NONE, NONE, NONE, NONE, NONE],
};

const MIDDLE: Cluster = Cluster {
    label: 4,
    size: 1,
    loss: 3333,
    bounds: [Range { low: 1, high: 2 }, NONE, NONE, NONE, NONE, NONE],
};

const HIGH: Cluster = Cluster {
    label: 9,
    size: 1,
    loss: 0,
    bounds: [Range { low: 3, high: 3 }, NONE, NONE, NONE, NONE, NONE],
};

#[test]
fn places_and_counts(rt: HostRuntime) {
    let clusters = [LOW, MIDDLE, HIGH];
    assert_eq!(rt; find(&clusters, 4), Some(1));
    assert_eq!(rt; find(&clusters, 5), None);
    assert_eq!(rt; larger(&clusters, 1), 1);
    assert_eq!(rt; larger(&clusters, 2), 0);
}

#[test]
fn losses(rt: HostRuntime) {
    let d = Interval::up_to(3);
    assert_eq!(rt; loss_with(&d, &LOW, &[1, 0, 0, 0, 0, 0]), 3333);
    assert_eq!(rt; loss_with(&d, &LOW, &[2, 0, 0, 0, 0, 0]), 6666);
}

// A record that two clusters cover.
#[test]
fn takers(rt: HostRuntime) {
    let d = Interval::up_to(3);
    let clusters = [LOW, MIDDLE, HIGH];
    let values = [1, 7, 7, 7, 7, 7];
    let mean = Mean {
        sum: 3333,
        count: 1,
    };
    let none = Mean { sum: 0, count: 1 };
    // both fit
    assert_eq!(rt; taker(&d, &clusters, mean, 3, &values), Some(1));
    assert_eq!(rt;
        taker(&d, &[MIDDLE, HIGH, LOW, MIDDLE], mean, 4, &values),
        Some(0)
    );
    // none fits
    assert_eq!(rt; taker(&d, &clusters, none, 4, &values), None);
    assert_eq!(rt; taker(&d, &clusters, none, 3, &values), Some(1));
    assert_eq!(rt; taker(&d, &[], mean, 1, &values), None);
}

#[test]
fn joining(rt: HostRuntime) {
    let d = Interval::up_to(3);
    let clusters = [LOW, MIDDLE, HIGH];
    assert_eq!(rt; easiest(&d, &clusters, 0), Some(1));
    // both raise it alike
    assert_eq!(rt; easiest(&d, &clusters, 1), Some(0));
    assert_eq!(rt; easiest(&d, &clusters, 3), None);
    assert_eq!(rt; easiest(&d, &[LOW], 0), None);
}

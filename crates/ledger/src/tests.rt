ghost use Rattle.std.specs.Prelude.{◌≡◌, ◌+◌, min};
ghost use Rattle.ledger.specs.Ledgers.{ledger_boxes};

use super::*;
use domain::{Interval, PLACES, Range, box_loss};
use std::test::Fail;

// Enters the box of that range; a hundredth of the interval loses 100.
fn release(l: &mut Ledger, d: &Interval, low: u32, high: u32) -> u32
    ensures { result ≡ min ((ledger_boxes l.old).made + 1) 4294967295 }
{
    let mut bounds = [Range::point(0); PLACES];
    bounds[0] = Range { low, high };
    let loss = box_loss(d, &bounds);
    l.enter(&bounds, loss)
}

// The box that is released, and the one that then covers the value: its number, or 0.
struct Step {
    low: u32,
    high: u32,
    value: u32,
    covered: u32,
}

// Two losses in the mean, and two places.
const STEPS: [Step; 6] = [
    // 5000 is the mean itself.
    Step {
        low: 0,
        high: 50,
        value: 5,
        covered: 0,
    },
    // 1000 is below 3000.
    Step {
        low: 0,
        high: 10,
        value: 5,
        covered: 2,
    },
    // 2000 is above 1500: the first loss has left.
    Step {
        low: 0,
        high: 20,
        value: 15,
        covered: 0,
    },
    // 100 ranks lower than 1000.
    Step {
        low: 5,
        high: 6,
        value: 5,
        covered: 4,
    },
    Step {
        low: 0,
        high: 50,
        value: 10,
        covered: 2,
    },
    // Of 100 and 100 the lower number.
    Step {
        low: 4,
        high: 5,
        value: 5,
        covered: 4,
    },
];

#[test]
fn kept_if_strictly_below_the_mean(rt: HostRuntime) -> Result<(), Fail> {
    let d = Interval::up_to(100);
    let mut l = Ledger::reserve(rt.alloc(), 2, 2)?;
    for s in &STEPS {
        release(&mut l, &d, s.low, s.high);
        let covered = match l.cover(&d, &[s.value, 0, 0, 0, 0, 0]) {
            Some(kept) => kept.number,
            None => 0,
        };
        assert!(rt; covered == s.covered);
    }
    // 1000 has no place left.
    assert!(rt; l.cover(&d, &[10, 0, 0, 0, 0, 0]).is_none());
    assert!(rt; l.mean().sum == 5100 && l.mean().count == 2);
    Ok(())
}

#[test]
fn no_window_and_no_place(rt: HostRuntime) -> Result<(), Fail> {
    let d = Interval::up_to(100);
    let mut l = Ledger::reserve(rt.alloc(), 0, 0)?;
    assert!(rt; release(&mut l, &d, 0, 50) == 1);
    assert!(rt; l.cover(&d, &[5, 0, 0, 0, 0, 0]).is_none());
    assert!(rt; l.mean().sum == 0 && l.mean().count == 1);
    Ok(())
}

use super::*;
use std::test::Fail;

#[test]
fn intervals(rt: HostRuntime) -> Result<(), Fail> {
    assert!(rt; Interval::new(4, 3).is_err());
    let four = Interval::new(0, 3)?;
    assert_eq!(rt; four.loss(0, Range { low: 0, high: 1 }), 3333);
    assert_eq!(rt; four.loss(0, Range { low: 2, high: 4 }), 0);
    assert_eq!(rt; Interval::new(5, 5)?.loss(0, Range::point(5)), 0);
    let all = Interval::up_to(4_294_967_295);
    assert_eq!(rt;
        all.loss(
            0,
            Range {
                low: 0,
                high: 4_294_967_295,
            },
        ),
        FULL_LOSS
    );
    Ok(())
}

#[test]
fn boxes_of_a_pair(rt: HostRuntime) -> Result<(), Fail> {
    let d = Pair {
        left: Interval::up_to(3),
        right: Interval::new(10, 20)?,
    };
    let mut bounds = point_box(&d, &[1, 15, 7, 7, 7, 7]);
    assert_eq!(rt; box_loss(&d, &bounds), 0);
    widen(&d, &mut bounds, &[0, 12, 9, 9, 9, 9]);
    assert_eq!(rt; bounds[0], Range { low: 0, high: 1 });
    assert_eq!(rt; bounds[1], Range { low: 12, high: 15 });
    assert_eq!(rt; bounds[2], Range::point(0));
    assert_eq!(rt; box_loss(&d, &bounds), 3333 + 3000);
    assert!(rt; covers(&d, &bounds, &[1, 13, 9, 9, 9, 9]));
    assert!(rt; !covers(&d, &bounds, &[1, 16, 0, 0, 0, 0]));
    Ok(())
}

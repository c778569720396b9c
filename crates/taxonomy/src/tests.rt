use super::*;
use domain::Domain;
use std::test::Fail;

#[test]
fn eight_leaves(rt: HostRuntime) -> Result<(), Fail> {
    let mut t = examples::halves(rt.alloc())?;
    assert_eq!(rt;
        t.join(0, Range::point(1), Range::point(2)),
        Range { low: 0, high: 3 }
    );
    assert_eq!(rt; t.loss(0, Range { low: 0, high: 3 }), 4285);
    assert_eq!(rt; t.add(Range { low: 2, high: 5 }), Err(GroupFault::Overlaps));
    assert_eq!(rt;
        t.add(Range { low: 0, high: 3 }),
        Err(GroupFault::NoNewGroup)
    );
    assert_eq!(rt; t.add(Range { low: 0, high: 1 }), Ok(()));
    Ok(())
}

// The 33rd group is refused by 7, unless 5 or 6 fits it first.
#[test]
fn full(rt: HostRuntime) -> Result<(), Fail> {
    assert!(rt; Taxonomy::new(rt.alloc(), 0).is_err());
    assert!(rt; Taxonomy::new(rt.alloc(), 257).is_err());
    let mut t = Taxonomy::new(rt.alloc(), 256)?;
    for high in 1..33 {
        assert_eq!(rt; t.add(Range { low: 0, high }), Ok(()));
    }
    assert_eq!(rt;
        t.add(Range { low: 0, high: 9 }),
        Err(GroupFault::NoNewGroup)
    );
    assert_eq!(rt;
        t.add(Range { low: 9, high: 40 }),
        Err(GroupFault::Overlaps)
    );
    assert_eq!(rt; t.add(Range { low: 0, high: 40 }), Err(GroupFault::Full));
    Ok(())
}

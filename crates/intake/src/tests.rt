ghost use Rattle.std.specs.Prelude.{◌≡◌, None, MatchOption};
ghost use Rattle.intake.specs.Feeding.{reason_told};

use super::*;
use domain::{Interval, Range};
use release::{Line, Manner, Settings};
use report::{Reader, Report, Width};
use rfc4180::{Diagnostic, Layer, Location};
use rules::Refusal;
use std::test::Fail;
use stream::Stream;

const SETTINGS: Settings = Settings {
    k: 2,
    delta: 4,
    beta: 1,
    mu: 1,
    rho: 1,
};

const EMPTY: Line = Line {
    position: 0,
    reading: 0,
    manner: Manner::Suppressed,
    number: 0,
    ranges: [Range { low: 0, high: 0 }; 6],
};

// What an answer tells, if a line was turned away.
fn told(answer: Option<Result<usize, FeedFault>>) -> Option<Diagnostic>
    ensures { MatchOption answer (result ≡ None) (λ a. result ≡ reason_told a) }
{
    answer?.err().map(|fault| fault.diagnostic())
}

#[test]
fn a_record_from_no_line_is_told_at_no_place(rt: HostRuntime) {
    let told = Diagnostic {
        number: 17,
        layer: Layer::Feed,
        at: Location {
            line: 0,
            column: 0,
            byte: 0,
        },
    };
    assert_eq!(rt; FeedFault::from(Refusal::ShortList).diagnostic(), told);
}

#[test]
fn a_value_that_is_not_admitted_is_told_at_its_column_and_line(
    rt: HostRuntime,
) -> Result<(), Fail> {
    let mut stream = Stream::open(rt.alloc(), Interval::up_to(10), SETTINGS)?;
    let mut list = [EMPTY; 4];
    let report = Report {
        line: 2,
        byte: 6,
        owner: 8,
        values: [11, 0, 0, 0, 0, 0],
        reading: 0,
    };
    let refusal = FeedRefusal {
        refusal: Refusal::Unfit(2),
        line: 2,
        byte: 6,
    };
    assert!(rt; feed_report(&mut stream, &report, &mut list) == Err(refusal));
    let told = Diagnostic {
        number: 14,
        layer: Layer::Feed,
        at: Location {
            line: 2,
            column: 2,
            byte: 6,
        },
    };
    assert_eq!(rt; FeedFault::from(refusal).diagnostic(), told);
    Ok(())
}

// The second line has a mark in a plain field, and the third an owner of 0.
#[test]
fn lines_are_fed_or_told_one_by_one(rt: HostRuntime) -> Result<(), Fail> {
    let mut stream = Stream::open(rt.alloc(), Interval::up_to(10), SETTINGS)?;
    let mut reader = Reader::begin(b"7,5,1\r\n8,5\"5,1\r\n0,5,1\r\n", Width::new(1)?);
    let mut list = [EMPTY; 4];
    assert_eq!(rt; feed_next(&mut reader, &mut stream, &mut list), Some(Ok(0)));
    let mark = Diagnostic {
        number: 9,
        layer: Layer::Text,
        at: Location {
            line: 2,
            column: 2,
            byte: 10,
        },
    };
    assert_eq!(rt;
        told(feed_next(&mut reader, &mut stream, &mut list)),
        Some(mark)
    );
    let owner = Diagnostic {
        number: 14,
        layer: Layer::Feed,
        at: Location {
            line: 3,
            column: 1,
            byte: 16,
        },
    };
    assert_eq!(rt;
        told(feed_next(&mut reader, &mut stream, &mut list)),
        Some(owner)
    );
    assert_eq!(rt; feed_next(&mut reader, &mut stream, &mut list), None);
    assert_eq!(rt; stream.accepted(), 1);
    Ok(())
}

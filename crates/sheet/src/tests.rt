use crate::*;
use domain::Range;
use release::{Line, Manner};
use rfc4180::{Location, TextFault};
use std::test::Fail;

#[test]
fn a_sheet_has_one_to_six_attributes(rt: HostRuntime) {
    assert!(rt; BareSheet::begin(0).is_err());
    assert!(rt; BareSheet::begin(7).is_err());
    assert!(rt; BareSheet::begin(1).is_ok());
    assert!(rt; BareSheet::begin(6).is_ok());
}

#[test]
fn a_row_fills_its_area_and_no_more(rt: HostRuntime) -> Result<(), Fail> {
    let line = Line {
        position: 3,
        reading: 5,
        manner: Manner::Released,
        number: 1,
        ranges: [
            Range { low: 10, high: 12 },
            Range::point(2),
            Range::point(0),
            Range::point(0),
            Range::point(0),
            Range::point(0),
        ],
    };
    let mut text = [b'#'; 22];
    let (mut sheet, n) = BareSheet::begin(2)?.head(b"width,model,reading", &mut text)?;
    assert_eq!(rt; n, 21);
    assert_eq!(rt; text, *b"width,model,reading\r\n#");
    let mut short = [b'#'; 14];
    assert_eq!(rt;
        sheet.row(&line, &mut short),
        Err(RowFault::AreaTooShort { needed: 15 })
    );
    assert_eq!(rt; short, [b'#'; 14]);
    let mut area = [b'#'; 16];
    assert_eq!(rt; sheet.row(&line, &mut area)?, 15);
    assert_eq!(rt; area, *b"\"[10,12]\",2,5\r\n#");
    assert_eq!(rt; sheet.end().rows(), 1);
    Ok(())
}

#[test]
fn six_attributes_at_their_limits(rt: HostRuntime) -> Result<(), Fail> {
    let mut text = [b'#'; 64];
    let (mut sheet, _) = BareSheet::begin(6)?.head(b"a,b,c,d,e,f,r\r\n", &mut text)?;
    let line = Line {
        position: 1,
        reading: i32::MIN,
        manner: Manner::Reused,
        number: 1,
        ranges: [
            Range::point(0),
            Range::point(u32::MAX),
            Range {
                low: 0,
                high: u32::MAX,
            },
            Range { low: 1, high: 0 },
            Range::point(10),
            Range { low: 9, high: 10 },
        ],
    };
    assert_eq!(rt; sheet.row(&line, &mut text)?, 63);
    assert_eq!(rt;
        text,
        *b"0,4294967295,\"[0,4294967295]\",\"[1,0]\",10,\"[9,10]\",-2147483648\r\n#"
    );
    Ok(())
}

#[test]
fn a_suppressed_record_shows_stars(rt: HostRuntime) -> Result<(), Fail> {
    let mut text = [b'#'; 10];
    let (mut sheet, _) = BareSheet::begin(2)?.head(b"a,b,r", &mut text)?;
    let line = Line {
        position: 7,
        reading: 0,
        manner: Manner::Suppressed,
        number: 0,
        ranges: [Range::point(0); 6],
    };
    assert_eq!(rt; sheet.row(&line, &mut text)?, 7);
    assert_eq!(rt; text, *b"*,*,0\r\n###");
    Ok(())
}

#[test]
fn a_header_may_be_quoted(rt: HostRuntime) -> Result<(), Fail> {
    let header = b"\"a,\r\n\"\"b\"\"\",r";
    let mut text = [b'#'; 16];
    let (sheet, n) = BareSheet::begin(1)?.head(header, &mut text)?;
    assert_eq!(rt; n, 15);
    assert_eq!(rt; text, *b"\"a,\r\n\"\"b\"\"\",r\r\n#");
    assert_eq!(rt; sheet.end().rows(), 0);
    Ok(())
}

#[test]
fn a_refused_header_leaves_all_as_it_was(rt: HostRuntime) -> Result<(), Fail> {
    let mut text = [b'#'; 5];
    let bare = BareSheet::begin(1)?;
    let at = Location {
        line: 2,
        column: 1,
        byte: 5,
    };
    let Err(two) = bare.head(b"a,r\r\nb", &mut text) else {
        return Err(Fail::new("a second line"));
    };
    assert_eq!(rt;
        two.fault,
        HeaderFault::Text(TextFault::NotAllowed { at, field: 5 })
    );
    let Err(open) = two.sheet.head(b"a,\"r\r\n", &mut text) else {
        return Err(Fail::new("an open quotation mark"));
    };
    assert_eq!(rt; open.fault.number(), 11);
    let Err(wide) = open.sheet.head(b"a,b,r", &mut text) else {
        return Err(Fail::new("a field too many"));
    };
    assert_eq!(rt;
        wide.fault,
        HeaderFault::Fields {
            found: 3,
            wanted: 2,
        }
    );
    let Err(long) = wide.sheet.head(b"a,rr", &mut text) else {
        return Err(Fail::new("an area too short"));
    };
    assert_eq!(rt; long.fault, HeaderFault::AreaTooShort { needed: 6 });
    assert_eq!(rt; text, *b"#####");
    let (_, n) = long.sheet.head(b"a,r", &mut text)?;
    assert_eq!(rt; n, 5);
    assert_eq!(rt; text, *b"a,r\r\n");
    Ok(())
}

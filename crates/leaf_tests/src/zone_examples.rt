// Offsets: those of ovens, of mail, and the two forms that chrono documents and does not read.
use scan::kind::ParseErrorKind;
use zones::mail::timezone_offset_2822;
use zones::offset::*;
use zones::separator::{Colon, ColonOrSpace};

const MINUS: &str = "\u{2212}0930";

#[test]
fn offsets(rt: HostRuntime) {
    assert_eq!(rt;
        timezone_offset(b"+09:30", &mut Colon, false, false, false),
        Ok((34200, 6))
    );
    assert_eq!(rt;
        timezone_offset(b"+0930", &mut Colon, false, false, false),
        Err(ParseErrorKind::Invalid)
    );
    assert_eq!(rt;
        timezone_offset(b"+0959", &mut ColonOrSpace, false, false, false),
        Ok((35940, 5))
    );
    assert_eq!(rt;
        timezone_offset(b"+0960", &mut ColonOrSpace, false, false, false),
        Err(ParseErrorKind::OutOfRange)
    );
}

#[test]
fn permissive_offsets(rt: HostRuntime) {
    assert_eq!(rt;
        timezone_offset(b"+09", &mut ColonOrSpace, true, true, true),
        Ok((32400, 3))
    );
    assert_eq!(rt;
        timezone_offset(b"+09 7", &mut ColonOrSpace, true, true, true),
        Err(ParseErrorKind::TooShort)
    );
    assert_eq!(rt;
        timezone_offset(b"+09", &mut ColonOrSpace, true, false, true),
        Err(ParseErrorKind::TooShort)
    );
    assert_eq!(rt;
        timezone_offset(b"z", &mut ColonOrSpace, true, true, true),
        Ok((0, 1))
    );
}

#[test]
fn minus_sign(rt: HostRuntime) {
    assert_eq!(rt;
        timezone_offset(MINUS.as_bytes(), &mut ColonOrSpace, false, false, true),
        Ok((-34200, 7))
    );
    assert_eq!(rt;
        timezone_offset(MINUS.as_bytes(), &mut ColonOrSpace, false, false, false),
        Err(ParseErrorKind::Invalid)
    );
    assert_eq!(rt;
        timezone_offset_2822(MINUS.as_bytes()),
        Err(ParseErrorKind::Invalid)
    );
}

#[test]
fn documented_offsets(rt: HostRuntime) {
    assert_eq!(rt;
        timezone_offset_double_colon(b"+09:00:05", &mut ColonOrSpace, true),
        Ok((32405, 9))
    );
    assert_eq!(rt;
        timezone_offset_double_colon(b"-09:00:05", &mut Colon, true),
        Ok((-32405, 9))
    );
    assert_eq!(rt;
        timezone_offset_double_colon(b"+09:00", &mut ColonOrSpace, true),
        Err(ParseErrorKind::TooShort)
    );
    assert_eq!(rt;
        timezone_offset_triple_colon(b"+09 30", true),
        Ok((32400, 3))
    );
}

#[test]
fn mail_zones(rt: HostRuntime) {
    assert_eq!(rt; timezone_offset_2822(b"EST"), Ok((-18000, 3)));
    assert_eq!(rt; timezone_offset_2822(b"pdt x"), Ok((-25200, 3)));
    assert_eq!(rt; timezone_offset_2822(b"K"), Ok((0, 1)));
    assert_eq!(rt; timezone_offset_2822(b"j"), Err(ParseErrorKind::Invalid));
    assert_eq!(rt; timezone_offset_2822(b"CET"), Err(ParseErrorKind::Invalid));
}

// Numbers at their limits, fractions, years of mail.
use scan::kind::ParseErrorKind;
use scan::number::*;
use scan::single::{char, space};

#[test]
fn numbers(rt: HostRuntime) {
    assert_eq!(rt; number(b"1234x", 1, 3), Ok((123, 3)));
    assert_eq!(rt; number(b"7x", 1, 2), Ok((7, 1)));
    assert_eq!(rt; number(b"7", 2, 4), Err(ParseErrorKind::TooShort));
    assert_eq!(rt; number(b"7x", 2, 4), Err(ParseErrorKind::Invalid));
    assert_eq!(rt;
        number(b"77", 2, 1),
        Ok((7, 1)),
        "fewer at most than at least"
    );
}

#[test]
fn largest_numbers(rt: HostRuntime) {
    assert_eq!(rt;
        number(b"9223372036854775807", 1, 19),
        Ok((9_223_372_036_854_775_807, 19))
    );
    assert_eq!(rt;
        number(b"9223372036854775808", 1, 19),
        Err(ParseErrorKind::OutOfRange)
    );
    assert_eq!(rt;
        number(b"92233720368547758070", 1, 19),
        Ok((9_223_372_036_854_775_807, 19))
    );
    assert_eq!(rt;
        number(b"92233720368547758070", 1, 20),
        Err(ParseErrorKind::OutOfRange)
    );
}

#[test]
fn fractions(rt: HostRuntime) {
    assert_eq!(rt; nanosecond(b"5"), Ok((500_000_000, 1)));
    assert_eq!(rt; nanosecond(b"1234567899"), Ok((123_456_789, 10)));
    assert_eq!(rt; nanosecond(b""), Err(ParseErrorKind::TooShort));
    assert_eq!(rt;
        nanosecond_fixed(b"1234", Precision::Milli),
        Ok((123_000_000, 3))
    );
    assert_eq!(rt;
        nanosecond_fixed(b"12345", Precision::Micro),
        Err(ParseErrorKind::TooShort)
    );
}

#[test]
fn years(rt: HostRuntime) {
    assert_eq!(rt; year_2822(b"49"), Ok((2049, 2)));
    assert_eq!(rt; year_2822(b"50"), Ok((1950, 2)));
    assert_eq!(rt; year_2822(b"112"), Ok((2012, 3)));
    assert_eq!(rt; year_2822(b"0654"), Ok((654, 4)));
    assert_eq!(rt; year_2822(b"7"), Err(ParseErrorKind::TooShort));
}

#[test]
fn single(rt: HostRuntime) {
    assert_eq!(rt; char(b":x", b':'), Ok(1));
    assert_eq!(rt; char(b"", b':'), Err(ParseErrorKind::TooShort));
    assert_eq!(rt; space("\u{a0} x".as_bytes()), Ok(3));
    assert_eq!(rt; space(b"x"), Err(ParseErrorKind::Invalid));
    assert_eq!(rt; space(b""), Err(ParseErrorKind::TooShort));
}

// Examples: each name in its forms, and the week's arithmetic.
use names::names::*;
use names::weekday::Weekday;
use scan::kind::ParseErrorKind;

#[test]
fn days(rt: HostRuntime) {
    assert_eq!(rt; Weekday::Sun.days_since(Weekday::Tue), 5);
    assert_eq!(rt; Weekday::Wed.days_since(Weekday::Sun), 3);
    assert_eq!(rt; Weekday::Sun.succ(), Weekday::Mon);
    assert_eq!(rt; Weekday::Mon.pred(), Weekday::Sun);
}

#[test]
fn numbers(rt: HostRuntime) {
    assert_eq!(rt; Weekday::Sun.number_from_monday(), 7);
    assert_eq!(rt; Weekday::Sun.number_from_sunday(), 1);
    assert_eq!(rt; Weekday::try_from(6), Ok(Weekday::Sun));
    assert_eq!(rt; Weekday::try_from(7), Err(ParseErrorKind::OutOfRange));
}

#[test]
fn months(rt: HostRuntime) {
    assert_eq!(rt; short_month0(b"Sep"), Ok((8, 3)));
    assert_eq!(rt; short_month0(b"september"), Ok((8, 3)));
    assert_eq!(rt; short_month0(b"Se"), Err(ParseErrorKind::TooShort));
    assert_eq!(rt; short_month0(b"Sex"), Err(ParseErrorKind::Invalid));
}

#[test]
fn long_months(rt: HostRuntime) {
    assert_eq!(rt; short_or_long_month0(b"SEPTEMBERx"), Ok((8, 9)));
    assert_eq!(rt; short_or_long_month0(b"septembe"), Ok((8, 3)));
    assert_eq!(rt; short_or_long_month0(b"may"), Ok((4, 3)));
}

#[test]
fn weekdays(rt: HostRuntime) {
    assert_eq!(rt; short_weekday(b"mon"), Ok((Weekday::Mon, 3)));
    assert_eq!(rt; short_weekday(b"Mo"), Err(ParseErrorKind::TooShort));
    assert_eq!(rt; short_weekday(b"Moo"), Err(ParseErrorKind::Invalid));
}

#[test]
fn long_weekdays(rt: HostRuntime) {
    assert_eq!(rt; short_or_long_weekday(b"Monday"), Ok((Weekday::Mon, 6)));
    assert_eq!(rt; short_or_long_weekday(b"Thurs"), Ok((Weekday::Thu, 3)));
}

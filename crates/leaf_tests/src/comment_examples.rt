// Examples.
use comments::comment_2822;
use scan::kind::ParseErrorKind;

#[test]
fn nests(rt: HostRuntime) {
    assert_eq!(rt; comment_2822(b"(a (b))"), Ok(7));
    assert_eq!(rt; comment_2822(b"()()"), Ok(2));
    assert_eq!(rt; comment_2822(b"(()"), Err(ParseErrorKind::TooShort));
}

#[test]
fn quotes(rt: HostRuntime) {
    assert_eq!(rt; comment_2822(b" (a\\)b) x"), Ok(7));
    assert_eq!(rt; comment_2822(b"(\\\\)"), Ok(4));
    assert_eq!(rt; comment_2822(b"(\\)"), Err(ParseErrorKind::TooShort));
}

#[test]
fn skips_blanks(rt: HostRuntime) {
    assert_eq!(rt; comment_2822("\u{3000}\t(\u{e9})!".as_bytes()), Ok(8));
    assert_eq!(rt; comment_2822(b" \n "), Err(ParseErrorKind::TooShort));
}

#[test]
fn refuses(rt: HostRuntime) {
    assert_eq!(rt; comment_2822(b""), Err(ParseErrorKind::TooShort));
    assert_eq!(rt; comment_2822(b"("), Err(ParseErrorKind::TooShort));
    assert_eq!(rt; comment_2822(b"a("), Err(ParseErrorKind::Invalid));
}

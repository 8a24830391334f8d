// UTF-8 by RFC 3629: its examples, and what it forbids; blanks, and runs of a class.
ghost use Rattle.std.specs.Char.{is_ascii_digit};

use text::{CharClass, blanks, check_text, first_char, non_blanks, run};

// A class of a caller's own.
struct Digit;

impl CharClass for Digit {
    ghost has = { is_ascii_digit };

    fn contains(c: char) -> bool {
        c.is_ascii_digit()
    }
}

#[test]
fn text_of_the_rfc(rt: HostRuntime) {
    assert_eq!(rt; check_text(b"\x41\xe2\x89\xa2\xce\x91\x2e"), Ok(()));
    assert_eq!(rt; check_text(b"\xed\x95\x9c\xea\xb5\xad\xec\x96\xb4"), Ok(()));
    assert_eq!(rt; check_text(b"\xef\xbb\xbf\xf0\xa3\x8e\xb4"), Ok(()));
    assert_eq!(rt; check_text(b""), Ok(()));
}

#[test]
fn no_text(rt: HostRuntime) {
    assert_eq!(rt; check_text(b"ab\xc0\x80"), Err(2), "overlong");
    assert_eq!(rt;
        check_text(b"\xe2\x89\xa2\xed\xa0\x80"),
        Err(3),
        "a surrogate"
    );
    assert_eq!(rt; check_text(b"\xf4\x90\x80\x80"), Err(0), "above U+10FFFF");
    assert_eq!(rt; check_text(b"a\xe2\x89"), Err(1), "cut off");
}

#[test]
fn first_characters(rt: HostRuntime) {
    assert_eq!(rt; first_char(b"\xe2\x88\x92\x30"), Some('\u{2212}'));
    assert_eq!(rt; first_char(b"7\xff"), Some('7'));
    assert_eq!(rt; first_char(b"\xff7"), None);
    assert_eq!(rt; first_char(b""), None);
}

#[test]
fn skipped(rt: HostRuntime) {
    assert_eq!(rt; blanks(" \t\u{85}\u{2028}\u{3000}x ".as_bytes()), 10);
    assert_eq!(rt; blanks("\u{200b}".as_bytes()), 0);
    assert_eq!(rt; non_blanks("CET\u{2009}x".as_bytes()), 3);
    assert_eq!(rt; non_blanks("\u{e9}\u{200b}".as_bytes()), 5);
}

#[test]
fn runs(rt: HostRuntime) {
    assert_eq!(rt; run::<Digit>(b"0937 x"), 4);
    assert_eq!(rt;
        run::<Digit>("7\u{663}".as_bytes()),
        1,
        "a digit of ASCII alone"
    );
    assert_eq!(rt; run::<Digit>(b""), 0);
}

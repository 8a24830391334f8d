// Why a reading is refused.
ghost use Rattle.std.specs.Prelude.{◌≡◌, Some};
ghost use Rattle.scan.specs.Kinds.{kind_number, kind_text};

use std::error::Error;
use std::fmt;

#[derive(Clone, Copy, PartialEq, Eq, Debug)]
pub enum ParseErrorKind {
    // a number or a field's value is out of its range
    OutOfRange = 1,
    // a field holds another value
    Impossible = 2,
    // the text holds something else than what is read
    Invalid = 3,
    // the text ends before what is read does
    TooShort = 4,
    // text is left unread
    TooLong = 5,
    // a list of items that cannot be read by
    BadFormat = 6,
    // bytes that are not UTF-8
    NotText = 7,
}

impl ParseErrorKind {
    // The number by which refusals are told apart.
    pub fn number(self) -> u8
        ensures { result ≡ kind_number self }
    {
        self as u8
    }
}

impl fmt::Display for ParseErrorKind {
    ghost output = { λ k. Some (kind_text k) };

    fn fmt<W: fmt::Write>(&self, f: &mut fmt::Formatter<W>) -> fmt::Result {
        f.write_str(match *self {
            ParseErrorKind::OutOfRange => "input is out of range",
            ParseErrorKind::Impossible => "no possible date and time matching input",
            ParseErrorKind::Invalid => "input contains invalid characters",
            ParseErrorKind::TooShort => "premature end of input",
            ParseErrorKind::TooLong => "trailing input",
            ParseErrorKind::BadFormat => "bad or unsupported format string",
            ParseErrorKind::NotText => "input is not UTF-8",
        })
    }
}

impl Error for ParseErrorKind {}

// What a leaf answers, as it is printed.
use names::weekday::Weekday;
use scan::kind::ParseErrorKind;
use std::fmt;

// What is read, and how many bytes it takes.
#[derive(Clone, Copy)]
pub(crate) enum Reading {
    Number(i64, usize),
    Day(Weekday, usize),
    Bytes(usize),
}

impl Reading {
    pub(crate) fn number<T: Into<i64>>((value, n): (T, usize)) -> Reading {
        Reading::Number(value.into(), n)
    }

    pub(crate) fn day((day, n): (Weekday, usize)) -> Reading {
        Reading::Day(day, n)
    }
}

impl fmt::Display for Reading {
    fn fmt<W: fmt::Write>(&self, f: &mut fmt::Formatter<W>) -> fmt::Result {
        match *self {
            Reading::Number(value, n) => write!(f, "{value} {n}"),
            Reading::Day(day, n) => write!(f, "{day} {n}"),
            Reading::Bytes(n) => write!(f, "{n}"),
        }
    }
}

// Why nothing is read.
#[derive(Clone, Copy)]
pub(crate) enum Refusal {
    // the leaf's own answer
    Kind(ParseErrorKind),
    // so many bytes in front are text, and no more
    NotText(usize),
    // the line is no case, or names no leaf
    Unknown,
}

impl From<ParseErrorKind> for Refusal {
    fn from(kind: ParseErrorKind) -> Refusal {
        Refusal::Kind(kind)
    }
}

impl fmt::Display for Refusal {
    fn fmt<W: fmt::Write>(&self, f: &mut fmt::Formatter<W>) -> fmt::Result {
        match *self {
            Refusal::Kind(kind) => write!(f, "err {kind:?}"),
            Refusal::NotText(n) => write!(f, "nottext {n}"),
            Refusal::Unknown => write!(f, "unknown"),
        }
    }
}

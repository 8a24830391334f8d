// One line: a word, blanks, and what the word says.
ghost use Rattle.std.specs.Prelude.{◌≡◌, ℕ, MatchResult, Err};
ghost use Rattle.std.specs.Str.{valid_up_to};
ghost use Rattle.text.specs.Chars.{text_check};
ghost use Rattle.stamps.specs.Lines.{not_text, AsText, NoText};
ghost use Rattle.stamps.specs.declared.line.Reason.TheVariants.{Kind};

use super::form::{Form, Value, read};
use super::record::{Command, Verb, command_of};
use scan::kind::ParseErrorKind;
use setters::setter::UnknownSetter;
use std::fmt;
use std::num::ParseIntError;
use std::str::Utf8Error;

#[derive(Clone, Copy)]
pub(crate) struct Field<'t> {
    value: Value,
    taken: usize,
    left: &'t str,
}

impl fmt::Display for Field<'_> {
    fn fmt<W: fmt::Write>(&self, f: &mut fmt::Formatter<W>) -> fmt::Result {
        let value = self.value;
        let taken = self.taken;
        let left = self.left;
        write!(f, "{value}, took {taken}, left {left:?}")
    }
}

// What a line holds: a field to be read, or something to be done to the record.
#[derive(Clone, Copy)]
pub(crate) enum Line<'t> {
    Field(Field<'t>),
    Record(Command),
}

// The word stands for nothing.
#[derive(Clone, Copy)]
pub(crate) struct UnknownWord;

impl fmt::Display for UnknownWord {
    fn fmt<W: fmt::Write>(&self, f: &mut fmt::Formatter<W>) -> fmt::Result {
        f.write_str("the first word names no field, --help lists them")
    }
}

// Why a line is refused.
#[derive(Clone, Copy)]
pub(crate) enum Reason {
    Kind(ParseErrorKind),
    UnknownWord(UnknownWord),
    UnknownSetter(UnknownSetter),
    NoNumber,
    MoreWords,
}

impl Reason {
    fn kind(self) -> ParseErrorKind {
        match self {
            Reason::Kind(kind) => kind,
            Reason::UnknownWord(_) | Reason::UnknownSetter(_) => ParseErrorKind::BadFormat,
            Reason::NoNumber => ParseErrorKind::Invalid,
            Reason::MoreWords => ParseErrorKind::TooLong,
        }
    }
}

impl fmt::Display for Reason {
    fn fmt<W: fmt::Write>(&self, f: &mut fmt::Formatter<W>) -> fmt::Result {
        match *self {
            Reason::Kind(kind) => write!(f, "{kind}"),
            Reason::UnknownWord(unknown) => write!(f, "{unknown}"),
            Reason::UnknownSetter(unknown) => write!(f, "{unknown}"),
            Reason::NoNumber => f.write_str("the value is no whole number of 64 bits"),
            Reason::MoreWords => f.write_str("more words than the line takes"),
        }
    }
}

impl From<ParseErrorKind> for Reason {
    ghost from_gives = { λ k r. r ≡ Kind k };

    fn from(kind: ParseErrorKind) -> Reason {
        Reason::Kind(kind)
    }
}

impl From<UnknownWord> for Reason {
    fn from(unknown: UnknownWord) -> Reason {
        Reason::UnknownWord(unknown)
    }
}

impl From<UnknownSetter> for Reason {
    fn from(unknown: UnknownSetter) -> Reason {
        Reason::UnknownSetter(unknown)
    }
}

// No digits, or out of range: the answer to the line is the same.
impl From<ParseIntError> for Reason {
    fn from(_error: ParseIntError) -> Reason {
        Reason::NoNumber
    }
}

#[derive(Clone, Copy)]
pub(crate) struct Refusal {
    reason: Reason,
    // the byte of the line where the field begins, or where the line is text no more
    place: usize,
}

impl Refusal {
    pub(crate) fn at<R: Into<Reason>>(place: usize, reason: R) -> Refusal
        ensures reason { R.Into.converts reason result.reason }
        ensures place { result.place ≡ place }
    {
        Refusal {
            reason: reason.into(),
            place,
        }
    }
}

impl From<Utf8Error> for Refusal {
    ghost from_gives = { λ e r. r ≡ not_text (valid_up_to e) };

    fn from(error: Utf8Error) -> Refusal {
        Refusal::at(error.valid_up_to(), ParseErrorKind::NotText)
    }
}

impl fmt::Display for Refusal {
    fn fmt<W: fmt::Write>(&self, f: &mut fmt::Formatter<W>) -> fmt::Result {
        let place = self.place;
        let reason = self.reason;
        let kind = reason.kind();
        let number = kind.number();
        write!(f, "refused {kind:?} ({number}) at {place}: {reason}")
    }
}

// The line as text; where it is none, how far it is.
fn as_text(bytes: &[u8]) -> Result<&str, Refusal>
    ensures { MatchResult result (λ t. AsText bytes.now t.now) (λ r. NoText bytes.now r) }
{
    Ok(std::str::from_utf8(bytes)?)
}

pub(crate) fn read_line(bytes: &[u8]) -> Result<Line<'_>, Refusal>
    ensures { (n : ℕ) → text_check bytes.now ≡ Err n → result ≡ Err (not_text n) }
{
    let line = as_text(bytes)?;
    let (word, rest) = line.split_at(text::non_blanks(line.as_bytes()));
    let (blanks, rest) = rest.split_at(text::blanks(rest.as_bytes()));
    let place = word.len() + blanks.len();
    if let Ok(verb) = word.parse::<Verb>() {
        return Ok(Line::Record(command_of(verb, rest, place)?));
    }
    let form = word
        .parse::<Form>()
        .map_err(|unknown| Refusal::at(0, unknown))?;
    let (value, taken) = read(form, rest.as_bytes()).map_err(|kind| Refusal::at(place, kind))?;
    let left = &rest[taken..];
    Ok(Line::Field(Field { value, taken, left }))
}

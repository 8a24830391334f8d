// The fields that a line may hold.
ghost use Rattle.std.specs.Prelude.{◌≡◌};
ghost use Rattle.std.specs.Result.{result_ok};
ghost use Rattle.scan.specs.Steps.{Cuts};
ghost use Rattle.stamps.specs.Fields.{read_at, words};
ghost use Rattle.stamps.specs.Words.{Stands};

use super::line::UnknownWord;
use names::names::{short_or_long_month0, short_or_long_weekday};
use names::weekday::Weekday;
use scan::kind::ParseErrorKind;
use scan::number::{nanosecond, year_2822};
use std::fmt;
use std::str::FromStr;
use zones::mail::timezone_offset_2822;
use zones::offset::timezone_offset;
use zones::separator::ColonOrSpace;

#[derive(Clone, Copy)]
pub(crate) enum Form {
    Zone,
    MailZone,
    Fraction,
    Month,
    Weekday,
    Comment,
    MailYear,
}

// What the first word of a line stands for.
impl FromStr for Form {
    type Err = UnknownWord;

    ghost from_str_gives = { λ word r. Stands words word (result_ok r) };

    fn from_str(word: &str) -> Result<Form, UnknownWord> {
        match word {
            "zone" => Ok(Form::Zone),
            "mailzone" => Ok(Form::MailZone),
            "fraction" => Ok(Form::Fraction),
            "month" => Ok(Form::Month),
            "weekday" => Ok(Form::Weekday),
            "comment" => Ok(Form::Comment),
            "mailyear" => Ok(Form::MailYear),
            _ => Err(UnknownWord),
        }
    }
}

#[derive(Clone, Copy)]
pub(crate) enum Value {
    // seconds east of UTC
    Offset(i32),
    Nanoseconds(u32),
    // January is 0
    Month0(u8),
    Day(Weekday),
    Comment,
    Year(i64),
}

impl fmt::Display for Value {
    fn fmt<W: fmt::Write>(&self, f: &mut fmt::Formatter<W>) -> fmt::Result {
        match *self {
            Value::Offset(seconds) => write!(f, "offset {seconds} s"),
            Value::Nanoseconds(nanos) => write!(f, "fraction {nanos} ns"),
            Value::Month0(month0) => {
                let month = month0.saturating_add(1);
                write!(f, "month {month}")
            }
            Value::Day(day) => write!(f, "weekday {day}"),
            Value::Comment => write!(f, "comment"),
            Value::Year(year) => write!(f, "year {year}"),
        }
    }
}

// The field in front of a text, and how many bytes it takes.
#[tactic(auto, unfolding(crate::specs::Fields::read_at))]
pub(crate) fn read(form: Form, s: &[u8]) -> Result<(Value, usize), ParseErrorKind>
    ensures value { result ≡ read_at form s.now }
    ensures cut { Cuts s.now result }
{
    match form {
        Form::Zone => {
            let offset = timezone_offset(s, &mut ColonOrSpace, true, true, true);
            offset.map(|(seconds, n)| (Value::Offset(seconds), n))
        }
        Form::MailZone => {
            timezone_offset_2822(s).map(|(seconds, n)| (Value::Offset(seconds), n))
        }
        Form::Fraction => nanosecond(s).map(|(nanos, n)| (Value::Nanoseconds(nanos), n)),
        Form::Month => short_or_long_month0(s).map(|(month0, n)| (Value::Month0(month0), n)),
        Form::Weekday => short_or_long_weekday(s).map(|(day, n)| (Value::Day(day), n)),
        Form::Comment => comments::comment_2822(s).map(|n| (Value::Comment, n)),
        Form::MailYear => year_2822(s).map(|(year, n)| (Value::Year(year), n)),
    }
}

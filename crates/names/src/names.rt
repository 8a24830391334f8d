// English names in front of a text, short or long, ASCII case ignored.
ghost use Rattle.std.specs.Prelude.{◌≡◌, ◌<◌, IfOk};
ghost use Rattle.scan.specs.Steps.{Cuts};
ghost use Rattle.names.specs.Names.{begins_alike, entries, said, names_of, AreNames, entry_at, short_at, short_or_long_at};
ghost use Rattle.names.specs.Names.{short_month0_at, short_or_long_month0_at, short_weekday_at, short_or_long_weekday_at};

use super::weekday::Weekday;
use scan::kind::ParseErrorKind;

// How many letters a short name has: the first ones of the name.
const SHORT: usize = 3;

// January is 0.
const MONTHS: [(&[u8], u8); 12] = [
    (b"january", 0),
    (b"february", 1),
    (b"march", 2),
    (b"april", 3),
    (b"may", 4),
    (b"june", 5),
    (b"july", 6),
    (b"august", 7),
    (b"september", 8),
    (b"october", 9),
    (b"november", 10),
    (b"december", 11),
];

const WEEKDAYS: [(&[u8], Weekday); 7] = [
    (b"monday", Weekday::Mon),
    (b"tuesday", Weekday::Tue),
    (b"wednesday", Weekday::Wed),
    (b"thursday", Weekday::Thu),
    (b"friday", Weekday::Fri),
    (b"saturday", Weekday::Sat),
    (b"sunday", Weekday::Sun),
];

// Does the text begin with the word?
fn begins(s: &[u8], word: &[u8]) -> bool
    ensures { result ≡ begins_alike word.now s.now }
{
    s.get(..word.len())
        .is_some_and(|front| front.eq_ignore_ascii_case(word))
}

// The entry of a table whose name's first three letters stand in front.
#[tactic(auto, unfolding(crate::specs::Names::entry_at))]
fn entry<'a, T: Copy>(names: &[(&'a [u8], T)], s: &[u8]) -> Result<(&'a [u8], T), ParseErrorKind>
    ensures { said result ≡ entry_at (entries names.now) s.now }
{
    if s.len() < SHORT {
        return Err(ParseErrorKind::TooShort);
    }
    names
        .iter()
        .find(|(name, _)| begins(s, &name[..name.len().min(SHORT)]))
        .copied()
        .ok_or(ParseErrorKind::Invalid)
}

// The value of that entry; its short name is taken.
#[tactic(auto, unfolding(crate::specs::Names::short_at))]
fn short<T: Copy>(names: &[(&[u8], T)], s: &[u8]) -> Result<(T, usize), ParseErrorKind>
    ensures value { result ≡ short_at (entries names.now) s.now }
    ensures cut { AreNames (names_of (entries names.now)) → Cuts s.now result }
{
    let (_, value) = entry(names, s)?;
    Ok((value, SHORT))
}

// The value of that entry; all of its name is taken, if all of it stands in front.
#[tactic(auto, unfolding(crate::specs::Names::short_or_long_at))]
fn short_or_long<T: Copy>(names: &[(&[u8], T)], s: &[u8]) -> Result<(T, usize), ParseErrorKind>
    ensures value { result ≡ short_or_long_at (entries names.now) s.now }
    ensures cut { AreNames (names_of (entries names.now)) → Cuts s.now result }
{
    let (name, value) = entry(names, s)?;
    let n = if begins(s, name) { name.len() } else { SHORT };
    Ok((value, n))
}

// Chrono's four functions are `short` and `short_or_long` at the two tables, by its names.

// A month by its first three letters, January 0.
#[tactic(auto, unfolding(crate::specs::Names::short_month0_at))]
pub fn short_month0(s: &[u8]) -> Result<(u8, usize), ParseErrorKind>
    ensures value { result ≡ short_month0_at s.now }
    ensures cut { Cuts s.now result }
    ensures below { IfOk result (λ p. p.0 < 12) }
{
    short(&MONTHS, s)
}

// A day of the week by its first three letters.
#[tactic(auto, unfolding(crate::specs::Names::short_weekday_at))]
pub fn short_weekday(s: &[u8]) -> Result<(Weekday, usize), ParseErrorKind>
    ensures value { result ≡ short_weekday_at s.now }
    ensures cut { Cuts s.now result }
{
    short(&WEEKDAYS, s)
}

// A month by its name, all of it or the first three letters, January 0.
#[tactic(auto, unfolding(crate::specs::Names::short_or_long_month0_at))]
pub fn short_or_long_month0(s: &[u8]) -> Result<(u8, usize), ParseErrorKind>
    ensures value { result ≡ short_or_long_month0_at s.now }
    ensures cut { Cuts s.now result }
    ensures below { IfOk result (λ p. p.0 < 12) }
{
    short_or_long(&MONTHS, s)
}

// A day of the week by its name, all of it or the first three letters.
#[tactic(auto, unfolding(crate::specs::Names::short_or_long_weekday_at))]
pub fn short_or_long_weekday(s: &[u8]) -> Result<(Weekday, usize), ParseErrorKind>
    ensures value { result ≡ short_or_long_weekday_at s.now }
    ensures cut { Cuts s.now result }
{
    short_or_long(&WEEKDAYS, s)
}

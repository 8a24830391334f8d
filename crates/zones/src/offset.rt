// Offsets from UTC as numbers: a sign, hours, and minutes and seconds behind a separator.
ghost use Rattle.std.specs.Prelude.{◌≡◌, ◌+◌, ◌<◌, ◌≤◌, ◌&&◌, length, drop, IfOk, Ok, Err, MatchResult};
ghost use Rattle.scan.specs.Steps.{Cuts};
ghost use Rattle.text.specs.Cuts.{Cut};
ghost use Rattle.zones.specs.Offsets.{pair, sign_at, hours_at, minutes_at, separated_at, signed_hours_at, signed, zulu_at, offset_at, double_colon_at, triple_colon_at};
ghost use Rattle.zones.specs.Separators.{Unmoved};
ghost use Rattle.zones.specs.Signs.{sign_of};

use super::separator::Separator;
use scan::kind::ParseErrorKind;

#[derive(Clone, Copy)]
enum Sign {
    Plus,
    HyphenMinus,
    MinusSign,
}

// The sign that a character is.
fn sign_of(c: char) -> Option<Sign>
    ensures { result ≡ sign_of c }
{
    match c {
        '+' => Some(Sign::Plus),
        '-' => Some(Sign::HyphenMinus),
        '−' => Some(Sign::MinusSign),
        _ => None,
    }
}

// The sign in front: is it negative (chrono's flag), and how many bytes has it?
#[tactic(auto, using(crate::proofs::Places::sign_none, crate::proofs::Places::sign_some))]
fn leading_sign(s: &[u8], allow_tz_minus_sign: bool) -> Result<(bool, usize), ParseErrorKind>
    ensures value { result ≡ sign_at allow_tz_minus_sign s.now }
    ensures cut { Cuts s.now result }
{
    if s.is_empty() {
        return Err(ParseErrorKind::TooShort);
    }
    let c = text::first_char(s).ok_or(ParseErrorKind::Invalid)?;
    let n = c.len_utf8();
    match sign_of(c).ok_or(ParseErrorKind::Invalid)? {
        Sign::Plus => Ok((false, n)),
        Sign::HyphenMinus => Ok((true, n)),
        Sign::MinusSign if allow_tz_minus_sign => Ok((true, n)),
        Sign::MinusSign => Err(ParseErrorKind::Invalid),
    }
}

// The number that two digits write.
fn pair(tens: u8, ones: u8) -> u32
    requires tens { (48 ≤ tens) × (tens ≤ 57) }
    requires ones { (48 ≤ ones) × (ones ≤ 57) }
    ensures { result ≡ pair tens ones }
{
    u32::from(tens - b'0') * 10 + u32::from(ones - b'0')
}

// Two digits of hours, 00 to 99, and what follows them.
#[tactic(auto, using(crate::proofs::Places::two_digits))]
fn hours(s: &[u8]) -> Result<(u32, &[u8]), ParseErrorKind>
    ensures value { MatchResult result (λ p. Ok p.0 ≡ hours_at s.now) (λ e. Err e ≡ hours_at s.now) }
    ensures rest { IfOk result (λ p. (p.1.now ≡ drop 2 s.now) × (length p.1.now + 2 ≡ length s.now) × (p.0 < 100)) }
    ensures cut { IfOk result (λ _. Cut s.now 2) }
{
    let [h1, h2, rest @ ..] = s else {
        return Err(ParseErrorKind::TooShort);
    };
    match (*h1, *h2) {
        (b'0'..=b'9', b'0'..=b'9') => Ok((pair(*h1, *h2), rest)),
        _ => Err(ParseErrorKind::Invalid),
    }
}

// Two digits of minutes or seconds, 00 to 59, and how many bytes they take: none where they may be missing and nothing is left.
#[tactic(auto, using(crate::proofs::Places::two_digits))]
fn minutes(s: &[u8], allow_missing: bool) -> Result<(u32, usize), ParseErrorKind>
    ensures value { result ≡ minutes_at allow_missing s.now }
    ensures bound { IfOk result (λ p. p.0 < 60) }
    ensures cut { Cuts s.now result }
{
    match s {
        [] if allow_missing => Ok((0, 0)),
        [] | [_] => Err(ParseErrorKind::TooShort),
        [m1, m2, ..] => match (*m1, *m2) {
            (b'0'..=b'5', b'0'..=b'9') => Ok((pair(*m1, *m2), 2)),
            (b'6'..=b'9', b'0'..=b'9') => Err(ParseErrorKind::OutOfRange),
            _ => Err(ParseErrorKind::Invalid),
        },
    }
}

// The separator, and then minutes or seconds.
#[tactic(auto, unfolding(crate::specs::Offsets::separated_at))]
fn separated<S: Separator>(
    s: &[u8],
    sep: &mut S,
    allow_missing: bool,
) -> Result<(u32, usize), ParseErrorKind>
    ensures value { result ≡ separated_at (S.means sep.old) allow_missing s.now }
    ensures bound { IfOk result (λ p. p.0 < 60) }
    ensures cut { Cuts s.now result }
    ensures same { Unmoved S.means sep.old sep.new }
{
    let k = sep.run(s)?;
    let (value, n) = minutes(&s[k..], allow_missing)?;
    Ok((value, k + n))
}

// The sign and the hours: is it negative, the hours, and how many bytes they take.
// The sign stands beside the hours, since that of -00:30 is not in them, as chrono's `negative`.
#[tactic(auto, unfolding(crate::specs::Offsets::signed_hours_at))]
fn signed_hours(s: &[u8], allow_tz_minus_sign: bool) -> Result<(bool, u32, usize), ParseErrorKind>
    ensures value { result ≡ signed_hours_at allow_tz_minus_sign s.now }
    ensures bound { IfOk result (λ p. p.1 < 100) }
    ensures cut { IfOk result (λ p. Cut s.now p.2) }
{
    let (negative, n) = leading_sign(s, allow_tz_minus_sign)?;
    let (hours, rest) = hours(&s[n..])?;
    Ok((negative, hours, s.len() - rest.len()))
}

pub(super) fn in_seconds(negative: bool, seconds: u32) -> i32
    requires { seconds < 1000000 }
    ensures { result ≡ signed negative seconds }
{
    // there is no `From<u32> for i32`
    let seconds = seconds as i32;
    if negative { -seconds } else { seconds }
}

// Does Z stand in front, which is UTC, where it is allowed?
fn is_zulu(s: &[u8], allow_zulu: bool) -> bool
    ensures { result ≡ (allow_zulu && zulu_at s.now) }
{
    allow_zulu && matches!(s, [b'Z' | b'z', ..])
}

// An offset of hours and minutes, in seconds; Z, missing minutes and the sign U+2212 only where they are allowed: the flags are chrono's parameters.
#[tactic(auto, using(crate::proofs::Places::zulu_cut), unfolding(crate::specs::Offsets::offset_at, crate::specs::Offsets::numeric_at))]
pub fn timezone_offset<S: Separator>(
    s: &[u8],
    sep: &mut S,
    allow_zulu: bool,
    allow_missing_minutes: bool,
    allow_tz_minus_sign: bool,
) -> Result<(i32, usize), ParseErrorKind>
    ensures value { result ≡ offset_at (S.means sep.old) allow_zulu allow_missing_minutes allow_tz_minus_sign s.now }
    ensures cut { Cuts s.now result }
    ensures same { Unmoved S.means sep.old sep.new }
{
    if is_zulu(s, allow_zulu) {
        return Ok((0, 1));
    }
    let (negative, hours, n) = signed_hours(s, allow_tz_minus_sign)?;
    let (minutes, m) = separated(&s[n..], sep, allow_missing_minutes)?;
    Ok((in_seconds(negative, hours * 3600 + minutes * 60), n + m))
}

// An offset of hours, minutes and seconds, as `TimezoneOffsetDoubleColon` is documented: the separator runs twice.
#[tactic(auto, unfolding(crate::specs::Offsets::double_colon_at))]
pub fn timezone_offset_double_colon<S: Separator>(
    s: &[u8],
    sep: &mut S,
    allow_tz_minus_sign: bool,
) -> Result<(i32, usize), ParseErrorKind>
    ensures value { result ≡ double_colon_at (S.means sep.old) allow_tz_minus_sign s.now }
    ensures cut { Cuts s.now result }
    ensures same { Unmoved S.means sep.old sep.new }
{
    let (negative, hours, n) = signed_hours(s, allow_tz_minus_sign)?;
    let (minutes, m) = separated(&s[n..], sep, false)?;
    let (seconds, k) = separated(&s[n + m..], sep, false)?;
    Ok((
        in_seconds(negative, hours * 3600 + minutes * 60 + seconds),
        n + m + k,
    ))
}

// An offset of hours alone, as `TimezoneOffsetTripleColon` is documented.
#[tactic(auto, unfolding(crate::specs::Offsets::triple_colon_at))]
pub fn timezone_offset_triple_colon(
    s: &[u8],
    allow_tz_minus_sign: bool,
) -> Result<(i32, usize), ParseErrorKind>
    ensures value { result ≡ triple_colon_at allow_tz_minus_sign s.now }
    ensures cut { Cuts s.now result }
{
    let (negative, hours, n) = signed_hours(s, allow_tz_minus_sign)?;
    Ok((in_seconds(negative, hours * 3600), n))
}

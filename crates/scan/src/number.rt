// Digits in front: a number, a fraction of a second, a year of mail.
ghost use Rattle.std.specs.Prelude.{◌≡◌, ◌<◌, ◌≤◌, length, IfOk};
ghost use Rattle.scan.specs.Numbers.{number_at, Written, digits_at, fraction_at, nanosecond_at, nanosecond_fixed_at, mail_year, year_2822_at};
ghost use Rattle.scan.specs.Precisions.{digits_of};
ghost use Rattle.scan.specs.Steps.{Cuts};

use super::kind::ParseErrorKind;

// A non-negative number of `min` to `max` digits. With `min` above `max` it reads `max` digits at most all the same.
pub fn number(s: &[u8], min: usize, max: usize) -> Result<(i64, usize), ParseErrorKind>
    ensures value { result ≡ number_at min max s.now }
    ensures cut { Cuts s.now result }
    ensures written { IfOk result (λ p. Written max s.now p.0 p.1) }
{
    if s.len() < min {
        return Err(ParseErrorKind::TooShort);
    }
    let mut n: i64 = 0;
    // the bound is asked in the loop: behind a cut to `max` bytes a fraction takes twice the time
    for (i, b) in s.iter().enumerate() {
        if i >= max {
            return Ok((n, i));
        }
        if !b.is_ascii_digit() {
            return if i < min {
                Err(ParseErrorKind::Invalid)
            } else {
                Ok((n, i))
            };
        }
        n = n
            .checked_mul(10)
            .and_then(|n| n.checked_add(i64::from(*b - b'0')))
            .ok_or(ParseErrorKind::OutOfRange)?;
    }
    Ok((n, s.len()))
}

// How many digits stand in front.
fn digits(s: &[u8]) -> usize
    ensures value { result ≡ digits_at s.now }
    ensures within { result ≤ length s.now }
{
    s.iter().take_while(|b| b.is_ascii_digit()).count()
}

// By how much a fraction of so many digits is scaled to nanoseconds.
const SCALE: [u32; 10] = [
    1_000_000_000,
    100_000_000,
    10_000_000,
    1_000_000,
    100_000,
    10_000,
    1_000,
    100,
    10,
    1,
];

// A fraction of a second of `min` to `max` digits, as nanoseconds.
fn fraction(s: &[u8], min: usize, max: usize) -> Result<(u32, usize), ParseErrorKind>
    requires { max ≤ 9 }
    ensures value { result ≡ fraction_at min max s.now }
    ensures cut { Cuts s.now result }
    ensures bound { IfOk result (λ p. p.0 < 1000000000) }
{
    let (v, n) = number(s, min, max)?;
    Ok((v as u32 * SCALE[n], n))
}

// A fraction of a second of at least one digit, as nanoseconds. Digits behind the ninth are taken and dropped.
#[tactic(auto, unfolding(crate::specs::Numbers::nanosecond_at))]
pub fn nanosecond(s: &[u8]) -> Result<(u32, usize), ParseErrorKind>
    ensures value { result ≡ nanosecond_at s.now }
    ensures cut { Cuts s.now result }
    ensures bound { IfOk result (λ p. p.0 < 1000000000) }
{
    let (nanos, n) = fraction(s, 1, 9)?;
    Ok((nanos, n + digits(&s[n..])))
}

// How many digits a fraction has: those of milliseconds, microseconds or nanoseconds.
#[derive(Clone, Copy, PartialEq, Eq, Debug)]
pub enum Precision {
    Milli = 3,
    Micro = 6,
    Nano = 9,
}

impl Precision {
    pub fn digits(self) -> usize
        ensures value { result ≡ digits_of self }
        ensures bound { result ≤ 9 }
    {
        self as usize
    }
}

// A fraction of a second of exactly so many digits, as nanoseconds.
#[tactic(auto, unfolding(crate::specs::Numbers::nanosecond_fixed_at))]
pub fn nanosecond_fixed(s: &[u8], precision: Precision) -> Result<(i64, usize), ParseErrorKind>
    ensures value { result ≡ nanosecond_fixed_at (digits_of precision) s.now }
    ensures cut { Cuts s.now result }
{
    let digits = precision.digits();
    let (nanos, n) = fraction(s, digits, digits)?;
    Ok((i64::from(nanos), n))
}

// The year that so many digits of a mail's date stand for.
pub fn mail_year(digits: usize, year: i64) -> i64
    ensures { result ≡ mail_year digits year }
{
    match (digits, year) {
        (2, 0..=49) => year + 2000,
        (2, 50..=99) => year + 1900,
        (3, 0..=999) => year + 1900,
        _ => year,
    }
}

// The year of a mail's date: two digits or more.
#[tactic(auto, unfolding(crate::specs::Numbers::year_2822_at))]
pub fn year_2822(s: &[u8]) -> Result<(i64, usize), ParseErrorKind>
    ensures value { result ≡ year_2822_at s.now }
    ensures cut { Cuts s.now result }
{
    let (year, n) = number(s, 2, usize::MAX)?;
    Ok((mail_year(n, year), n))
}

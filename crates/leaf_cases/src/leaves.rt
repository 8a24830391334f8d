// A case: which leaf, on which text.
use super::answer::{Reading, Refusal};
use scan::kind::ParseErrorKind;
use scan::number::Precision;
use std::alloc::{AllocError, Global};
use zones::offset::timezone_offset;
use zones::separator::{Colon, ColonOrSpace, NoSeparator};

#[derive(Clone, Copy)]
struct Case<'t> {
    leaf: &'t str,
    // what the leaf may take beside its text
    numbers: [usize; 4],
    hex: &'t str,
}

// `char::to_digit` takes `A` to `F` too.
fn digit(b: u8) -> Option<u8> {
    match b {
        b'0'..=b'9' => Some(b - b'0'),
        b'a'..=b'f' => Some(b - b'a' + 10),
        _ => None,
    }
}

// The byte that two digits stand for.
fn byte(pair: &[u8]) -> Option<u8> {
    let [high, low] = pair else {
        return None;
    };
    Some(digit(*high)? << 4 | digit(*low)?)
}

// The bytes that hex stands for, where it is hex; `?` hands on the error of memory alone.
fn unhex(heap: Global, hex: &str) -> Result<Option<Vec<u8>>, AllocError> {
    let mut bytes = Vec::new(heap);
    if hex == "-" {
        return Ok(Some(bytes));
    }
    for pair in hex.as_bytes().chunks(2) {
        let Some(byte) = byte(pair) else {
            return Ok(None);
        };
        bytes.push(byte)?;
    }
    Ok(Some(bytes))
}

// A case names a precision by its digits.
fn precision(digits: usize) -> Precision {
    match digits {
        3 => Precision::Milli,
        6 => Precision::Micro,
        _ => Precision::Nano,
    }
}

// A case names a separator by its first number; of the others 1 is for yes.
fn offset(numbers: [usize; 4], s: &[u8]) -> Result<(i32, usize), ParseErrorKind> {
    let [separator, zulu, missing_minutes, minus_sign] = numbers;
    let (zulu, missing_minutes, minus_sign) = (zulu == 1, missing_minutes == 1, minus_sign == 1);
    match separator {
        0 => timezone_offset(s, &mut NoSeparator, zulu, missing_minutes, minus_sign),
        1 => timezone_offset(s, &mut Colon, zulu, missing_minutes, minus_sign),
        _ => timezone_offset(s, &mut ColonOrSpace, zulu, missing_minutes, minus_sign),
    }
}

fn one(case: Case<'_>, s: &[u8]) -> Result<Reading, Refusal> {
    text::check_text(s).map_err(Refusal::NotText)?;
    let [first, second, ..] = case.numbers;
    Ok(match case.leaf {
        "text" => Reading::Bytes(s.len()),
        "blanks" => Reading::Bytes(text::blanks(s)),
        "non_blanks" => Reading::Bytes(text::non_blanks(s)),
        "char" => Reading::Bytes(scan::single::char(s, (first & 0xff) as u8)?),
        "space" => Reading::Bytes(scan::single::space(s)?),
        "colon_or_space" => Reading::Bytes(zones::separator::colon_or_space(s)),
        "number" => Reading::number(scan::number::number(s, first, second)?),
        "nanosecond" => Reading::number(scan::number::nanosecond(s)?),
        "nanosecond_fixed" => {
            Reading::number(scan::number::nanosecond_fixed(s, precision(first))?)
        }
        "short_month0" => Reading::number(names::names::short_month0(s)?),
        "short_or_long_month0" => Reading::number(names::names::short_or_long_month0(s)?),
        "short_weekday" => Reading::day(names::names::short_weekday(s)?),
        "short_or_long_weekday" => Reading::day(names::names::short_or_long_weekday(s)?),
        "timezone_offset" => Reading::number(offset(case.numbers, s)?),
        "timezone_offset_2822" => Reading::number(zones::mail::timezone_offset_2822(s)?),
        "comment_2822" => Reading::Bytes(comments::comment_2822(s)?),
        _ => return Err(Refusal::Unknown),
    })
}

fn parse(line: &str) -> Option<Case<'_>> {
    let mut words = line.splitn(6, ' ');
    let leaf = words.next()?;
    let mut numbers = [0; 4];
    for number in numbers.iter_mut() {
        *number = words.next()?.parse::<usize>().ok()?;
    }
    let hex = words.next()?;
    Some(Case { leaf, numbers, hex })
}

// What the line's case answers; `?` hands on the error of memory alone.
pub(crate) fn run(heap: Global, line: &str) -> Result<Result<Reading, Refusal>, AllocError> {
    let Some(case) = parse(line) else {
        return Ok(Err(Refusal::Unknown));
    };
    let bytes = unhex(heap, case.hex)?;
    Ok(
        bytes
            .ok_or(Refusal::Unknown)
            .and_then(|bytes| one(case, &bytes)),
    )
}

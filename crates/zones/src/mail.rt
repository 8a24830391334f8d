// The zones of mail: a number, or a name.
ghost use Rattle.std.specs.Prelude.{◌≡◌, ◌≤◌, IfSome};
ghost use Rattle.scan.specs.Steps.{Cuts};
ghost use Rattle.text.specs.Cuts.{Cut};
ghost use Rattle.zones.specs.Mail.{behind, entries, letters_at, listed, military, offset_2822_at};

use super::offset::{in_seconds, timezone_offset};
use super::separator::NoSeparator;
use scan::kind::ParseErrorKind;

// RFC 2822, section 4.3: by how many hours a zone is behind UTC.
const ZONES: [(&[u8], u32); 10] = [
    (b"ut", 0),
    (b"gmt", 0),
    (b"edt", 4),
    (b"est", 5),
    (b"cdt", 5),
    (b"cst", 6),
    (b"mdt", 6),
    (b"mst", 7),
    (b"pdt", 7),
    (b"pst", 8),
];

// How many ASCII letters stand in front.
fn letters(s: &[u8]) -> usize
    ensures value { result ≡ letters_at s.now }
    ensures cut { Cut s.now result }
{
    s.iter().take_while(|b| b.is_ascii_alphabetic()).count()
}

// The hours of a zone by a table.
fn listed(zones: &[(&[u8], u32)], name: &[u8]) -> Option<u32>
    ensures value { result ≡ listed (entries zones.now) name.now }
{
    zones
        .iter()
        .find(|(zone, _)| name.eq_ignore_ascii_case(zone))
        .map(|(_, hours)| *hours)
}

// A military zone, a single letter but J, is to be taken for UTC.
fn military(name: &[u8]) -> Option<u32>
    ensures { result ≡ military name.now }
{
    match name {
        [letter] if letter.to_ascii_lowercase() != b'j' => Some(0),
        _ => None,
    }
}

// The hours behind UTC of a zone of that name.
fn hours_behind(name: &[u8]) -> Option<u32>
    ensures value { result ≡ behind name.now }
    ensures bound { IfSome result (λ h. h ≤ 8) }
{
    listed(&ZONES, name).or_else(|| military(name))
}

// The offset of a zone of mail, in seconds: of a name where letters stand in front, else of a number of four digits.
#[tactic(auto, unfolding(crate::specs::Mail::offset_2822_at))]
pub fn timezone_offset_2822(s: &[u8]) -> Result<(i32, usize), ParseErrorKind>
    ensures value { result ≡ offset_2822_at s.now }
    ensures cut { Cuts s.now result }
{
    let n = letters(s);
    if n == 0 {
        return timezone_offset(s, &mut NoSeparator, false, false, false);
    }
    let hours = hours_behind(&s[..n]).ok_or(ParseErrorKind::Invalid)?;
    Ok((in_seconds(true, hours * 3600), n))
}

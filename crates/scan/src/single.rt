// One given byte; blanks, at least one.
ghost use Rattle.std.specs.Prelude.{◌≡◌, ◌<◌};
ghost use Rattle.scan.specs.Singles.{char_at, space_at};
ghost use Rattle.scan.specs.Steps.{CutsMark};

use super::kind::ParseErrorKind;

// Consumes exactly one given character, which is ASCII.
#[tactic(auto, unfolding(crate::specs::Singles::char_at))]
pub fn char(s: &[u8], c1: u8) -> Result<usize, ParseErrorKind>
    ensures value { result ≡ char_at c1 s.now }
    ensures cut { c1 < 128 → CutsMark s.now result }
{
    match s {
        [c, ..] if *c == c1 => Ok(1),
        [_, ..] => Err(ParseErrorKind::Invalid),
        [] => Err(ParseErrorKind::TooShort),
    }
}

// Consumes one or more blanks.
#[tactic(auto, unfolding(crate::specs::Singles::space_at))]
pub fn space(s: &[u8]) -> Result<usize, ParseErrorKind>
    ensures value { result ≡ space_at s.now }
    ensures cut { CutsMark s.now result }
{
    match text::blanks(s) {
        0 if s.is_empty() => Err(ParseErrorKind::TooShort),
        0 => Err(ParseErrorKind::Invalid),
        n => Ok(n),
    }
}

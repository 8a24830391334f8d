// What stands between the hours and the minutes of an offset.
ghost use Rattle.std.specs.Prelude.{◌≡◌, ℕ, List, Ok, Result as Answer};
ghost use Rattle.scan.specs.Steps.{CutsMark};
ghost use Rattle.scan.specs.declared.kind.ParseErrorKind.{ParseErrorKind as Kind};
ghost use Rattle.text.specs.Cuts.{Cut};
ghost use Rattle.zones.specs.Separators.{Modest, Unmoved, nothing_at, colon_at, colon_or_space_at, colon_or_blank, colon_or_space};
ghost use Rattle.std.proofs.Common.{rules, arith};
ghost use Rattle.scan.proofs.Marks.{char_cut};
ghost use Rattle.zones.specs.ColonSeparatorLemmas;
ghost use Rattle.text.proofs.Runs.{run_cut};

use scan::kind::ParseErrorKind;
use text::CharClass;

// Its meaning is one answer for each text: how many bytes it takes off the front, or a refusal.
pub trait Separator {
    ghost means: { Self → List ℕ → Answer ℕ Kind };

    // A run gives the answer for its text, and the meaning stays.
    fn run(&mut self, text: &[u8]) -> Result<usize, ParseErrorKind>
        ensures value { result ≡ means self.old text.now }
        ensures same { Unmoved means self.old self.new };

    // it takes whole characters, and no more than the text has
    ghost cuts: { (s : Self) (t : List ℕ) → CutsMark t (means s t) };

    // it refuses a text as Invalid or as TooShort, and as nothing else
    ghost modest: { (s : Self) (t : List ℕ) → Modest (means s t) };
}

// Nothing stands there.
#[derive(Clone, Copy)]
pub struct NoSeparator;

impl Separator for NoSeparator {
    ghost means = { λ _ t. nothing_at t };

    ghost cuts = { Prim.search rules };

    ghost modest = { Prim.search rules };

    fn run(&mut self, _text: &[u8]) -> Result<usize, ParseErrorKind> {
        Ok(0)
    }
}

// One colon.
#[derive(Clone, Copy)]
pub struct Colon;

impl Separator for Colon {
    ghost means = { λ _ t. colon_at t };

    ghost cuts = { λ s t. char_cut 58 t (omega arith) };

    ghost modest = { λ s t. ColonSeparatorLemmas.modest t };

    fn run(&mut self, text: &[u8]) -> Result<usize, ParseErrorKind> {
        scan::single::char(text, b':')
    }
}

// A colon, and all blanks.
struct ColonOrBlank;

impl CharClass for ColonOrBlank {
    ghost has = { colon_or_blank };

    fn contains(c: char) -> bool {
        c == ':' || text::is_blank(c)
    }
}

// Consumes any number, also none, of colons and blanks.
#[tactic(auto, unfolding(crate::specs::Separators::colon_or_space))]
pub fn colon_or_space(s: &[u8]) -> usize
    ensures value { result ≡ colon_or_space s.now }
    ensures cut { Cut s.now result }
{
    text::run::<ColonOrBlank>(s)
}

// Any number of colons and blanks.
#[derive(Clone, Copy)]
pub struct ColonOrSpace;

impl Separator for ColonOrSpace {
    ghost means = { λ _ t. colon_or_space_at t };

    ghost cuts = { unfold colon_or_space in λ s t. run_cut colon_or_blank t };

    ghost modest = { Prim.search rules };

    fn run(&mut self, text: &[u8]) -> Result<usize, ParseErrorKind> {
        Ok(colon_or_space(text))
    }
}

// Text: which bytes are UTF-8, the character that stands in front, blanks, and runs of a class of characters.
#![tactic(auto)]

ghost use Rattle.std.specs.Prelude.{◌≡◌, ℕ, Bool};
ghost use Rattle.text.specs.Chars.{first_char, blank, not_blank, blanks_at, non_blanks_at, run, text_check};
ghost use Rattle.text.specs.Cuts.{Cut, First, Checked};

// The character that bytes begin with, if they begin with one.
pub fn first_char(s: &[u8]) -> Option<char>
    ensures value { result ≡ first_char s.now }
    ensures meaning { First s.now result }
{
    match s {
        [b, ..] if b.is_ascii() => Some(char::from(*b)),
        // no character has more than four bytes
        _ => {
            let chunk = s[..s.len().min(4)].utf8_chunks().next()?;
            chunk.valid().chars().next()
        }
    }
}

// Unicode's White_Space.
const WHITE_SPACE: [char; 25] = [
    '\u{9}', '\u{a}', '\u{b}', '\u{c}', '\u{d}', '\u{20}', '\u{85}', '\u{a0}', '\u{1680}',
    '\u{2000}', '\u{2001}', '\u{2002}', '\u{2003}', '\u{2004}', '\u{2005}', '\u{2006}', '\u{2007}',
    '\u{2008}', '\u{2009}', '\u{200a}', '\u{2028}', '\u{2029}', '\u{202f}', '\u{205f}', '\u{3000}',
];

// How many bytes of blanks stand in front.
pub fn blanks(s: &[u8]) -> usize
    ensures value { result ≡ blanks_at s.now }
    ensures cut { Cut s.now result }
{
    let mut n: usize = 0;
    // a search of the table inside the loop, left by the label, and no `run` of a class: docs/DECISIONS.md, "Forms"
    'chars: while let Some(c) = first_char(&s[n..]) {
        for b in WHITE_SPACE {
            if c == b {
                n += c.len_utf8();
                continue 'chars;
            }
        }
        break;
    }
    n
}

// A class of characters.
pub trait CharClass {
    ghost has: { ℕ → Bool };

    fn contains(c: char) -> bool
        ensures { result ≡ has c };
}

// How many bytes of characters of a class stand in front.
pub fn run<K: CharClass>(s: &[u8]) -> usize
    ensures value { result ≡ run K.has s.now }
    ensures cut { Cut s.now result }
{
    let mut end = 0;
    // the library's iterators of characters take a text, and would check all that is left of it at each run
    while let Some(c) = first_char(&s[end..]) {
        if !K::contains(c) {
            break;
        }
        end += c.len_utf8();
    }
    end
}

// All characters but blanks.
struct NonBlank;

impl CharClass for NonBlank {
    ghost has = { not_blank };

    fn contains(c: char) -> bool {
        !is_blank(c)
    }
}

// How many bytes of characters that are no blanks stand in front.
#[tactic(auto, unfolding(crate::specs::Chars::non_blanks_at))]
pub fn non_blanks(s: &[u8]) -> usize
    ensures value { result ≡ non_blanks_at s.now }
    ensures cut { Cut s.now result }
{
    run::<NonBlank>(s)
}

// Has the character White_Space?
pub fn is_blank(c: char) -> bool
    ensures { result ≡ blank c }
{
    WHITE_SPACE.iter().any(|b| c == *b)
}

// Are the bytes text? If not, how long is the longest beginning that is?
pub fn check_text(bytes: &[u8]) -> Result<(), usize>
    ensures value { result ≡ text_check bytes.now }
    ensures meaning { Checked bytes.now result }
{
    std::str::from_utf8(bytes).map_or_else(|e| Err(e.valid_up_to()), |_| Ok(()))
}

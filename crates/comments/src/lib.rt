// Comments as e-mail headers have them (RFC 2822, section 3.2.3).
#![tactic(auto)]

ghost use Rattle.std.specs.Prelude.{◌≡◌};
ghost use Rattle.comments.specs.Comments.{closes_at, comment_at};
ghost use Rattle.comments.specs.Grammar.{Exactly};
ghost use Rattle.scan.specs.Steps.{CutsMark};

use scan::kind::ParseErrorKind;

#[derive(Clone, Copy)]
enum CommentState {
    Start,
    // how many comments are open
    Next(usize),
    // the same, behind a backslash
    Escape(usize),
}

// The count of bytes that one comment takes, from its '(' to the ')' that closes it.
fn closes(s: &[u8]) -> Result<usize, ParseErrorKind>
    ensures value { result ≡ closes_at s.now }
    ensures cut { CutsMark s.now result }
{
    use CommentState::*;

    let mut state = Start;
    // the state is matched with the byte in the loop, and by no fold: docs/DECISIONS.md, "Forms"; the index is the answer
    for (i, b) in s.iter().enumerate() {
        state = match (state, *b) {
            (Start, b'(') => Next(1),
            (Next(1), b')') => return Ok(i + 1),
            (Next(depth), b'\\') => Escape(depth),
            (Next(depth), b'(') => Next(depth + 1),
            (Next(depth), b')') => Next(depth - 1),
            (Next(depth), _) | (Escape(depth), _) => Next(depth),
            _ => return Err(ParseErrorKind::Invalid),
        };
    }
    Err(ParseErrorKind::TooShort)
}

// Consumes blanks and one comment, and answers the count of their bytes. Comments nest, and a backslash exempts the byte behind it.
pub fn comment_2822(s: &[u8]) -> Result<usize, ParseErrorKind>
    ensures value { result ≡ comment_at s.now }
    ensures cut { CutsMark s.now result }
    ensures grammar { Exactly s.now result }
{
    let n = text::blanks(s);
    Ok(n + closes(&s[n..])?)
}

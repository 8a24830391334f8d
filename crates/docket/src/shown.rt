// A docket as text.
ghost use Rattle.std.specs.Prelude.{Some};
ghost use Rattle.docket.specs.Listed.{entries_of};
ghost use Rattle.docket.specs.Shown.{entry_text, docket_text};

use super::Docket;
use super::entry::Entry;
use collect::field::Field;
use std::fmt;

// As month=5.
impl fmt::Display for Entry {
    ghost output = { λ e. Some (entry_text e) };

    fn fmt<W: fmt::Write>(&self, f: &mut fmt::Formatter<W>) -> fmt::Result {
        match Field::try_from(self.field) {
            Ok(known) => write!(f, "{known}={}", self.value),
            Err(_) => write!(f, "{}={}", self.field, self.value),
        }
    }
}

// As month=5 hour_div_12=1.
impl fmt::Display for Docket {
    ghost output = { λ d. Some (docket_text (entries_of d)) };

    fn fmt<W: fmt::Write>(&self, f: &mut fmt::Formatter<W>) -> fmt::Result {
        let Some((first, rest)) = self.entries.as_slice().split_first() else {
            return f.write_str("empty");
        };
        write!(f, "{first}")?;
        for e in rest {
            write!(f, " {e}")?;
        }
        Ok(())
    }
}

// What a docket answers, and how it grows.
ghost use Rattle.std.specs.Prelude.{◌≡◌, [], length, IfOk, ◌==◌};
ghost use Rattle.std.proofs.Common.{ap, ◌∙◌, rules, arith};
ghost use Rattle.std.specs.List.{slice_get};
ghost use Rattle.docket.specs.Entries.{look};
ghost use Rattle.docket.specs.Noted.{Noted};
ghost use Rattle.docket.specs.Listed.{entries_of, docket_table};
ghost use Rattle.docket.specs.Held.{noted_kept};
ghost use Rattle.docket.specs.Pushed.{look_fits};

use super::Docket;
use super::entry::Entry;
use collect::collector::Collector;
use collect::fault::Cause;
use collect::field::Field;
use scan::kind::ParseErrorKind;
use std::alloc::{AllocError, Global};

// The value of a field, if an entry has one. By the library's search an offer takes twice the time.
fn sought(entries: &[Entry], field: u8) -> Option<i64>
    ensures { result ≡ look entries.now field }
{
    for e in entries {
        if e.field == field {
            return Some(e.value);
        }
    }
    None
}

impl Docket {
    pub fn new(heap: Global) -> Result<Docket, AllocError>
        ensures { IfOk result (λ d. entries_of d ≡ []) }
    {
        let entries = Vec::with_capacity(heap, Field::ALL.len())?;
        Ok(Docket { entries })
    }

    pub fn len(&self) -> usize
        ensures { result ≡ length (entries_of self.now) }
    {
        self.entries.len()
    }

    pub fn is_empty(&self) -> bool
        ensures { result ≡ (length (entries_of self.now) == 0) }
    {
        self.entries.is_empty()
    }

    // The entry at a place, counted from 0.
    pub fn entry(&self, place: usize) -> Option<Entry>
        ensures { result ≡ slice_get (entries_of self.now) place }
    {
        self.entries.as_slice().get(place).copied()
    }
}

impl Collector for Docket {
    ghost table = { docket_table };

    ghost offered = { λ s f v a t. Noted (entries_of s) f v a (entries_of t) };

    ghost answers = { first_of (Prim.search rules, Prim.grind (arith, Self.row.coded.inj)) };

    ghost holds = { λ s f v a t x. ap look x.list ∙ noted_kept (entries_of s) f v };

    ghost ranged = { λ s. look_fits (entries_of s) s.fitting };

    fn offer(&mut self, field: u8, value: i64) -> Result<(), Cause> {
        let known = Field::try_from(field)?;
        if !known.admits(value) {
            return Err(Cause::of_field(ParseErrorKind::OutOfRange, known));
        }
        match sought(self.entries.as_slice(), field) {
            Some(held) if held == value => Ok(()),
            Some(_) => Err(Cause::of_field(ParseErrorKind::Impossible, known)),
            None => {
                // there is room: no two entries are of one field
                self.entries.push_reserved(Entry { field, value });
                Ok(())
            }
        }
    }

    fn ask(&self, field: u8) -> Option<i64> {
        sought(self.entries.as_slice(), field)
    }
}

// What collects values for fields.
ghost use Rattle.std.specs.Prelude.{◌≡◌, ℕ, ℤ, Option};
ghost use Rattle.collect.specs.Tables.{Table};
ghost use Rattle.collect.specs.Judge.{Verdict, judge, kept, Ranged};
ghost use Rattle.collect.specs.Faults.{verdict};

use super::fault::Cause;

pub trait Collector {
    // What it holds.
    ghost table: { Self → Table ℤ };

    // An offer of a value to the field of a number may take it from a state, with an answer, to a state.
    ghost offered: { Self → ℕ → ℤ → Verdict → Self → Type 0 };

    // The field is named by a number and not by a `Field`, since a number of no field has an answer of its own.
    fn offer(&mut self, field: u8, value: i64) -> Result<(), Cause>
        ensures { offered self.old field value (verdict result) self.new };

    // The value of a field, if it has one: by number too, and the number of no field has none.
    fn ask(&self, field: u8) -> Option<i64>
        ensures { result ≡ table self.now field };

    ghost answers: { (s : Self) (f : ℕ) (v : ℤ) (a : Verdict) (t : Self) → offered s f v a t → a ≡ judge (table s) f v };

    ghost holds: { (s : Self) (f : ℕ) (v : ℤ) (a : Verdict) (t : Self) → offered s f v a t → table t ≡ kept (table s) f v };

    ghost ranged: { (s : Self) → Ranged (table s) };
}

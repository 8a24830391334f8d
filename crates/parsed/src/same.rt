// Values that can be told apart, and a slot that keeps its first one.
ghost use Rattle.std.specs.Prelude.{◌≡◌, Decides};
ghost use Rattle.std.specs.Cmp.{signed_Decides, unsigned_Decides};
ghost use Rattle.std.proofs.Common.{rules};
ghost use Rattle.collect.specs.Faults.{verdict};
ghost use Rattle.collect.specs.Fields.{field_number};
ghost use Rattle.parsed.specs.Put.{Put};

use collect::fault::Cause;
use collect::field::Field;
use names::weekday::Weekday;
use scan::kind::ParseErrorKind;

// Values that can be told apart.
pub trait Same {
    // Are they the same value?
    fn same(&self, other: &Self) -> bool
        ensures { Decides result (self.now ≡ other.now) };
}

// `==` says yes exactly for the same value.
pub trait Exact: PartialEq {
    ghost exact: { (a b : Self) → Decides (Self.eq a b) (a ≡ b) };
}

impl<T: Exact> Same for T {
    fn same(&self, other: &T) -> bool {
        *self == *other
    }
}

impl Exact for i32 {
    ghost exact = { signed_Decides };
}

impl Exact for u32 {
    ghost exact = { unsigned_Decides };
}

impl Exact for i64 {
    ghost exact = { signed_Decides };
}

impl Exact for Weekday {
    ghost exact = { Prim.search rules };
}

// Keeps the value that is there, takes a new one where there is none, and refuses another.
pub fn set_if_consistent<T: Same + Drop>(
    old: &mut Option<T>,
    new: T,
    field: Field,
) -> Result<(), Cause>
    ensures { Put old.old new (field_number field) (verdict result) old.new }
{
    match old {
        Some(held) if held.same(&new) => Ok(()),
        Some(_) => Err(Cause::of_field(ParseErrorKind::Impossible, field)),
        None => {
            *old = Some(new);
            Ok(())
        }
    }
}

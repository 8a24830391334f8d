// One field of a record, as it takes an offer.
ghost use Rattle.std.specs.Prelude.{◌≡◌, ℤ, pos, nat_abs};
ghost use Rattle.std.specs.Option.{option_map};
ghost use Rattle.std.proofs.Common.{ap, rules};
ghost use Rattle.names.specs.Days.{day_number};
ghost use Rattle.collect.specs.Faults.{verdict};
ghost use Rattle.collect.specs.Fields.{field_number};
ghost use Rattle.parsed.specs.Slots.{Slotted, KeptAs, Holds, kept_as, signed, counted, wide, a_day};

use super::same::{Exact, set_if_consistent};
use collect::fault::Cause;
use collect::field::Field;
use names::weekday::Weekday;
use scan::kind::ParseErrorKind;

// A type that fields are kept in, whose values stand for numbers.
// `of` is no `TryFrom`, since it cannot fail; what it and `number` give, the ghost members say.
pub(crate) trait Kept: Exact + Copy {
    ghost kind: { KeptAs };

    // What a value stands for.
    ghost number: { Self → ℤ };

    // The value that stands for a number.
    fn of(value: i64) -> Self
        requires { Holds kind value }
        ensures { number result ≡ value };

    fn number(self) -> i64
        ensures { result ≡ number self };

    // No two values stand for one number.
    ghost apart: { (x y : Self) → number x ≡ number y → x ≡ y };
}

impl Kept for i32 {
    ghost kind = { signed };

    ghost number = { λ x. x };

    ghost apart = { λ x y e. e };

    fn of(value: i64) -> i32 {
        value as i32
    }

    fn number(self) -> i64 {
        i64::from(self)
    }
}

impl Kept for u32 {
    ghost kind = { counted };

    ghost number = { pos };

    ghost apart = { λ x y e. ap nat_abs e };

    fn of(value: i64) -> u32 {
        value as u32
    }

    fn number(self) -> i64 {
        i64::from(self)
    }
}

impl Kept for i64 {
    ghost kind = { wide };

    ghost number = { λ x. x };

    ghost apart = { λ x y e. e };

    fn of(value: i64) -> i64 {
        value
    }

    fn number(self) -> i64 {
        self
    }
}

impl Kept for Weekday {
    ghost kind = { a_day };

    ghost number = { λ d. pos (day_number d) };

    ghost apart = { Prim.search rules };

    fn of(value: i64) -> Weekday {
        Weekday::try_from(value as u8).unwrap()
    }

    fn number(self) -> i64 {
        i64::from(self.num_days_from_monday())
    }
}

// Puts a value into the slot of its field.
pub(crate) fn put<T: Kept>(slot: &mut Option<T>, field: Field, value: i64) -> Result<(), Cause>
    requires { kept_as field ≡ T.kind }
    ensures { Slotted (option_map T.number slot.old) (field_number field) value (verdict result) (option_map T.number slot.new) }
{
    if !field.admits(value) {
        return Err(Cause::of_field(ParseErrorKind::OutOfRange, field));
    }
    set_if_consistent(slot, T::of(value), field)
}

// The number of what is held.
pub(crate) fn asked<T: Kept>(held: Option<T>) -> Option<i64>
    ensures { result ≡ option_map T.number held }
{
    held.map(T::number)
}

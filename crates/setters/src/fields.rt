// The setters of a record, over any collector. Each is called by chrono's name, and promises the chain of its own offers; what they have in common is `give`.
ghost use Rattle.std.specs.Prelude.{◌≡◌, ℤ, pos, if◌then◌else◌, Err};
ghost use Rattle.names.specs.Days.{day_number};
ghost use Rattle.collect.specs.Chain.{Takes};
ghost use Rattle.collect.specs.Faults.{told, nowhere};
ghost use Rattle.setters.specs.Setters.{one_offer, not_offered, halves_of, clock_hour, tries};

use super::setter::Setter;
use collect::collector::Collector;
use collect::fault::{Cause, Fault};
use collect::field::Field;
use names::weekday::Weekday;
use scan::kind::ParseErrorKind;

// The refusal of a value that is not offered.
fn out_of_range(field: Field) -> Fault
    ensures { told {A = Unit {0}} nowhere (Err result) ≡ (not_offered field).ending }
{
    Fault::from(Cause::of_field(ParseErrorKind::OutOfRange, field))
}

// One offer, by no item and at no place.
pub(crate) fn give<C: Collector>(c: &mut C, field: Field, value: i64) -> Result<(), Fault>
    ensures { Takes C.Collector.offered c.old (one_offer field value) (told nowhere result) c.new }
{
    Ok(c.offer(field.number(), value)?)
}

pub fn set_year<C: Collector>(c: &mut C, value: i64) -> Result<(), Fault>
    ensures { Takes C.Collector.offered c.old (tries Setter.Year value) (told nowhere result) c.new }
{
    give(c, Field::Year, value)
}

pub fn set_year_div_100<C: Collector>(c: &mut C, value: i64) -> Result<(), Fault>
    ensures { Takes C.Collector.offered c.old (tries Setter.YearDiv100 value) (told nowhere result) c.new }
{
    give(c, Field::YearDiv100, value)
}

pub fn set_year_mod_100<C: Collector>(c: &mut C, value: i64) -> Result<(), Fault>
    ensures { Takes C.Collector.offered c.old (tries Setter.YearMod100 value) (told nowhere result) c.new }
{
    give(c, Field::YearMod100, value)
}

pub fn set_isoyear<C: Collector>(c: &mut C, value: i64) -> Result<(), Fault>
    ensures { Takes C.Collector.offered c.old (tries Setter.Isoyear value) (told nowhere result) c.new }
{
    give(c, Field::Isoyear, value)
}

pub fn set_isoyear_div_100<C: Collector>(c: &mut C, value: i64) -> Result<(), Fault>
    ensures { Takes C.Collector.offered c.old (tries Setter.IsoyearDiv100 value) (told nowhere result) c.new }
{
    give(c, Field::IsoyearDiv100, value)
}

pub fn set_isoyear_mod_100<C: Collector>(c: &mut C, value: i64) -> Result<(), Fault>
    ensures { Takes C.Collector.offered c.old (tries Setter.IsoyearMod100 value) (told nowhere result) c.new }
{
    give(c, Field::IsoyearMod100, value)
}

pub fn set_quarter<C: Collector>(c: &mut C, value: i64) -> Result<(), Fault>
    ensures { Takes C.Collector.offered c.old (tries Setter.Quarter value) (told nowhere result) c.new }
{
    give(c, Field::Quarter, value)
}

pub fn set_month<C: Collector>(c: &mut C, value: i64) -> Result<(), Fault>
    ensures { Takes C.Collector.offered c.old (tries Setter.Month value) (told nowhere result) c.new }
{
    give(c, Field::Month, value)
}

pub fn set_week_from_sun<C: Collector>(c: &mut C, value: i64) -> Result<(), Fault>
    ensures { Takes C.Collector.offered c.old (tries Setter.WeekFromSun value) (told nowhere result) c.new }
{
    give(c, Field::WeekFromSun, value)
}

pub fn set_week_from_mon<C: Collector>(c: &mut C, value: i64) -> Result<(), Fault>
    ensures { Takes C.Collector.offered c.old (tries Setter.WeekFromMon value) (told nowhere result) c.new }
{
    give(c, Field::WeekFromMon, value)
}

pub fn set_isoweek<C: Collector>(c: &mut C, value: i64) -> Result<(), Fault>
    ensures { Takes C.Collector.offered c.old (tries Setter.Isoweek value) (told nowhere result) c.new }
{
    give(c, Field::Isoweek, value)
}

pub fn set_weekday<C: Collector>(c: &mut C, value: Weekday) -> Result<(), Fault>
    ensures { Takes C.Collector.offered c.old (tries Setter.Weekday (pos (day_number value))) (told nowhere result) c.new }
{
    give(c, Field::Weekday, i64::from(value.num_days_from_monday()))
}

pub fn set_ordinal<C: Collector>(c: &mut C, value: i64) -> Result<(), Fault>
    ensures { Takes C.Collector.offered c.old (tries Setter.Ordinal value) (told nowhere result) c.new }
{
    give(c, Field::Ordinal, value)
}

pub fn set_day<C: Collector>(c: &mut C, value: i64) -> Result<(), Fault>
    ensures { Takes C.Collector.offered c.old (tries Setter.Day value) (told nowhere result) c.new }
{
    give(c, Field::Day, value)
}

// Before noon is `false`, from noon on `true`.
pub fn set_ampm<C: Collector>(c: &mut C, value: bool) -> Result<(), Fault>
    ensures { Takes C.Collector.offered c.old (tries Setter.Ampm (if value then pos 1 else pos 0)) (told nowhere result) c.new }
{
    give(c, Field::HourDiv12, i64::from(value))
}

// The hours since midnight or noon that a clock of 12 hours shows.
fn on_clock(value: i64) -> Option<i64>
    ensures { result ≡ clock_hour value }
{
    match value {
        12 => Some(0),
        1..=11 => Some(value),
        _ => None,
    }
}

// The hour on a clock of 12 hours.
pub fn set_hour12<C: Collector>(c: &mut C, value: i64) -> Result<(), Fault>
    ensures { Takes C.Collector.offered c.old (tries Setter.Hour12 value) (told nowhere result) c.new }
{
    let hour = on_clock(value).ok_or(out_of_range(Field::HourMod12))?;
    give(c, Field::HourMod12, hour)
}

// The half of the day that an hour lies in, and its hour of that.
fn halves(value: i64) -> Option<(i64, i64)>
    ensures { result ≡ halves_of value }
{
    match value {
        0..=11 => Some((0, value)),
        12..=23 => Some((1, value - 12)),
        _ => None,
    }
}

// The hour of the day. Refused at its second half, it has set the first.
pub fn set_hour<C: Collector>(c: &mut C, value: i64) -> Result<(), Fault>
    ensures { Takes C.Collector.offered c.old (tries Setter.Hour value) (told nowhere result) c.new }
{
    let (half, hour) = halves(value).ok_or(out_of_range(Field::HourDiv12))?;
    give(c, Field::HourDiv12, half)?;
    give(c, Field::HourMod12, hour)
}

pub fn set_minute<C: Collector>(c: &mut C, value: i64) -> Result<(), Fault>
    ensures { Takes C.Collector.offered c.old (tries Setter.Minute value) (told nowhere result) c.new }
{
    give(c, Field::Minute, value)
}

pub fn set_second<C: Collector>(c: &mut C, value: i64) -> Result<(), Fault>
    ensures { Takes C.Collector.offered c.old (tries Setter.Second value) (told nowhere result) c.new }
{
    give(c, Field::Second, value)
}

pub fn set_nanosecond<C: Collector>(c: &mut C, value: i64) -> Result<(), Fault>
    ensures { Takes C.Collector.offered c.old (tries Setter.Nanosecond value) (told nowhere result) c.new }
{
    give(c, Field::Nanosecond, value)
}

pub fn set_timestamp<C: Collector>(c: &mut C, value: i64) -> Result<(), Fault>
    ensures { Takes C.Collector.offered c.old (tries Setter.Timestamp value) (told nowhere result) c.new }
{
    give(c, Field::Timestamp, value)
}

pub fn set_offset<C: Collector>(c: &mut C, value: i64) -> Result<(), Fault>
    ensures { Takes C.Collector.offered c.old (tries Setter.Offset value) (told nowhere result) c.new }
{
    give(c, Field::Offset, value)
}

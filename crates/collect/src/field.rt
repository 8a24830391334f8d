// The fields of a record.
ghost use Rattle.std.specs.Prelude.{◌≡◌, Some, None, MatchResult};
ghost use Rattle.collect.specs.Fields.{field_number, field_name, range, fits};
ghost use Rattle.collect.specs.Faults.{no_field};

use super::fault::Cause;
use std::fmt;

#[derive(Clone, Copy, PartialEq, Eq, Debug)]
pub enum Field {
    Year = 1,
    // the year without its last two digits
    YearDiv100 = 2,
    // the last two digits of the year
    YearMod100 = 3,
    // the year that a week of ISO 8601 belongs to
    Isoyear = 4,
    IsoyearDiv100 = 5,
    IsoyearMod100 = 6,
    Quarter = 7,
    Month = 8,
    // weeks of the year, each from a Sunday on
    WeekFromSun = 9,
    // weeks of the year, each from a Monday on
    WeekFromMon = 10,
    // weeks by ISO 8601
    Isoweek = 11,
    // 0 is Monday
    Weekday = 12,
    // the day of the year
    Ordinal = 13,
    // the day of the month
    Day = 14,
    // 0 before noon, 1 from noon on
    HourDiv12 = 15,
    // hours since midnight or noon
    HourMod12 = 16,
    Minute = 17,
    // 60 is a leap second
    Second = 18,
    Nanosecond = 19,
    // seconds since 1970-01-01T00:00:00Z
    Timestamp = 20,
    // seconds east of UTC
    Offset = 21,
}

impl Field {
    // Every field's number is below this.
    pub const END: u8 = 22;

    // Every field, in the order of the numbers.
    pub const ALL: [Field; 21] = [
        Field::Year,
        Field::YearDiv100,
        Field::YearMod100,
        Field::Isoyear,
        Field::IsoyearDiv100,
        Field::IsoyearMod100,
        Field::Quarter,
        Field::Month,
        Field::WeekFromSun,
        Field::WeekFromMon,
        Field::Isoweek,
        Field::Weekday,
        Field::Ordinal,
        Field::Day,
        Field::HourDiv12,
        Field::HourMod12,
        Field::Minute,
        Field::Second,
        Field::Nanosecond,
        Field::Timestamp,
        Field::Offset,
    ];

    pub fn number(self) -> u8
        ensures { result ≡ field_number self }
    {
        self as u8
    }

    // The least and the largest value that the field may hold.
    #[tactic(auto, unfolding(crate::specs::Fields::range))]
    pub fn range(self) -> (i64, i64)
        ensures { range (field_number self) ≡ Some result }
    {
        match self {
            Field::Year | Field::Isoyear | Field::Offset => (
                i64::from(i32::MIN),
                i64::from(i32::MAX),
            ),
            Field::YearDiv100 | Field::IsoyearDiv100 => (0, i64::from(i32::MAX)),
            Field::YearMod100 | Field::IsoyearMod100 => (0, 99),
            Field::Quarter => (1, 4),
            Field::Month => (1, 12),
            Field::WeekFromSun | Field::WeekFromMon => (0, 53),
            Field::Isoweek => (1, 53),
            Field::Weekday => (0, 6),
            Field::Ordinal => (1, 366),
            Field::Day => (1, 31),
            Field::HourDiv12 => (0, 1),
            Field::HourMod12 => (0, 11),
            Field::Minute => (0, 59),
            Field::Second => (0, 60),
            Field::Nanosecond => (0, 999_999_999),
            Field::Timestamp => (i64::MIN, i64::MAX),
        }
    }

    // May the field hold the value?
    pub fn admits(self, value: i64) -> bool
        ensures { result ≡ fits (field_number self) value }
    {
        let (low, high) = self.range();
        // by a range that contains the value, the ranges are no look-up of constants
        low <= value && value <= high
    }

    // As chrono calls it.
    pub fn name(self) -> &'static str
        ensures { result.now ≡ field_name self }
    {
        match self {
            Field::Year => "year",
            Field::YearDiv100 => "year_div_100",
            Field::YearMod100 => "year_mod_100",
            Field::Isoyear => "isoyear",
            Field::IsoyearDiv100 => "isoyear_div_100",
            Field::IsoyearMod100 => "isoyear_mod_100",
            Field::Quarter => "quarter",
            Field::Month => "month",
            Field::WeekFromSun => "week_from_sun",
            Field::WeekFromMon => "week_from_mon",
            Field::Isoweek => "isoweek",
            Field::Weekday => "weekday",
            Field::Ordinal => "ordinal",
            Field::Day => "day",
            Field::HourDiv12 => "hour_div_12",
            Field::HourMod12 => "hour_mod_12",
            Field::Minute => "minute",
            Field::Second => "second",
            Field::Nanosecond => "nanosecond",
            Field::Timestamp => "timestamp",
            Field::Offset => "offset",
        }
    }
}

// The field of a number. The number of no field is refused as an offer to it is, with 0 in place of a field.
impl TryFrom<u8> for Field {
    type Error = Cause;

    ghost try_from_gives = { λ n r. MatchResult r (λ f. field_number f ≡ n) (λ w. (range n ≡ None) × (w ≡ no_field)) };

    fn try_from(number: u8) -> Result<Field, Cause> {
        match number {
            1 => Ok(Field::Year),
            2 => Ok(Field::YearDiv100),
            3 => Ok(Field::YearMod100),
            4 => Ok(Field::Isoyear),
            5 => Ok(Field::IsoyearDiv100),
            6 => Ok(Field::IsoyearMod100),
            7 => Ok(Field::Quarter),
            8 => Ok(Field::Month),
            9 => Ok(Field::WeekFromSun),
            10 => Ok(Field::WeekFromMon),
            11 => Ok(Field::Isoweek),
            12 => Ok(Field::Weekday),
            13 => Ok(Field::Ordinal),
            14 => Ok(Field::Day),
            15 => Ok(Field::HourDiv12),
            16 => Ok(Field::HourMod12),
            17 => Ok(Field::Minute),
            18 => Ok(Field::Second),
            19 => Ok(Field::Nanosecond),
            20 => Ok(Field::Timestamp),
            21 => Ok(Field::Offset),
            _ => Err(Cause::no_field()),
        }
    }
}

impl fmt::Display for Field {
    ghost output = { λ x. Some (field_name x) };

    fn fmt<W: fmt::Write>(&self, f: &mut fmt::Formatter<W>) -> fmt::Result {
        f.write_str(self.name())
    }
}

// Which setter.
ghost use Rattle.std.specs.Prelude.{◌≡◌, Some, MatchResult, codes, ◌≢◌};
ghost use Rattle.setters.specs.Names.{setter_name};
ghost use Rattle.setters.specs.declared.setter.Setter.{Setter};

use std::error::Error;
use std::fmt;
use std::str::FromStr;

#[derive(Clone, Copy, PartialEq, Eq, Debug)]
pub enum Setter {
    Year,
    YearDiv100,
    YearMod100,
    Isoyear,
    IsoyearDiv100,
    IsoyearMod100,
    Quarter,
    Month,
    WeekFromSun,
    WeekFromMon,
    Isoweek,
    Weekday,
    Ordinal,
    Day,
    Ampm,
    Hour12,
    Hour,
    Minute,
    Second,
    Nanosecond,
    Timestamp,
    Offset,
}

impl Setter {
    pub const ALL: [Setter; 22] = [
        Setter::Year,
        Setter::YearDiv100,
        Setter::YearMod100,
        Setter::Isoyear,
        Setter::IsoyearDiv100,
        Setter::IsoyearMod100,
        Setter::Quarter,
        Setter::Month,
        Setter::WeekFromSun,
        Setter::WeekFromMon,
        Setter::Isoweek,
        Setter::Weekday,
        Setter::Ordinal,
        Setter::Day,
        Setter::Ampm,
        Setter::Hour12,
        Setter::Hour,
        Setter::Minute,
        Setter::Second,
        Setter::Nanosecond,
        Setter::Timestamp,
        Setter::Offset,
    ];

    // What chrono calls it, behind `set_`.
    pub fn name(self) -> &'static str
        ensures { result.now ≡ setter_name self }
    {
        match self {
            Setter::Year => "year",
            Setter::YearDiv100 => "year_div_100",
            Setter::YearMod100 => "year_mod_100",
            Setter::Isoyear => "isoyear",
            Setter::IsoyearDiv100 => "isoyear_div_100",
            Setter::IsoyearMod100 => "isoyear_mod_100",
            Setter::Quarter => "quarter",
            Setter::Month => "month",
            Setter::WeekFromSun => "week_from_sun",
            Setter::WeekFromMon => "week_from_mon",
            Setter::Isoweek => "isoweek",
            Setter::Weekday => "weekday",
            Setter::Ordinal => "ordinal",
            Setter::Day => "day",
            Setter::Ampm => "ampm",
            Setter::Hour12 => "hour12",
            Setter::Hour => "hour",
            Setter::Minute => "minute",
            Setter::Second => "second",
            Setter::Nanosecond => "nanosecond",
            Setter::Timestamp => "timestamp",
            Setter::Offset => "offset",
        }
    }
}

impl fmt::Display for Setter {
    ghost output = { λ x. Some (setter_name x) };

    fn fmt<W: fmt::Write>(&self, f: &mut fmt::Formatter<W>) -> fmt::Result {
        f.write_str(self.name())
    }
}

// No setter has the name.
#[derive(Clone, Copy, PartialEq, Eq, Debug)]
pub struct UnknownSetter;

impl fmt::Display for UnknownSetter {
    ghost output = { λ _. Some (codes "no field is set by this name") };

    fn fmt<W: fmt::Write>(&self, f: &mut fmt::Formatter<W>) -> fmt::Result {
        f.write_str("no field is set by this name")
    }
}

impl Error for UnknownSetter {}

// The setter of a name, if there is one.
impl FromStr for Setter {
    type Err = UnknownSetter;

    ghost from_str_gives = { λ name r. MatchResult r (λ x. setter_name x ≡ name) (λ _. (x : Setter) → setter_name x ≢ name) };

    fn from_str(name: &str) -> Result<Setter, UnknownSetter> {
        Setter::ALL
            .iter()
            .find(|setter| setter.name() == name)
            .map(|setter| *setter)
            .ok_or(UnknownSetter)
    }
}

// The fields by name.
ghost use Rattle.std.specs.Prelude.{◌≡◌};
ghost use Rattle.collect.specs.Fields.{field_number};
ghost use Rattle.collect.specs.declared.field.Field.TheVariants.{Year, YearDiv100, YearMod100, Isoyear, IsoyearDiv100, IsoyearMod100, Quarter, Month, WeekFromSun, WeekFromMon, Isoweek, Weekday as DayOfWeek, Ordinal, Day, HourDiv12, HourMod12, Minute, Second, Nanosecond, Timestamp, Offset};
ghost use Rattle.parsed.specs.Slots.{counts, days};
ghost use Rattle.parsed.specs.Records.{parsed_table};

use super::Parsed;
use names::weekday::Weekday;

// a method for each field, which is asked for by chrono's name
impl Parsed {
    pub fn year(&self) -> Option<i32>
        ensures { result ≡ parsed_table self.now (field_number Year) }
    {
        self.year
    }

    pub fn year_div_100(&self) -> Option<i32>
        ensures { result ≡ parsed_table self.now (field_number YearDiv100) }
    {
        self.year_div_100
    }

    pub fn year_mod_100(&self) -> Option<i32>
        ensures { result ≡ parsed_table self.now (field_number YearMod100) }
    {
        self.year_mod_100
    }

    pub fn isoyear(&self) -> Option<i32>
        ensures { result ≡ parsed_table self.now (field_number Isoyear) }
    {
        self.isoyear
    }

    pub fn isoyear_div_100(&self) -> Option<i32>
        ensures { result ≡ parsed_table self.now (field_number IsoyearDiv100) }
    {
        self.isoyear_div_100
    }

    pub fn isoyear_mod_100(&self) -> Option<i32>
        ensures { result ≡ parsed_table self.now (field_number IsoyearMod100) }
    {
        self.isoyear_mod_100
    }

    pub fn quarter(&self) -> Option<u32>
        ensures { counts result ≡ parsed_table self.now (field_number Quarter) }
    {
        self.quarter
    }

    pub fn month(&self) -> Option<u32>
        ensures { counts result ≡ parsed_table self.now (field_number Month) }
    {
        self.month
    }

    pub fn week_from_sun(&self) -> Option<u32>
        ensures { counts result ≡ parsed_table self.now (field_number WeekFromSun) }
    {
        self.week_from_sun
    }

    pub fn week_from_mon(&self) -> Option<u32>
        ensures { counts result ≡ parsed_table self.now (field_number WeekFromMon) }
    {
        self.week_from_mon
    }

    pub fn isoweek(&self) -> Option<u32>
        ensures { counts result ≡ parsed_table self.now (field_number Isoweek) }
    {
        self.isoweek
    }

    pub fn weekday(&self) -> Option<Weekday>
        ensures { days result ≡ parsed_table self.now (field_number DayOfWeek) }
    {
        self.weekday
    }

    pub fn ordinal(&self) -> Option<u32>
        ensures { counts result ≡ parsed_table self.now (field_number Ordinal) }
    {
        self.ordinal
    }

    pub fn day(&self) -> Option<u32>
        ensures { counts result ≡ parsed_table self.now (field_number Day) }
    {
        self.day
    }

    pub fn hour_div_12(&self) -> Option<u32>
        ensures { counts result ≡ parsed_table self.now (field_number HourDiv12) }
    {
        self.hour_div_12
    }

    pub fn hour_mod_12(&self) -> Option<u32>
        ensures { counts result ≡ parsed_table self.now (field_number HourMod12) }
    {
        self.hour_mod_12
    }

    pub fn minute(&self) -> Option<u32>
        ensures { counts result ≡ parsed_table self.now (field_number Minute) }
    {
        self.minute
    }

    pub fn second(&self) -> Option<u32>
        ensures { counts result ≡ parsed_table self.now (field_number Second) }
    {
        self.second
    }

    pub fn nanosecond(&self) -> Option<u32>
        ensures { counts result ≡ parsed_table self.now (field_number Nanosecond) }
    {
        self.nanosecond
    }

    pub fn timestamp(&self) -> Option<i64>
        ensures { result ≡ parsed_table self.now (field_number Timestamp) }
    {
        self.timestamp
    }

    pub fn offset(&self) -> Option<i32>
        ensures { result ≡ parsed_table self.now (field_number Offset) }
    {
        self.offset
    }
}

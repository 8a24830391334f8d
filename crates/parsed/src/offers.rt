// A record takes offers, and is asked what it holds.
ghost use Rattle.std.specs.Prelude.{◌≡◌, ℕ, ℤ, Some, None};
ghost use Rattle.collect.specs.Judge.{Offered};
ghost use Rattle.collect.specs.Shown.{record_text};
ghost use Rattle.parsed.specs.Records.{parsed_table, fields_of};
ghost use Rattle.parsed.specs.Fitting.{fit_ranged};
ghost use Rattle.std.proofs.Common.{rules, arith};

use super::Parsed;
use super::slots::{asked, put};
use collect::collector::Collector;
use collect::fault::Cause;
use collect::field::Field;
use collect::show::show;
use std::fmt;

impl Parsed {
    // A record that holds nothing.
    pub fn new() -> Parsed
        ensures { (f : ℕ) → parsed_table result f ≡ None }
    {
        // each field by name, since a struct with a ghost field has no derived Default
        Parsed {
            year: None,
            year_div_100: None,
            year_mod_100: None,
            isoyear: None,
            isoyear_div_100: None,
            isoyear_mod_100: None,
            quarter: None,
            month: None,
            week_from_sun: None,
            week_from_mon: None,
            isoweek: None,
            weekday: None,
            ordinal: None,
            day: None,
            hour_div_12: None,
            hour_mod_12: None,
            minute: None,
            second: None,
            nanosecond: None,
            timestamp: None,
            offset: None,
        }
    }
}

impl Collector for Parsed {
    ghost table = { parsed_table };

    ghost offered = { λ s f v a t. Offered (parsed_table s) f v a (parsed_table t) };

    ghost answers = { first_of (Prim.search rules, Prim.grind (arith, Self.row.coded.inj)) };

    ghost holds = { first_of (Prim.search rules, Prim.grind (arith, Self.row.coded.inj)) };

    ghost ranged = { λ s. fit_ranged (fields_of s) s.fitting };

    fn offer(&mut self, field: u8, value: i64) -> Result<(), Cause> {
        let known = Field::try_from(field)?;
        match known {
            Field::Year => put(&mut self.year, known, value),
            Field::YearDiv100 => put(&mut self.year_div_100, known, value),
            Field::YearMod100 => put(&mut self.year_mod_100, known, value),
            Field::Isoyear => put(&mut self.isoyear, known, value),
            Field::IsoyearDiv100 => put(&mut self.isoyear_div_100, known, value),
            Field::IsoyearMod100 => put(&mut self.isoyear_mod_100, known, value),
            Field::Quarter => put(&mut self.quarter, known, value),
            Field::Month => put(&mut self.month, known, value),
            Field::WeekFromSun => put(&mut self.week_from_sun, known, value),
            Field::WeekFromMon => put(&mut self.week_from_mon, known, value),
            Field::Isoweek => put(&mut self.isoweek, known, value),
            Field::Weekday => put(&mut self.weekday, known, value),
            Field::Ordinal => put(&mut self.ordinal, known, value),
            Field::Day => put(&mut self.day, known, value),
            Field::HourDiv12 => put(&mut self.hour_div_12, known, value),
            Field::HourMod12 => put(&mut self.hour_mod_12, known, value),
            Field::Minute => put(&mut self.minute, known, value),
            Field::Second => put(&mut self.second, known, value),
            Field::Nanosecond => put(&mut self.nanosecond, known, value),
            Field::Timestamp => put(&mut self.timestamp, known, value),
            Field::Offset => put(&mut self.offset, known, value),
        }
    }

    fn ask(&self, field: u8) -> Option<i64> {
        match Field::try_from(field).ok()? {
            Field::Year => asked(self.year),
            Field::YearDiv100 => asked(self.year_div_100),
            Field::YearMod100 => asked(self.year_mod_100),
            Field::Isoyear => asked(self.isoyear),
            Field::IsoyearDiv100 => asked(self.isoyear_div_100),
            Field::IsoyearMod100 => asked(self.isoyear_mod_100),
            Field::Quarter => asked(self.quarter),
            Field::Month => asked(self.month),
            Field::WeekFromSun => asked(self.week_from_sun),
            Field::WeekFromMon => asked(self.week_from_mon),
            Field::Isoweek => asked(self.isoweek),
            Field::Weekday => asked(self.weekday),
            Field::Ordinal => asked(self.ordinal),
            Field::Day => asked(self.day),
            Field::HourDiv12 => asked(self.hour_div_12),
            Field::HourMod12 => asked(self.hour_mod_12),
            Field::Minute => asked(self.minute),
            Field::Second => asked(self.second),
            Field::Nanosecond => asked(self.nanosecond),
            Field::Timestamp => asked(self.timestamp),
            Field::Offset => asked(self.offset),
        }
    }
}

impl fmt::Display for Parsed {
    ghost output = { λ p. Some (record_text (parsed_table p)) };

    fn fmt<W: fmt::Write>(&self, f: &mut fmt::Formatter<W>) -> fmt::Result {
        show(self, f)
    }
}

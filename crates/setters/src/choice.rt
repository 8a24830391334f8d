// A setter by choice.
ghost use Rattle.collect.specs.Chain.{Takes, ChainLaws};
ghost use Rattle.collect.specs.Faults.{told, nowhere};
ghost use Rattle.setters.specs.Setters.{tries};
ghost use Rattle.setters.specs.Laws.{SetterLaws, SetterExamples};

use super::fields::{
    give, set_day, set_hour, set_hour12, set_isoweek, set_isoyear, set_isoyear_div_100,
    set_isoyear_mod_100, set_minute, set_month, set_nanosecond, set_offset, set_ordinal,
    set_quarter, set_second, set_timestamp, set_week_from_mon, set_week_from_sun, set_year,
    set_year_div_100, set_year_mod_100,
};
use super::setter::Setter;
use collect::collector::Collector;
use collect::fault::Fault;
use collect::field::Field;

// Apart from `set`, so that the laws are proved once, and not in each arm.
fn chosen<C: Collector>(c: &mut C, setter: Setter, value: i64) -> Result<(), Fault>
    ensures { Takes C.Collector.offered c.old (tries setter value) (told nowhere result) c.new }
{
    match setter {
        Setter::Year => set_year(c, value),
        Setter::YearDiv100 => set_year_div_100(c, value),
        Setter::YearMod100 => set_year_mod_100(c, value),
        Setter::Isoyear => set_isoyear(c, value),
        Setter::IsoyearDiv100 => set_isoyear_div_100(c, value),
        Setter::IsoyearMod100 => set_isoyear_mod_100(c, value),
        Setter::Quarter => set_quarter(c, value),
        Setter::Month => set_month(c, value),
        Setter::WeekFromSun => set_week_from_sun(c, value),
        Setter::WeekFromMon => set_week_from_mon(c, value),
        Setter::Isoweek => set_isoweek(c, value),
        Setter::Weekday => give(c, Field::Weekday, value),
        Setter::Ordinal => set_ordinal(c, value),
        Setter::Day => set_day(c, value),
        Setter::Ampm => give(c, Field::HourDiv12, value),
        Setter::Hour12 => set_hour12(c, value),
        Setter::Hour => set_hour(c, value),
        Setter::Minute => set_minute(c, value),
        Setter::Second => set_second(c, value),
        Setter::Nanosecond => set_nanosecond(c, value),
        Setter::Timestamp => set_timestamp(c, value),
        Setter::Offset => set_offset(c, value),
    }
}

// Sets by a chosen setter. A day of the week goes by its number, 0 for Monday; before noon is 0, from noon on 1.
pub fn set<C: Collector>(c: &mut C, setter: Setter, value: i64) -> Result<(), Fault>
    ensures chain { Takes C.Collector.offered c.old (tries setter value) (told nowhere result) c.new }
    ensures laws { (ChainLaws C.Collector.table C.Collector.offered) × (SetterLaws C.Collector.table C.Collector.offered) }
    ensures examples { SetterExamples }
{
    chosen(c, setter, value)
}

// `Parsed`: a record with a named field for each.
#![tactic(auto)]

ghost use Rattle.std.specs.Prelude.{◌≡◌, true, [], ◌∷◌, None};
ghost use Rattle.parsed.specs.Slots.{counts, days, all_fit};

use names::weekday::Weekday;

pub mod getters;
pub mod offers;
pub mod same;
mod slots;

// The fields that texts have given so far. Only offers write them, and what one holds lies in its field's range.
#[derive(Clone, Copy)]
pub struct Parsed {
    year: Option<i32>,
    year_div_100: Option<i32>,
    year_mod_100: Option<i32>,
    isoyear: Option<i32>,
    isoyear_div_100: Option<i32>,
    isoyear_mod_100: Option<i32>,
    quarter: Option<u32>,
    month: Option<u32>,
    week_from_sun: Option<u32>,
    week_from_mon: Option<u32>,
    isoweek: Option<u32>,
    weekday: Option<Weekday>,
    ordinal: Option<u32>,
    day: Option<u32>,
    hour_div_12: Option<u32>,
    hour_mod_12: Option<u32>,
    minute: Option<u32>,
    second: Option<u32>,
    nanosecond: Option<u32>,
    timestamp: Option<i64>,
    offset: Option<i32>,
    ghost fitting: { all_fit 0 (None ∷ year ∷ year_div_100 ∷ year_mod_100 ∷ isoyear ∷ isoyear_div_100 ∷ isoyear_mod_100 ∷ counts quarter ∷ counts month ∷ counts week_from_sun ∷ counts week_from_mon ∷ counts isoweek ∷ days weekday ∷ counts ordinal ∷ counts day ∷ counts hour_div_12 ∷ counts hour_mod_12 ∷ counts minute ∷ counts second ∷ counts nanosecond ∷ timestamp ∷ offset ∷ []) ≡ true },
}

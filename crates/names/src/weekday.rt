// The days of the week.
ghost use Rattle.std.specs.Prelude.{◌≡◌, ◌+◌, ◌-◌, ◌%◌, Some};
ghost use Rattle.names.specs.Days.{day_number, day_text, DayRead};

use scan::kind::ParseErrorKind;
use std::fmt;

// Days have no order of their own: a week may begin on any of them.
#[derive(Clone, Copy, PartialEq, Eq, Debug)]
pub enum Weekday {
    Mon = 0,
    Tue = 1,
    Wed = 2,
    Thu = 3,
    Fri = 4,
    Sat = 5,
    Sun = 6,
}

impl Weekday {
    // The next day.
    pub fn succ(&self) -> Weekday
        ensures { day_number result ≡ (day_number self.now + 1) % 7 }
    {
        match *self {
            Weekday::Mon => Weekday::Tue,
            Weekday::Tue => Weekday::Wed,
            Weekday::Wed => Weekday::Thu,
            Weekday::Thu => Weekday::Fri,
            Weekday::Fri => Weekday::Sat,
            Weekday::Sat => Weekday::Sun,
            Weekday::Sun => Weekday::Mon,
        }
    }

    // The day before.
    pub fn pred(&self) -> Weekday
        ensures { day_number result ≡ (day_number self.now + 6) % 7 }
    {
        match *self {
            Weekday::Mon => Weekday::Sun,
            Weekday::Tue => Weekday::Mon,
            Weekday::Wed => Weekday::Tue,
            Weekday::Thu => Weekday::Wed,
            Weekday::Fri => Weekday::Thu,
            Weekday::Sat => Weekday::Fri,
            Weekday::Sun => Weekday::Sat,
        }
    }

    // chrono's four numberings of days, by its names; what they have in common is `days_since`.

    // Monday is 1, as in ISO 8601.
    pub fn number_from_monday(&self) -> u32
        ensures { result ≡ day_number self.now + 1 }
    {
        self.num_days_from_monday() + 1
    }

    // Sunday is 1.
    pub fn number_from_sunday(&self) -> u32
        ensures { result ≡ (day_number self.now + 1) % 7 + 1 }
    {
        self.num_days_from_sunday() + 1
    }

    // Monday is 0.
    pub fn num_days_from_monday(&self) -> u32
        ensures { result ≡ day_number self.now }
    {
        self.days_since(Weekday::Mon)
    }

    // Sunday is 0.
    pub fn num_days_from_sunday(&self) -> u32
        ensures { result ≡ (day_number self.now + 1) % 7 }
    {
        self.days_since(Weekday::Sun)
    }

    // How many days ago the other day was last, 0 if it is the same.
    pub fn days_since(&self, other: Weekday) -> u32
        ensures { result ≡ (day_number self.now + 7 - day_number other) % 7 }
    {
        let this = *self as u32;
        let that = other as u32;
        if this < that {
            7 + this - that
        } else {
            this - that
        }
    }
}

// Monday is 0.
impl TryFrom<u8> for Weekday {
    type Error = ParseErrorKind;

    ghost try_from_gives = { λ n r. DayRead n r };

    fn try_from(value: u8) -> Result<Weekday, ParseErrorKind> {
        match value {
            0 => Ok(Weekday::Mon),
            1 => Ok(Weekday::Tue),
            2 => Ok(Weekday::Wed),
            3 => Ok(Weekday::Thu),
            4 => Ok(Weekday::Fri),
            5 => Ok(Weekday::Sat),
            6 => Ok(Weekday::Sun),
            _ => Err(ParseErrorKind::OutOfRange),
        }
    }
}

impl fmt::Display for Weekday {
    ghost output = { λ d. Some (day_text d) };

    fn fmt<W: fmt::Write>(&self, f: &mut fmt::Formatter<W>) -> fmt::Result {
        f.pad(match *self {
            Weekday::Mon => "Mon",
            Weekday::Tue => "Tue",
            Weekday::Wed => "Wed",
            Weekday::Thu => "Thu",
            Weekday::Fri => "Fri",
            Weekday::Sat => "Sat",
            Weekday::Sun => "Sun",
        })
    }
}

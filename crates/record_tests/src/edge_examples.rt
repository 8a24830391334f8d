// Both ends of every range.
use super::pair::{Numbers, Pair};
use setters::setter::Setter;
use std::process::Abort;
use std::test::*;

const I32_MIN: i64 = -2_147_483_648;

const I32_MAX: i64 = 2_147_483_647;

// A setter, the least and the largest value that it takes, and the number of the field that a refusal names.
const EDGES: [(Setter, i64, i64, u8); 21] = [
    (Setter::Year, I32_MIN, I32_MAX, 1),
    (Setter::YearDiv100, 0, I32_MAX, 2),
    (Setter::YearMod100, 0, 99, 3),
    (Setter::Isoyear, I32_MIN, I32_MAX, 4),
    (Setter::IsoyearDiv100, 0, I32_MAX, 5),
    (Setter::IsoyearMod100, 0, 99, 6),
    (Setter::Quarter, 1, 4, 7),
    (Setter::Month, 1, 12, 8),
    (Setter::WeekFromSun, 0, 53, 9),
    (Setter::WeekFromMon, 0, 53, 10),
    (Setter::Isoweek, 1, 53, 11),
    (Setter::Weekday, 0, 6, 12),
    (Setter::Ordinal, 1, 366, 13),
    (Setter::Day, 1, 31, 14),
    (Setter::Ampm, 0, 1, 15),
    (Setter::Hour12, 1, 12, 16),
    (Setter::Hour, 0, 23, 15),
    (Setter::Minute, 0, 59, 17),
    (Setter::Second, 0, 60, 18),
    (Setter::Nanosecond, 0, 999_999_999, 19),
    (Setter::Offset, I32_MIN, I32_MAX, 21),
];

// What a fresh pair answers to each value; only a value that is taken is held.
fn answers(
    rt: &(impl Abort + AllocGlobal),
    setter: Setter,
    values: &[i64],
    expected: Option<Numbers>,
) -> Result<(), Fail> {
    for value in values {
        let mut pair = Pair::new(rt)?;
        assert_eq!(rt; pair.set(rt, setter, *value)?, expected);
        assert_eq!(rt; pair.docket.is_empty(), expected.is_some());
    }
    Ok(())
}

#[test]
fn inside(rt: HostRuntime) -> Result<(), Fail> {
    for (setter, low, high, _) in EDGES {
        answers(&rt, setter, &[low, high], None)?;
    }
    Ok(())
}

#[test]
fn outside(rt: HostRuntime) -> Result<(), Fail> {
    for (setter, low, high, field) in EDGES {
        let values = [
            low.saturating_sub(1),
            high.saturating_add(1),
            i64::MIN,
            i64::MAX,
        ];
        answers(&rt, setter, &values, Some((1, 4, 0, 0, field)))?;
    }
    Ok(())
}

#[test]
fn timestamps(rt: HostRuntime) -> Result<(), Fail> {
    answers(&rt, Setter::Timestamp, &[i64::MIN, i64::MAX], None)
}

// The other end is refused where a field holds one of them, and the first stays.
#[test]
fn conflicts(rt: HostRuntime) -> Result<(), Fail> {
    for (setter, low, high, _) in EDGES {
        let mut pair = Pair::new(&rt)?;
        assert_eq!(rt; pair.set(&rt, setter, high)?, None);
        let Some((kind, layer, item, place, _)) = pair.set(&rt, setter, low)? else {
            return Err(Fail::new("taken twice"));
        };
        assert_eq!(rt; (kind, layer, item, place), (2, 4, 0, 0));
        assert_eq!(rt; pair.set(&rt, setter, high)?, None);
    }
    Ok(())
}

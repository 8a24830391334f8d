// A log of lines about the record, and the answer to each.
use super::answer;
use parsed::Parsed;
use std::test::*;

const LOG: [(&str, &str); 21] = [
    (
        "set month 13",
        "refused OutOfRange (1): month 13, month is out of range [fault 1 4 0 0 8]; record empty",
    ),
    ("set month 5", "record month=5"),
    (
        "set month 6",
        "refused Impossible (2): month 6, month holds another value [fault 2 4 0 0 8]; record month=5",
    ),
    ("set month 5", "record month=5"),
    ("show", "record month=5"),
    ("new", "record empty"),
    ("set hour12 5", "record hour_mod_12=5"),
    (
        "set hour 13",
        "refused Impossible (2): hour 13, hour_mod_12 holds another value [fault 2 4 0 0 16]; record hour_div_12=1 hour_mod_12=5",
    ),
    ("show", "record hour_div_12=1 hour_mod_12=5"),
    (
        "set hour 24",
        "refused OutOfRange (1): hour 24, hour_div_12 is out of range [fault 1 4 0 0 15]; record hour_div_12=1 hour_mod_12=5",
    ),
    ("new", "record empty"),
    (
        "set year -2147483649",
        "refused OutOfRange (1): year -2147483649, year is out of range [fault 1 4 0 0 1]; record empty",
    ),
    ("set weekday 6", "record weekday=6"),
    (
        "set timestamp -9223372036854775808",
        "record weekday=6 timestamp=-9223372036854775808",
    ),
    (
        "set offset -34200",
        "record weekday=6 timestamp=-9223372036854775808 offset=-34200",
    ),
    (
        "set offset −34200",
        "refused Invalid (3) at 4: the value is no whole number of 64 bits",
    ),
    (
        "set month",
        "refused Invalid (3) at 4: the value is no whole number of 64 bits",
    ),
    (
        "set oven 3",
        "refused BadFormat (6) at 4: no field is set by this name",
    ),
    (
        "set day 7 8",
        "refused TooLong (5) at 4: more words than the line takes",
    ),
    (
        "show me",
        "refused TooLong (5) at 5: more words than the line takes",
    ),
    (
        "show",
        "record weekday=6 timestamp=-9223372036854775808 offset=-34200",
    ),
];

#[test]
fn record_lines(rt: HostRuntime) -> Result<(), Fail> {
    let heap = rt.alloc();
    let mut record = Parsed::new();
    for ((line, want), number) in LOG.into_iter().zip(1u64..) {
        let mut out = Vec::new(heap);
        answer(&mut out, &mut record, number, line.as_bytes())?;
        let want = format!(in heap; "{number}: {want}\n")?;
        assert!(rt; out.as_slice() == want.as_bytes(), "at line {number}");
    }
    Ok(())
}

// Fields by number, setters by name, and a refusal as a fault.
use collect::fault::{Cause, Fault};
use collect::field::Field;
use scan::kind::ParseErrorKind;
use setters::setter::{Setter, UnknownSetter};
use std::test::*;

#[test]
fn fields_by_number(rt: HostRuntime) {
    assert_eq!(rt; Field::try_from(1), Ok(Field::Year));
    assert_eq!(rt; Field::try_from(21), Ok(Field::Offset));
    for number in [0, 22, 255] {
        assert_eq!(rt; Field::try_from(number), Err(Cause::no_field()));
    }
}

#[test]
fn setters_by_name(rt: HostRuntime) -> Result<(), Fail> {
    assert_eq!(rt; "hour12".parse::<Setter>(), Ok(Setter::Hour12));
    assert_eq!(rt; "offset".parse::<Setter>(), Ok(Setter::Offset));
    assert_eq!(rt; "set_year".parse::<Setter>(), Err(UnknownSetter));
    assert_eq!(rt; "".parse::<Setter>(), Err(UnknownSetter));
    let heap = rt.alloc();
    assert!(rt; Setter::YearDiv100.to_string(heap)?.as_str() == "year_div_100");
    assert!(rt; UnknownSetter.to_string(heap)?.as_str() == "no field is set by this name");
    Ok(())
}

#[test]
fn fault_of_a_cause(rt: HostRuntime) {
    let cause = Cause::of_field(ParseErrorKind::Impossible, Field::Month);
    assert_eq!(rt; Fault::from(cause).numbers(), (2, 4, 0, 0, 8));
    assert_eq!(rt; Fault::from(Cause::no_field()).numbers(), (1, 4, 0, 0, 0));
}

// What refusals leave, and the fields by name.
use super::pair::Pair;
use collect::collector::Collector;
use collect::fault::Fault;
use names::weekday::Weekday;
use parsed::Parsed;
use setters::fields::{set_ampm, set_hour, set_month, set_offset, set_weekday};
use setters::setter::Setter;
use std::test::*;

#[test]
fn month_thirteen(rt: HostRuntime) -> Result<(), Fail> {
    let mut pair = Pair::new(&rt)?;
    assert_eq!(rt; pair.set(&rt, Setter::Month, 13)?, Some((1, 4, 0, 0, 8)));
    assert_eq!(rt; pair.ask(&rt, 8)?, None);
    Ok(())
}

#[test]
fn month_five_then_six(rt: HostRuntime) -> Result<(), Fail> {
    let mut pair = Pair::new(&rt)?;
    assert_eq!(rt; pair.set(&rt, Setter::Month, 5)?, None);
    assert_eq!(rt; pair.set(&rt, Setter::Month, 6)?, Some((2, 4, 0, 0, 8)));
    assert_eq!(rt; pair.ask(&rt, 8)?, Some(5));
    Ok(())
}

#[test]
fn hour_thirteen_onto_five(rt: HostRuntime) -> Result<(), Fail> {
    let mut pair = Pair::new(&rt)?;
    assert_eq!(rt; pair.set(&rt, Setter::Hour12, 5)?, None);
    assert_eq!(rt; pair.set(&rt, Setter::Hour, 13)?, Some((2, 4, 0, 0, 16)));
    assert_eq!(rt; pair.ask(&rt, 15)?, Some(1));
    assert_eq!(rt; pair.ask(&rt, 16)?, Some(5));
    Ok(())
}

// A number of no field.
#[test]
fn no_field(rt: HostRuntime) -> Result<(), Fail> {
    let mut pair = Pair::new(&rt)?;
    for number in [0, 22, 255] {
        let Err(cause) = pair.parsed.offer(number, 1) else {
            return Err(Fail::new("taken"));
        };
        assert_eq!(rt;
            (
                cause.kind.number(),
                cause.layer.number(),
                cause.layer.field(),
            ),
            (1, 4, 0)
        );
        assert_eq!(rt; pair.parsed.ask(number), None);
        assert!(rt; pair.docket.offer(number, 1).is_err());
        assert_eq!(rt; pair.docket.ask(number), None);
    }
    Ok(())
}

#[test]
fn by_name(rt: HostRuntime) -> Result<(), Fail> {
    let mut record = Parsed::new();
    assert!(rt; set_month(&mut record, 12).is_ok());
    assert!(rt; set_weekday(&mut record, Weekday::Sun).is_ok());
    assert!(rt; set_ampm(&mut record, true).is_ok());
    assert!(rt; set_offset(&mut record, -34200).is_ok());
    assert_eq!(rt; record.month(), Some(12));
    assert_eq!(rt; record.weekday(), Some(Weekday::Sun));
    assert_eq!(rt; record.hour_div_12(), Some(1));
    assert_eq!(rt; record.offset(), Some(-34200));
    assert_eq!(rt; record.year(), None);
    Ok(())
}

#[test]
fn as_text(rt: HostRuntime) -> Result<(), Fail> {
    let mut record = Parsed::new();
    assert!(rt; record.to_string(rt.alloc())?.as_str() == "empty");
    assert!(rt; set_hour(&mut record, 13).is_ok());
    assert!(rt; record.to_string(rt.alloc())?.as_str() == "hour_div_12=1 hour_mod_12=1");
    let Err(fault) = set_hour(&mut record, 14) else {
        return Err(Fail::new("taken"));
    };
    assert!(rt;
        fault.to_string(rt.alloc())?.as_str()
            == "hour_mod_12 holds another value [fault 2 4 0 0 16]"
    );
    Ok(())
}

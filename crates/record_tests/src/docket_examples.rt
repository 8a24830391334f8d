// The order in which values came.
use super::pair::Pair;
use docket::entry::Entry;
use setters::setter::Setter;
use std::test::*;

#[test]
fn in_order(rt: HostRuntime) -> Result<(), Fail> {
    let mut pair = Pair::new(&rt)?;
    assert_eq!(rt; pair.set(&rt, Setter::Second, 60)?, None);
    assert_eq!(rt; pair.set(&rt, Setter::Year, 2026)?, None);
    assert_eq!(rt; pair.set(&rt, Setter::Second, 60)?, None);
    assert_eq!(rt; pair.set(&rt, Setter::Year, 2027)?, Some((2, 4, 0, 0, 1)));
    assert_eq!(rt; pair.docket.len(), 2);
    assert_eq!(rt;
        pair.docket.entry(0),
        Some(Entry {
            field: 18,
            value: 60,
        })
    );
    assert_eq!(rt;
        pair.docket.entry(1),
        Some(Entry {
            field: 1,
            value: 2026,
        })
    );
    assert_eq!(rt; pair.docket.entry(2), None);
    assert!(rt; pair.docket.to_string(rt.alloc())?.as_str() == "second=60 year=2026");
    Ok(())
}

// One of each field finds room.
#[test]
fn full(rt: HostRuntime) -> Result<(), Fail> {
    let mut pair = Pair::new(&rt)?;
    for setter in Setter::ALL {
        if !matches!(setter, Setter::Ampm | Setter::Hour12) {
            assert_eq!(rt; pair.set(&rt, setter, 1)?, None);
        }
    }
    assert_eq!(rt; pair.docket.len(), 21);
    assert_eq!(rt; pair.ask(&rt, 15)?, Some(0));
    assert_eq!(rt; pair.ask(&rt, 16)?, Some(1));
    Ok(())
}

// A record and a docket that are given the same, and have to agree.
use collect::collector::Collector;
use collect::compare::equal;
use collect::fault::Fault;
use docket::Docket;
use parsed::Parsed;
use setters::choice::set;
use setters::setter::Setter;
use std::process::Abort;
use std::test::*;

// Kind, layer, item, place and field of a refusal.
pub(crate) type Numbers = (u8, u8, usize, usize, u8);

#[derive(Drop)]
pub(crate) struct Pair {
    pub(crate) parsed: Parsed,
    pub(crate) docket: Docket,
}

impl Pair {
    pub(crate) fn new(rt: &impl AllocGlobal) -> Result<Pair, Fail> {
        Ok(Pair {
            parsed: Parsed::new(),
            docket: Docket::new(rt.alloc())?,
        })
    }

    // What both answer, with the numbers of a refusal.
    pub(crate) fn set(
        &mut self,
        rt: &impl Abort,
        setter: Setter,
        value: i64,
    ) -> Result<Option<Numbers>, Fail> {
        let answer = set(&mut self.parsed, setter, value);
        let other = set(&mut self.docket, setter, value);
        assert_eq!(rt; answer, other);
        assert!(rt; equal(&self.parsed, &self.docket));
        Ok(answer.err().map(Fault::numbers))
    }

    // What both hold.
    pub(crate) fn ask(&self, rt: &impl Abort, field: u8) -> Result<Option<i64>, Fail> {
        let held = self.parsed.ask(field);
        assert_eq!(rt; held, self.docket.ask(field));
        Ok(held)
    }
}

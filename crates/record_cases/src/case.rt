// One case: its calls on both kinds of collectors, which have to agree.
use collect::collector::Collector;
use collect::compare::equal;
use collect::fault::Fault;
use collect::field::Field;
use docket::Docket;
use parsed::Parsed;
use setters::choice::set;
use setters::setter::Setter;
use std::alloc::{AllocError, Global};
use std::fmt;

#[derive(Drop)]
pub(crate) struct Case {
    parsed: Parsed,
    docket: Docket,
    // what each call answered, or none for what is no call
    answers: Vec<Option<Result<(), Fault>>>,
    agree: bool,
}

// The call that a text is, if it is one.
fn call_of(text: &str) -> Option<(Setter, i64)> {
    let mut words = text.split_whitespace();
    if words.next()? != "S" {
        return None;
    }
    let setter = words.next()?.parse::<Setter>().ok()?;
    let value = words.next()?.parse::<i64>().ok()?;
    Some((setter, value))
}

impl Case {
    pub(crate) fn new(heap: Global) -> Result<Case, AllocError> {
        Ok(Case {
            parsed: Parsed::new(),
            docket: Docket::new(heap)?,
            answers: Vec::new(heap),
            agree: true,
        })
    }

    fn call(&mut self, text: &str) -> Option<Result<(), Fault>> {
        let (setter, value) = call_of(text)?;
        let answer = set(&mut self.parsed, setter, value);
        let other = set(&mut self.docket, setter, value);
        self.agree &= answer == other && equal(&self.parsed, &self.docket);
        Some(answer)
    }

    pub(crate) fn run(&mut self, line: &str) -> Result<(), AllocError> {
        for text in line.split(';') {
            let answer = self.call(text);
            self.answers.push(answer)?;
        }
        Ok(())
    }

    fn write_answers<W: fmt::Write>(&self, f: &mut fmt::Formatter<W>) -> fmt::Result {
        let mut separator = "";
        for answer in self.answers.iter() {
            f.write_str(separator)?;
            match answer {
                Some(Ok(())) => f.write_str("ok")?,
                Some(Err(fault)) => {
                    let kind = fault.cause.kind;
                    write!(f, "err {kind:?}")?;
                }
                None => f.write_str("no call")?,
            }
            separator = " ; ";
        }
        Ok(())
    }

    // What the record holds, by the numbers of the fields.
    fn write_held<W: fmt::Write>(&self, f: &mut fmt::Formatter<W>) -> fmt::Result {
        for field in Field::ALL {
            let number = field.number();
            if let Some(value) = self.parsed.ask(number) {
                write!(f, " {number}={value}")?;
            }
        }
        Ok(())
    }
}

impl fmt::Display for Case {
    fn fmt<W: fmt::Write>(&self, f: &mut fmt::Formatter<W>) -> fmt::Result {
        self.write_answers(f)?;
        f.write_str(" |")?;
        self.write_held(f)?;
        if !self.agree {
            f.write_str(" THE COLLECTORS DIFFER")?;
        }
        Ok(())
    }
}

// What a collector holds, as text.
ghost use Rattle.std.specs.Fmt.{WritesOnOk};
ghost use Rattle.collect.specs.Shown.{record_text};

use super::collector::Collector;
use super::field::Field;
use std::fmt;

// Writes the fields that hold a value, by name, in the order of the numbers: `month=5 day=7`, or `empty`.
pub fn show<C: Collector, W: fmt::Write>(c: &C, f: &mut fmt::Formatter<W>) -> fmt::Result
    ensures { WritesOnOk W.Write.write_str_gives f.old result (record_text (C.Collector.table c.now)) f.new }
{
    // a blank, once a value is written
    let mut blank = "";
    for field in Field::ALL {
        if let Some(value) = c.ask(field.number()) {
            write!(f, "{blank}{field}={value}")?;
            blank = " ";
        }
    }
    if blank.is_empty() {
        f.write_str("empty")
    } else {
        Ok(())
    }
}

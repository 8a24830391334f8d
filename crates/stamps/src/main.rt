// Reads single fields of stamps, and sets fields of a record, one a line; prints for each what it means or why it is refused.
#![tactic(auto)]

mod form;
mod line;
#[cfg(test)]
mod log_examples;
mod record;

use line::Line;
use parsed::Parsed;
use record::obey;
use std::io::{BufRead, BufReader, BufWriter, Write};
use std::{env, io};

const HELP: &str = "\
stamps: reads lines from standard input, and prints one line for each.
The first word of a line says what stands in the rest of it:
  zone      an offset from UTC as an oven writes it: Z, +09, +09:30, +0930, -07 00
  mailzone  a zone of mail: +0930, EST, gmt, a military letter
  fraction  digits of a fraction of a second
  month     the English name of a month, all of it or three letters
  weekday   the English name of a day of the week, all of it or three letters
  comment   a comment of mail, in parentheses that nest
  mailyear  the year of a mail's date: 47, 112, 1996
Printed are the value, how many bytes it took and what is left of the line,
or the refusal: its name, its number, and the byte of the line where the field begins.
There is also a record, which such lines set:
  set NAME VALUE   sets a field: year, month, day, hour, minute, second, offset and so on
  show             shows the fields that are set
  new              begins a new record
A field keeps its first value; another one is refused. Printed is the record, and before it
the refusal, if there is one: its name and number, why, and the five numbers of the fault.
A refused line does not stop the program.
";

// Answers a line: what its field means, what the record holds after it, or why it is refused.
fn answer<W: Write>(out: &mut W, record: &mut Parsed, number: u64, bytes: &[u8]) -> io::Result<()> {
    match line::read_line(bytes) {
        Ok(Line::Field(field)) => writeln!(out, "{number}: {field}"),
        Ok(Line::Record(command)) => match obey(record, command) {
            Ok(()) => writeln!(out, "{number}: record {record}"),
            Err(fault) => {
                let kind = fault.cause.kind;
                let code = kind.number();
                writeln!(
                    out,
                    "{number}: refused {kind:?} ({code}): {command}, {fault}; record {record}"
                )
            }
        },
        Err(refusal) => writeln!(out, "{number}: {refusal}"),
    }
}

fn main(rt: HostRuntime) -> io::Result<()> {
    let heap = rt.alloc();
    if env::args(&rt)?.count() > 1 {
        return print!(rt; "{HELP}");
    }
    let mut out = BufWriter::new(heap, rt.stdout())?;
    let mut record = Parsed::new();
    let lines = BufReader::new(heap, rt.stdin())?.split(heap, b'\n');
    for (bytes, number) in lines.zip(1u64..) {
        answer(&mut out, &mut record, number, &bytes?)?;
    }
    out.flush()
}

// Answers cases for the setters, one a line: calls `S NAME VALUE` joined by ` ; `, on one fresh record.
// The stored answers are those of chrono's own setters (oracle/record-cases).
#![tactic(auto)]

mod case;

use case::Case;
use std::io;
use std::io::{BufRead, BufReader, BufWriter, Write};

// The other program of cases has a loop of this shape: shared, it would take a crate for six lines.
fn main(rt: HostRuntime) -> io::Result<()> {
    let heap = rt.alloc();
    let mut out = BufWriter::new(heap, rt.stdout())?;
    for line in BufReader::new(heap, rt.stdin())?.lines(heap) {
        let line = line?;
        let mut case = Case::new(heap)?;
        case.run(line.as_str())?;
        writeln!(out, "{case}")?;
    }
    out.flush()
}

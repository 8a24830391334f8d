// Answers cases for the leaf scanners, one a line: the leaf's name, four numbers that it may take, and its text in hex.
// The stored answers are those of chrono's own scanners (oracle/leaf-cases).
#![tactic(auto)]

mod answer;
mod leaves;

use std::io;
use std::io::{BufRead, BufReader, BufWriter, Write};

// The other program of cases has a loop of this shape: shared, it would take a crate for six lines.
fn main(rt: HostRuntime) -> io::Result<()> {
    let heap = rt.alloc();
    let mut out = BufWriter::new(heap, rt.stdout())?;
    for line in BufReader::new(heap, rt.stdin())?.lines(heap) {
        let line = line?;
        match leaves::run(heap, line.as_str())? {
            Ok(reading) => writeln!(out, "ok {reading}")?,
            Err(refusal) => writeln!(out, "{refusal}")?,
        }
    }
    out.flush()
}

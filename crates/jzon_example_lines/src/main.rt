//! A filter of records, one JSON text on each line: `lines LEVEL < records` prints the records of
//! this level. A line that is no JSON text is reported with its number, and passed over.
#![tactic(auto)]

use std::io::{BufRead, BufReader, BufWriter, Write};
use std::process::ExitCode;
use std::{env, io};

fn main(rt: HostRuntime) -> io::Result<ExitCode> {
    let alloc = rt.alloc();
    let Some(level) = env::args(&rt)?.nth(1) else {
        eprintln!(rt; "usage: lines LEVEL")?;
        return Ok(ExitCode::from(2));
    };
    let mut status = ExitCode::SUCCESS;
    let mut number = 0u64;
    let mut out = BufWriter::new(alloc, rt.stdout())?;
    for line in BufReader::new(alloc, rt.stdin())?.lines(alloc) {
        number = number.saturating_add(1);
        let line = line?;
        match jzon::parse(alloc, line.as_str()) {
            Ok(record) => {
                if record.at("level").eq_str(level.as_str()) {
                    record.write(&mut out)?;
                    writeln!(out)?;
                }
            }
            Err(error) => {
                eprintln!(rt; "line {number}: {error}")?;
                status = ExitCode::FAILURE;
            }
        }
    }
    out.flush()?;
    Ok(status)
}

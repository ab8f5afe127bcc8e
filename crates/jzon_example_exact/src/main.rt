//! Prints the value of a text in which each number is kept exactly: `exact < prices`. Otherwise it
//! reports the first digit that would be lost. `exact --strict` also rejects repeated keys.
#![tactic(auto)]

use jzon::Reading;
use std::io::Write;
use std::process::ExitCode;
use std::{env, io};

fn main(rt: HostRuntime) -> io::Result<ExitCode> {
    let alloc = rt.alloc();
    let text = io::read_to_string(alloc, rt.stdin())?;
    let reading = match env::args(&rt)?.nth(1) {
        Some(word) if word.as_str() == "--strict" => Reading::STRICT,
        _ => Reading::USUAL,
    };
    match jzon::parse_located(alloc, text.as_str(), &reading.with_exact_numbers()) {
        Ok(value) => {
            let mut out = rt.stdout();
            value.write(&mut out)?;
            writeln!(out)?;
            Ok(ExitCode::SUCCESS)
        }
        Err(error) => {
            eprintln!(rt; "exact: {error}")?;
            Ok(ExitCode::FAILURE)
        }
    }
}

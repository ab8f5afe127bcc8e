//! Reads one JSON text from standard input and prints it on standard output.
#![tactic(auto)]

mod engine;
#[cfg(test)]
mod refusals;
#[cfg(test)]
mod tests;

use engine::RunFault;
use std::env;
use std::io::{self, BufWriter};
use std::process::ExitCode;

/// How many bytes of output are collected before standard output gets them.
const BUFFER_SIZE: usize = 65536;

fn main(rt: HostRuntime) -> ExitCode {
    let status = match words(&rt) {
        Ok(words) => drive_buffered(&rt, words.as_slice()),
        Err(error) => engine::report(&mut rt.stderr(), &RunFault::Read(error)),
    };
    ExitCode::from(status)
}

/// Runs `engine::drive` on the standard streams.
fn drive_buffered(rt: &HostRuntime, words: &[String]) -> u8 {
    let mut faults = rt.stderr();
    let Ok(mut writer) = BufWriter::with_capacity(rt.alloc(), BUFFER_SIZE, rt.stdout()) else {
        return engine::report(&mut faults, &RunFault::Memory);
    };
    let status = engine::drive(rt.alloc(), words, &mut rt.stdin(), &mut writer, &mut faults);
    // Takes the bytes out, since the drop of the `BufWriter` would write again what a failed write
    // left.
    let _ = writer.into_parts();
    status
}

/// The arguments after the program's name.
fn words(rt: &HostRuntime) -> io::Result<Vec<String>> {
    Ok(env::args(rt)?.skip(1).collect(rt.alloc())?)
}

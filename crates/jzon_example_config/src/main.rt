//! Reads a configuration from standard input, changes the port of its server, and prints it on
//! lines. It rejects a configuration without a server. README.md quotes this file as a first
//! program.
#![tactic(auto)]

use std::io;
use std::io::Write;
use std::process::ExitCode;

fn main(rt: HostRuntime) -> io::Result<ExitCode> {
    let alloc = rt.alloc();
    let text = io::read_to_string(alloc, rt.stdin())?;
    let mut config = jzon::parse(alloc, text.as_str())?;
    let Some(server) = config.get_mut("server") else {
        eprintln!(rt; "config: there is no \"server\"")?;
        return Ok(ExitCode::FAILURE);
    };
    server.insert(alloc, "port", 8080)?;
    let mut out = rt.stdout();
    config.write_pretty(&mut out, 2)?;
    writeln!(out)?;
    Ok(ExitCode::SUCCESS)
}

//! A whole program: `settings [--port N] [--check] < FILE` reads a proxy's settings, and prints them
//! as they are in effect. `--port` overrides the file's port, and `--check` prints only errors. The
//! status is 1 if the file is wrong, and 2 if an option is.
#![tactic(auto)]

use jzon::{JsonValue, Place};
use jzon_pointer::shown::is_hidden;
use jzon_typed::decode::{self, Error, Fields, FromJson};
use std::alloc::Global;
use std::process::ExitCode;
use std::{env, io};

#[derive(Clone, Copy, Default)]
struct Options {
    port: Option<u16>,
    check: bool,
}

#[derive(Drop)]
struct Settings {
    port: u16,
    timeout: u64,
    servers: Vec<Server>,
}

#[derive(Drop)]
struct Server {
    host: String,
    port: u16,
}

impl FromJson for Settings {
    fn from_json(alloc: Global, value: &JsonValue) -> Result<Settings, Error> {
        let settings = Fields::only(alloc, value, &["port", "timeout", "servers"])?;
        let timeout = settings.read_or("timeout", 30)?;
        if timeout == 0 {
            return Err(settings.expected("timeout", "at least 1 second"));
        }
        Ok(Settings {
            port: settings.read_or("port", 80)?,
            timeout,
            servers: settings.list("servers", 100)?,
        })
    }
}

impl FromJson for Server {
    fn from_json(alloc: Global, value: &JsonValue) -> Result<Server, Error> {
        let server = Fields::only(alloc, value, &["host", "port"])?;
        Ok(Server {
            host: server.read("host")?,
            port: server.read_or("port", 80)?,
        })
    }
}

fn main(rt: HostRuntime) -> io::Result<ExitCode> {
    let alloc = rt.alloc();
    let words: Vec<String> = env::args(&rt)?.skip(1).collect(alloc)?;
    let Some(options) = options_of(words.as_slice()) else {
        eprintln!(rt; "usage: settings [--port N] [--check] < FILE")?;
        return Ok(ExitCode::from(2));
    };
    let text = io::read_to_string(alloc, rt.stdin())?;
    match decode::from_text::<Settings>(alloc, text.as_str()) {
        Ok(settings) => {
            if !options.check {
                let value = in_effect(alloc, &settings, options)?;
                println!(rt; "{}", value.pretty(alloc, 2)?)?;
            }
            Ok(ExitCode::SUCCESS)
        }
        Err(error) => {
            eprintln!(rt; "settings: {error}")?;
            if let Some(place) = error.place() {
                eprintln!(rt; "{}", faulty_line(alloc, text.as_str(), place)?)?;
            }
            Ok(ExitCode::FAILURE)
        }
    }
}

/// `None` if an argument is no option, or a port is missing or no `u16`.
fn options_of(words: &[String]) -> Option<Options> {
    let mut options = Options::default();
    let mut is_port = false;
    for word in words {
        match word.as_str() {
            port if is_port => {
                options.port = Some(port.parse().ok()?);
                is_port = false;
            }
            "--port" => is_port = true,
            "--check" => options.check = true,
            _ => return None,
        }
    }
    if is_port { None } else { Some(options) }
}

/// The settings as a value, with the port of the options.
fn in_effect(alloc: Global, settings: &Settings, options: Options) -> jzon::Result<JsonValue> {
    let port = options.port.unwrap_or(settings.port);
    let mut servers = JsonValue::new_array(alloc);
    for Server { host, port } in &settings.servers {
        let server = jzon::object! {alloc; host: host.as_str(), port: *port};
        servers.push(alloc, server)?;
    }
    Ok(jzon::object! {alloc; port: port, timeout: settings.timeout, servers: servers})
}

/// The line of the place, or 80 characters of a long one, with a caret below the place.
fn faulty_line(alloc: Global, text: &str, place: Place) -> io::Result<String> {
    let line = text.lines().nth(place.line.saturating_sub(1)).unwrap_or("");
    let mut shown = String::new(alloc);
    for ch in line.chars().skip(place.column.saturating_sub(41)).take(80) {
        shown.push(if is_hidden(ch) { ' ' } else { ch })?;
    }
    Ok(format!(in alloc; "{shown}\n{:>width$}", '^', width = place.column.min(41))?)
}

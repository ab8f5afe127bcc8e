//! Reads each line as a configuration, changes its level and ports, and prints it, or what is wrong.
//! A line that begins with a word is one of the other forms.
#![tactic(auto)]

mod forms;

use jzon_pointer::error::Error;
use jzon_serde::Exact;
use serde::{Deserialize, Serialize};
use std::alloc::Global;
use std::collections::BTreeMap;
use std::io;
use std::io::{BufRead, BufReader, BufWriter, Write};
use std::result::Result;

#[derive(Drop, Serialize, Deserialize)]
#[serde(deny_unknown_fields)]
struct Config {
    fleet: String,
    #[serde(default = "info")]
    level: Level,
    #[serde(skip_serializing_if = "Option::is_none")]
    notify: Option<Notify>,
    services: BTreeMap<String, Service>,
}

fn info() -> Level {
    Level::Info
}

#[derive(Drop, Serialize, Deserialize)]
#[serde(rename_all = "lowercase")]
enum Level {
    Info,
    Warning,
    Critical,
}

#[derive(Drop, Serialize, Deserialize)]
#[serde(tag = "type", rename_all = "snake_case")]
enum Notify {
    Nobody,
    ByMail { address: String, retries: u8 },
}

#[derive(Drop, Serialize, Deserialize)]
#[serde(rename_all = "camelCase", deny_unknown_fields)]
struct Service {
    hosts: Vec<String>,
    port: u16,
    max_price: Exact,
    owner: Option<String>,
    #[serde(default)]
    labels: BTreeMap<String, String>,
}

fn changed(alloc: Global, text: &str) -> Result<String, Error> {
    let mut config: Config = jzon_serde::from_str(alloc, text)?;
    config.level = Level::Critical;
    for service in config.services.values_mut() {
        service.port = service.port.saturating_add(1000);
    }
    jzon_serde::to_string_pretty(alloc, &config)
}

fn main(rt: HostRuntime) -> io::Result<()> {
    let alloc = rt.alloc();
    let mut out = BufWriter::new(alloc, rt.stdout())?;
    for line in BufReader::new(alloc, rt.stdin())?.lines(alloc) {
        let line = line?;
        if let Some((form, text)) = forms::named(line.as_str()) {
            writeln!(out, "{}", forms::line_of(alloc, form, text)?)?;
            continue;
        }
        match changed(alloc, line.as_str()) {
            Ok(text) => writeln!(out, "{text}")?,
            Err(error) => writeln!(out, "{error}")?,
        }
    }
    out.flush()
}

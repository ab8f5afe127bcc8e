//! Reads a configuration from each line of the input, and prints what it says, or what is wrong.
#![tactic(auto)]

use jzon::JsonValue;
use jzon_typed::decode::{self, Error, Fields, FromJson};
use std::alloc::Global;
use std::collections::BTreeMap;
use std::io;
use std::io::{BufRead, BufReader, BufWriter, Write};

/// How much is logged.
#[derive(Clone, Copy)]
enum Level {
    Debug,
    Info,
    Warn,
}

/// How a server is tested.
#[derive(Drop)]
enum Check {
    Connect,
    Get { path: String, status: u16 },
}

/// Where a server listens.
#[derive(Drop)]
struct Server {
    host: String,
    port: u16,
    tags: Vec<String>,
}

/// What a request may take.
#[derive(Clone, Copy)]
struct Limits {
    timeout: u64,
    /// In cents.
    price: i64,
}

#[derive(Drop)]
struct Config {
    name: Option<String>,
    level: Level,
    check: Check,
    limits: Limits,
    servers: Vec<Server>,
    ports: BTreeMap<String, u16>,
}

impl FromJson for Level {
    fn from_json(alloc: Global, value: &JsonValue) -> Result<Level, Error> {
        match value.as_str() {
            Some("debug") => Ok(Level::Debug),
            Some("info") => Ok(Level::Info),
            Some("warn") => Ok(Level::Warn),
            _ => Err(decode::expected(alloc, value, "\"debug\", \"info\" or \"warn\"")),
        }
    }
}

impl FromJson for Check {
    fn from_json(alloc: Global, value: &JsonValue) -> Result<Check, Error> {
        let check = Fields::of(alloc, value)?;
        match check.str("type")? {
            "connect" => {
                check.deny_unknown(&["type"])?;
                Ok(Check::Connect)
            }
            "get" => {
                check.deny_unknown(&["type", "path", "status"])?;
                Ok(Check::Get {
                    path: check.read("path")?,
                    status: check.read_or("status", 200)?,
                })
            }
            _ => Err(check.expected("type", "\"connect\" or \"get\"")),
        }
    }
}

impl FromJson for Server {
    fn from_json(alloc: Global, value: &JsonValue) -> Result<Server, Error> {
        let server = Fields::only(alloc, value, &["host", "port", "tags"])?;
        Ok(Server {
            host: server.read("host")?,
            port: server.read_or("port", 80)?,
            tags: server.read_or("tags", Vec::new(alloc))?,
        })
    }
}

impl FromJson for Limits {
    fn from_json(alloc: Global, value: &JsonValue) -> Result<Limits, Error> {
        let limits = Fields::only(alloc, value, &["timeout", "price"])?;
        let timeout = limits.read_or("timeout", 30)?;
        if timeout == 0 {
            return Err(limits.expected("timeout", "a time of at least 1"));
        }
        Ok(Limits {
            timeout,
            price: limits.fixed_point("price", 2)?,
        })
    }
}

impl FromJson for Config {
    fn from_json(alloc: Global, value: &JsonValue) -> Result<Config, Error> {
        let known = &["name", "level", "check", "limits", "servers", "ports"];
        let config = Fields::only(alloc, value, known)?;
        Ok(Config {
            name: config.optional("name")?,
            level: config.read_or("level", Level::Info)?,
            check: config.read_or("check", Check::Connect)?,
            limits: config.read("limits")?,
            servers: config.list("servers", 3)?,
            ports: config.read_or("ports", BTreeMap::new(alloc))?,
        })
    }
}

fn main(rt: HostRuntime) -> io::Result<()> {
    let alloc = rt.alloc();
    let mut out = BufWriter::new(alloc, rt.stdout())?;
    for line in BufReader::new(alloc, rt.stdin())?.lines(alloc) {
        match decode::from_text::<Config>(alloc, line?.as_str()) {
            Ok(config) => write_config(&mut out, &config)?,
            Err(error) => writeln!(out, "{error}")?,
        }
    }
    out.flush()
}

fn write_config<W: Write>(out: &mut W, config: &Config) -> io::Result<()> {
    match &config.name {
        Some(name) => write!(out, "{name}")?,
        None => write!(out, "(no name)")?,
    }
    let level = match config.level {
        Level::Debug => "debug",
        Level::Info => "info",
        Level::Warn => "warn",
    };
    let Limits { timeout, price } = config.limits;
    write!(out, " logs {level}, waits {timeout} s, costs {price} cents")?;
    match &config.check {
        Check::Connect => write!(out, ", connects")?,
        Check::Get { path, status } => write!(out, ", gets {path} ({status})")?,
    }
    write!(out, ", {} ports:", config.ports.len())?;
    for server in &config.servers {
        let tags = server.tags.len();
        write!(out, " {}:{} ({tags} tags)", server.host, server.port)?;
    }
    writeln!(out)
}

//! Reads a fleet's configuration from each line of the input, raises its ports and level, prints it.
#![tactic(auto)]

use jzon::JsonValue;
use jzon_typed::decode::{self, Error, Fields, FromJson};
use jzon_typed::encode::{self, Members, ToJson};
use std::alloc::Global;
use std::collections::BTreeMap;
use std::io::{self, BufRead, BufReader};

#[derive(Clone, Copy)]
enum Level {
    Info,
    Warning,
    Critical,
}

#[derive(Drop)]
enum Notify {
    Mail { to: String },
    Call { to: String },
}

#[derive(Drop)]
struct Service {
    hosts: Vec<String>,
    port: u16,
    max_price: u64,
    owner: Option<String>,
    labels: BTreeMap<String, String>,
}

#[derive(Drop)]
struct Config {
    fleet: String,
    level: Level,
    notify: Option<Notify>,
    services: BTreeMap<String, Service>,
}

impl FromJson for Level {
    fn from_json(alloc: Global, value: &JsonValue) -> Result<Level, Error> {
        match value.as_str() {
            Some("info") => Ok(Level::Info),
            Some("warning") => Ok(Level::Warning),
            Some("critical") => Ok(Level::Critical),
            _ => Err(decode::expected(alloc, value, "\"info\", \"warning\" or \"critical\"")),
        }
    }
}

impl ToJson for Level {
    fn to_json(&self, alloc: Global) -> jzon::Result<JsonValue> {
        match self {
            Level::Info => "info".to_json(alloc),
            Level::Warning => "warning".to_json(alloc),
            Level::Critical => "critical".to_json(alloc),
        }
    }
}

impl FromJson for Notify {
    fn from_json(alloc: Global, value: &JsonValue) -> Result<Notify, Error> {
        let notify = Fields::only(alloc, value, &["kind", "to"])?;
        let (kind, to) = (notify.str("kind")?, notify.read("to")?);
        match kind {
            "mail" => Ok(Notify::Mail { to }),
            "call" => Ok(Notify::Call { to }),
            _ => Err(notify.expected("kind", "\"mail\" or \"call\"")),
        }
    }
}

impl ToJson for Notify {
    fn to_json(&self, alloc: Global) -> jzon::Result<JsonValue> {
        let (kind, to) = match self {
            Notify::Mail { to } => ("mail", to),
            Notify::Call { to } => ("call", to),
        };
        Ok(jzon::object! {alloc; kind: kind, to: to.as_str()})
    }
}

impl FromJson for Service {
    fn from_json(alloc: Global, value: &JsonValue) -> Result<Service, Error> {
        let known = &["hosts", "port", "maxPrice", "owner", "labels"];
        let service = Fields::only(alloc, value, known)?;
        Ok(Service {
            hosts: service.read("hosts")?,
            port: service.read_or("port", 80)?,
            max_price: service.read("maxPrice")?,
            owner: service.optional("owner")?,
            labels: service.read_or("labels", BTreeMap::new(alloc))?,
        })
    }
}

impl ToJson for Service {
    fn to_json(&self, alloc: Global) -> jzon::Result<JsonValue> {
        Members::new(alloc)
            .put("hosts", &self.hosts)?
            .put("port", &self.port)?
            .put("maxPrice", &self.max_price)?
            .put_some("owner", &self.owner)?
            .put("labels", &self.labels)?
            .done()
    }
}

impl FromJson for Config {
    fn from_json(alloc: Global, value: &JsonValue) -> Result<Config, Error> {
        let config = Fields::only(alloc, value, &["fleet", "level", "notify", "services"])?;
        Ok(Config {
            fleet: config.read("fleet")?,
            level: config.read_or("level", Level::Warning)?,
            notify: config.optional("notify")?,
            services: config.read_or("services", BTreeMap::new(alloc))?,
        })
    }
}

impl ToJson for Config {
    fn to_json(&self, alloc: Global) -> jzon::Result<JsonValue> {
        Members::new(alloc)
            .put("fleet", &self.fleet)?
            .put("level", &self.level)?
            .put_some("notify", &self.notify)?
            .put("services", &self.services)?
            .done()
    }
}

fn main(rt: HostRuntime) -> io::Result<()> {
    let alloc = rt.alloc();
    for line in BufReader::new(alloc, rt.stdin())?.lines(alloc) {
        match decode::from_text::<Config>(alloc, line?.as_str()) {
            Ok(mut config) => {
                config.level = Level::Critical;
                for service in config.services.values_mut() {
                    service.port = service.port.saturating_add(8000);
                }
                println!(rt; "{}", encode::to_text_pretty(alloc, &config, 2)?)?;
            }
            Err(error) => println!(rt; "{error}")?,
        }
    }
    Ok(())
}

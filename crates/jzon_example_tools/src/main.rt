//! Runs the tools on what strangers send: `tools < calls`. Each line is a JSON array of a call's name, a
//! value's text, and what else the call takes; its answer is one line too.
#![tactic(auto)]

use jzon::{JsonValue, Reading};
use jzon_pointer::error::{Error, What};
use jzon_tools::{canonical, edit, merge, patch, redact};
use jzon_typed::decode::{self, Fields, FromJson};
use std::alloc::Global;
use std::collections::BTreeMap;
use std::io::{self, BufRead, BufReader, BufWriter, Write};
use std::result::Result;

#[derive(Drop)]
struct Order {
    id: u64,
    name: String,
    amounts: Vec<i32>,
    labels: BTreeMap<String, u16>,
    price: i64,
}

impl FromJson for Order {
    fn from_json(alloc: Global, value: &JsonValue) -> Result<Order, Error> {
        let fields = Fields::only(alloc, value, &["id", "name", "amounts", "labels", "price"])?;
        Ok(Order {
            id: fields.read("id")?,
            name: fields.read("name")?,
            amounts: fields.list("amounts", 100)?,
            labels: fields.read("labels")?,
            price: fields.fixed_point("price", 2)?,
        })
    }
}

/// Refuses a short password. No message shows what was sent.
fn check_password(fields: &Fields<'_>) -> Result<(), Error> {
    let password = fields
        .optional::<String>("password")
        .map_err(|error| error.without_value())?;
    match password {
        Some(password) if password.len() < 12 => {
            Err(
                fields
                    .expected("password", "at least 12 characters")
                    .without_value(),
            )
        }
        _ => Ok(()),
    }
}

/// The value of a text, of which no entry or digit is lost.
fn read(alloc: Global, text: &str) -> Result<JsonValue, Error> {
    Ok(jzon::parse_located(alloc, text, &Reading::LOSSLESS)?)
}

/// What a call makes of a value, printed.
fn answer(alloc: Global, call: &str, text: &str, other: &str) -> Result<String, Error> {
    if call == "decode" {
        let order: Order = decode::from_text(alloc, text)?;
        return Ok(format!(in alloc; "{} {}", order.id, order.price)?);
    }
    let mut value = read(alloc, text)?;
    match call {
        "get" => return Ok(jzon_pointer::find(alloc, &value, other)?.dump(alloc)?),
        "insert" => edit::insert(alloc, &mut value, other, JsonValue::Null)?,
        "remove" => drop(edit::remove(alloc, &mut value, other)?),
        "patch" => patch::apply(alloc, &mut value, &read(alloc, other)?)?,
        "merge" => merge::merge_patch(alloc, &mut value, &read(alloc, other)?)?,
        "redact" => drop(redact::redact(&mut value, &[other])),
        "login" => check_password(&Fields::of(alloc, &value)?)?,
        "canonical" => return Ok(canonical::canonical_text(alloc, &value)?),
        _ => return Err(Error::new(alloc, What::Said("there is no such call"))),
    }
    Ok(value.dump(alloc)?)
}

fn main(rt: HostRuntime) -> io::Result<()> {
    let alloc = rt.alloc();
    let mut out = BufWriter::new(alloc, rt.stdout())?;
    for line in BufReader::new(alloc, rt.stdin())?.lines(alloc) {
        let parts: Vec<String> = decode::from_text(alloc, line?.as_str())?;
        let said = match parts.as_slice() {
            [call, text, other] => answer(alloc, call, text, other),
            _ => Err(Error::new(alloc, What::Said("a line has three strings"))),
        };
        match said {
            Ok(text) => writeln!(out, "{text}")?,
            Err(error) => writeln!(out, "error: {error}")?,
        }
    }
    out.flush()
}

//! A type of each form, as serde's documentation names them.

use jzon_serde::{Exact, Json};
use serde::{Deserialize, DeserializeOwned, Deserializer, Format, Serialize, Serializer};
use std::alloc::Global;

/// A unit struct.
#[derive(Drop, Serialize, Deserialize)]
pub struct Nothing;

/// A newtype struct.
#[derive(Drop, Serialize, Deserialize)]
pub struct Meters(f64);

/// A tuple struct.
#[derive(Drop, Serialize, Deserialize)]
pub struct Point(i32, i32);

#[derive(Drop, Serialize, Deserialize)]
pub struct Rgb {
    r: u8,
    g: u8,
    b: u8,
}

#[derive(Drop, Serialize, Deserialize)]
#[serde(rename_all = "camelCase", deny_unknown_fields)]
pub struct Camel {
    first_name: String,
    port_number: u16,
}

/// Not all of its keys are spelled alike.
#[derive(Drop, Serialize, Deserialize)]
#[serde(rename_all = "camelCase")]
pub struct Mixed {
    #[serde(rename = "ID")]
    own_id: u8,
    long_name: u8,
    #[serde(alias = "colour")]
    color: Option<String>,
}

/// With fields of another name, made where they are missing, or left out.
#[derive(Drop, Serialize, Deserialize)]
pub struct Options {
    #[serde(rename = "maxPrice")]
    max_price: u8,
    #[serde(default)]
    tags: Vec<String>,
    #[serde(default = "http")]
    port: u16,
    #[serde(skip)]
    never: u8,
    #[serde(skip_serializing_if = "Option::is_none")]
    maybe: Option<u8>,
}

pub fn http() -> u16 {
    80
}

#[derive(Drop, Serialize, Deserialize)]
#[serde(rename_all = "kebab-case")]
pub struct Limits {
    timeout: u64,
    max_size: u8,
}

/// Its keys are spelled in two ways.
#[derive(Drop, Serialize, Deserialize)]
#[serde(rename_all = "camelCase")]
pub struct Flat {
    name: String,
    log_level: Level,
    #[serde(flatten)]
    limits: Limits,
}

/// Its keys are spelled in two ways too, and the last one's value is a struct.
#[derive(Drop, Serialize, Deserialize)]
#[serde(rename_all = "camelCase")]
pub struct Style {
    font_name: String,
    #[serde(flatten)]
    colors: Colors,
}

#[derive(Drop, Serialize, Deserialize)]
#[serde(rename_all = "kebab-case")]
pub struct Colors {
    text_color: Rgb,
}

#[derive(Drop, Serialize, Deserialize, PartialEq, Eq, PartialOrd, Ord)]
#[serde(rename_all = "lowercase")]
pub enum Level {
    Debug,
    Info,
    Warn,
}

/// Its tag is outside.
#[derive(Drop, Serialize, Deserialize)]
pub enum Shape {
    Dot,
    Circle(f64),
    Line(i32, i32),
    Box { w: u8, h: u8 },
}

/// Its tag is inside.
#[derive(Drop, Serialize, Deserialize)]
#[serde(tag = "type", rename_all = "snake_case")]
pub enum Check {
    Connect,
    GetPath { path: String, status: u16 },
}

/// Its tag is beside its content.
#[derive(Drop, Serialize, Deserialize)]
#[serde(tag = "t", content = "c")]
pub enum Packet {
    A(u8),
    B { x: bool },
    C,
}

#[derive(Drop, Serialize, Deserialize)]
#[serde(untagged)]
pub enum Either {
    Number(i64),
    Text(String),
    Many(Vec<u8>),
    Named { name: String },
}

/// With a variant for other names.
#[derive(Drop, Serialize, Deserialize)]
pub enum Kind {
    Known,
    #[serde(other)]
    Other,
}

#[derive(Drop, Serialize, Deserialize)]
#[serde(recursive)]
pub struct Folder {
    size: u64,
    #[serde(recursive)]
    folders: Vec<Folder>,
}

#[derive(Drop, Serialize, Deserialize)]
#[serde(transparent)]
pub struct Wrapped {
    inner: Vec<u8>,
}

/// A type of a parameter.
#[derive(Drop, Serialize, Deserialize)]
pub struct Page<T> {
    items: Vec<T>,
    next: Option<u32>,
}

/// An even number, by `try_from`.
#[derive(Clone, Copy, Serialize, Deserialize, PartialEq, Eq, PartialOrd, Ord)]
#[serde(try_from = "u8", into = "u8")]
pub struct Even(u8);

impl TryFrom<u8> for Even {
    type Error = &'static str;

    fn try_from(value: u8) -> Result<Even, &'static str> {
        if value % 2 == 0 {
            Ok(Even(value))
        } else {
            Err("an odd number")
        }
    }
}

impl From<Even> for u8 {
    fn from(even: Even) -> u8 {
        even.0
    }
}

#[derive(Drop, Serialize, Deserialize)]
#[serde(rename_all = "SCREAMING_SNAKE_CASE")]
pub struct Extra {
    kind: String,
    max_price: Exact,
    details: Json,
    more: Option<Json>,
}

/// Marks inside marks: a flattened enum with a tag beside a list whose elements are tried in turn.
#[derive(Drop, Serialize, Deserialize)]
pub struct Deep {
    list: Vec<Either>,
    #[serde(flatten)]
    check: Check,
    after: u8,
}

/// What several fields of a user's own type are: seconds as a text, read and written by hand.
#[derive(Clone, Copy)]
pub struct Seconds(u32);

impl serde::Described for Seconds {}

impl Serialize for Seconds {
    fn serialize<S: Serializer>(&self, out: &mut S) -> Result<(), S::Error> {
        out.u64(u64::from(self.0))
    }
}

impl DeserializeOwned for Seconds {
    fn deserialize_owned<F: Format>(
        alloc: Global,
        from: &mut Deserializer<'_, '_, F>,
    ) -> Result<Seconds, F::Error> {
        let text = from.string(alloc)?;
        match text.as_str().parse() {
            Ok(seconds) => Ok(Seconds(seconds)),
            Err(_) => Err(from.custom("expected seconds")),
        }
    }
}

//! New values.

use jzon::number::Number;
use jzon::object::Object;
use jzon::{IntoJson, JsonValue, Result};
use std::alloc::Global;

/// A reply to a request.
pub fn reply(alloc: Global, id: u32, names: &[&str]) -> Result<JsonValue> {
    let mut list = JsonValue::new_array(alloc);
    for name in names {
        list.push(alloc, *name)?;
    }
    Ok(jzon::object! {alloc;
        id: id,
        "names": list,
        "next": null,
        "range": {"from": 0, "to": [1, 2]},
    })
}

/// The names, each with its position.
pub fn numbered(alloc: Global, names: &[&str]) -> Result<Object> {
    let mut object = Object::with_capacity(alloc, names.len())?;
    for (position, name) in names.iter().enumerate() {
        object.insert(alloc, name, jzon::from(alloc, position)?)?;
    }
    Ok(object)
}

/// The object of a list of pairs.
pub fn headers(alloc: Global, pairs: Vec<(&str, &str)>) -> Result<JsonValue> {
    let object = Object::from_pairs(alloc, pairs.into_iter())?;
    Ok(JsonValue::Object(object))
}

/// Where a server listens.
#[derive(Drop)]
pub struct Server {
    pub host: String,
    pub port: u16,
    pub tags: Vec<String>,
}

/// A server as an object, of which no contract says more.
impl IntoJson for Server {
    fn into_json(self, alloc: Global) -> Result<JsonValue> {
        let mut value = JsonValue::new_object(alloc);
        value.insert(alloc, "host", self.host)?;
        value.insert(alloc, "port", self.port)?;
        value.insert(alloc, "tags", self.tags)?;
        Ok(value)
    }
}

/// One of several kinds of things. In JSON its kind is the entry `type`.
#[derive(Clone, Copy, Debug, PartialEq)]
pub enum Shape {
    Circle { radius: u32 },
    Rectangle { width: u32, height: u32 },
}

impl IntoJson for Shape {
    fn into_json(self, alloc: Global) -> Result<JsonValue> {
        Ok(match self {
            Shape::Circle { radius } => { jzon::object! {alloc; "type": "circle", radius: radius} }
            Shape::Rectangle { width, height } => {
                jzon::object! {alloc; "type": "rectangle", width: width, height: height}
            }
        })
    }
}

/// A price and five percent of it, exactly. `None` if the result has too many digits.
pub fn with_tax(price: Number) -> Option<Number> {
    let (positive, mantissa, exponent) = price.as_parts();
    let mantissa = mantissa.checked_mul(105)?;
    let exponent = exponent.checked_sub(2)?;
    Some(Number::from_parts(positive, mantissa, exponent))
}

/// The shortest decimal that is read back as this float. Fails for NaN and infinity.
pub fn from_float(alloc: Global, float: f64) -> Result<JsonValue> {
    jzon::parse(alloc, format!(in alloc; "{float}")?.as_str())
}

/// An order with a price of `cents` cents.
pub fn order(alloc: Global, cents: i64) -> Result<JsonValue> {
    let price = Number::from_parts(cents >= 0, cents.unsigned_abs(), -2);
    Ok(jzon::object! {alloc; price: price})
}

/// Settings that are copied with what they hold.
#[derive(Clone, Debug, Drop, PartialEq)]
pub struct Profile {
    pub name: String,
    pub settings: JsonValue,
}

/// A profile like another, with a name of its own.
pub fn renamed(profile: &Profile, name: String) -> Result<Profile> {
    let mut copy = profile.clone()?;
    copy.name = name;
    Ok(copy)
}

//! Changes of a value, in place.

use jzon::object::Object;
use jzon::{JsonValue, Result};
use std::alloc::Global;

/// The code at the top of the README: reads a text, looks into its value, changes it, prints it.
pub fn pay(alloc: Global) -> Result<(Option<u16>, Option<i64>, String)> {
    let text = r#"{"id": 7, "price": 19.90, "to": {"city": "Bern"}}"#;
    let mut order = jzon::parse(alloc, text)?;
    let id = order.at("id").as_u16();
    let cents = order.at("price").as_exact_fixed_point_i64(2);
    order.insert(alloc, "paid", true)?;
    if let Some(address) = order.get_mut("to") {
        address.insert(alloc, "zip", "3011")?;
    }
    let printed = order.pretty(alloc, 2)?;
    Ok((id, cents, printed))
}

/// Turns the entry `debug` off, if there is one.
pub fn silence(config: &mut JsonValue) {
    if let Some(debug) = config.get_mut("debug") {
        *debug = JsonValue::Boolean(false);
    }
}

/// Sets an entry of an object within an object. Where one is missing, it is added.
pub fn set_port(alloc: Global, config: &mut JsonValue, port: u16) -> Result<()> {
    *config.at_mut(alloc, "server")?.at_mut(alloc, "port")? = JsonValue::from(port);
    Ok(())
}

/// Adds an element to the list `tags`, which is made if it is missing. `WrongType` if there is
/// another value.
pub fn add_tag(alloc: Global, config: &mut JsonValue, tag: &str) -> Result<()> {
    let tags = config.at_mut(alloc, "tags")?;
    if tags.is_null() {
        *tags = JsonValue::new_array(alloc);
    }
    tags.push(alloc, tag)
}

/// Changes the port, if it is there. `None` if it isn't: then nothing has changed.
pub fn change_port(config: &mut JsonValue, port: u16) -> Option<()> {
    *config.get_mut("server")?.get_mut("port")? = JsonValue::from(port);
    Some(())
}

/// Sorts a list by the field `name`. Elements without a name come first.
pub fn sort_by_name(list: &mut JsonValue) -> Result<()> {
    if let Some(elements) = list.as_array_mut() {
        elements.sort_by(|one, other| one.at("name").as_str().cmp(&other.at("name").as_str()))?;
    }
    Ok(())
}

/// Replaces each null in a list by 0.
pub fn fill(list: &mut JsonValue) {
    for element in list.members_mut() {
        if element.is_null() {
            *element = JsonValue::from(0u8);
        }
    }
}

/// Removes the entries of an object whose value is null.
pub fn remove_nulls(config: &mut JsonValue) {
    if let Some(object) = config.as_object_mut() {
        object.retain(|_key, value| !value.is_null());
    }
}

/// Moves the value of the key `old` to the key `new`, which is put last if it is missing.
pub fn rename(alloc: Global, config: &mut JsonValue) -> Result<()> {
    if config.has_key("old") {
        let value = config.remove("old");
        config.insert(alloc, "new", value)?;
    }
    Ok(())
}

/// Gives the entry `old` the key `new`, at its position.
pub fn rename_in_place(alloc: Global, config: &mut JsonValue) -> Result<()> {
    if let Some(object) = config.as_object_mut() {
        let mut renamed = Object::with_capacity(alloc, object.len())?;
        for (key, value) in object.iter() {
            let value = value.clone(alloc)?;
            match key {
                "old" => renamed.insert(alloc, "new", value)?,
                _ => renamed.insert(alloc, key, value)?,
            }
        }
        *object = renamed;
    }
    Ok(())
}

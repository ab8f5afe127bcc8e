//! What a user of the Rust crate writes, in the form that it has here (docs/FROM_RUST.md quotes
//! these lines).

use jzon::{JsonValue, Result};
use std::alloc::Global;

/// Parses a text, prints its value, looks into it, and builds another.
pub fn first_look(alloc: Global) -> Result<bool> {
    let value = jzon::parse(alloc, "[1, -12.50e3, {\"a\": null}]")?;
    let text = value.dump(alloc)?;
    let first = value.at_index(0).as_u64();
    let built = jzon::object! {alloc; a: [1, null], "b": true};
    Ok(text.as_str() == "[1,-12500,{\"a\":null}]" && first == Some(1) && built.len() == 2)
}

/// Parses a text, looks into its value, changes it, and prints it.
pub fn tour(alloc: Global, text: &str) -> Result<String> {
    let mut data = jzon::parse(alloc, text)?;
    let first = data.at("list").at_index(0).as_u64();
    let is_named = data.at("name").eq_str("x");
    *data.at_mut(alloc, "count")? = jzon::from(alloc, 1u8)?;
    data.insert(alloc, "first", first)?;
    data.insert(alloc, "is_named", is_named)?;
    data.at_mut(alloc, "list")?.push(alloc, "last")?;
    data.insert(alloc, "built", built(alloc)?)?;
    data.dump(alloc)
}

/// Changes the entry `name`, where there is one.
pub fn rename(data: &mut JsonValue, name: JsonValue) {
    if let Some(found) = data.get_mut("name") {
        *found = name;
    }
}

/// Values written as their texts would be.
fn built(alloc: Global) -> Result<JsonValue> {
    let list = jzon::array![alloc; 1u8, "two", null];
    let built = jzon::object! {alloc; a: 5u8, "b": [true, null], c: list};
    Ok(built)
}

/// Goes over the entries of an object, and over the elements of an array.
pub fn longest(value: &JsonValue) -> usize {
    let mut most = 0;
    for (key, item) in value.entries() {
        most = most.max(key.len()).max(item.len());
    }
    for item in value.members() {
        most = most.max(item.len());
    }
    most
}

/// The compact and the pretty text of a copy, and a text by `stringify`.
pub fn printed(alloc: Global, value: &JsonValue) -> Result<JsonValue> {
    let copy = value.clone(alloc)?;
    let compact = copy.dump(alloc)?;
    let lines = copy.pretty(alloc, 4)?;
    let text = jzon::stringify(alloc, "text")?;
    let texts = jzon::array![alloc; compact, lines, text];
    Ok(texts)
}

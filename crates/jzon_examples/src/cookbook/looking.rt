//! What is in a value.

use jzon::{JsonValue, Reading, Result};
use std::alloc::Global;

/// Seconds to wait: 30 if the setting is missing or no `u64`.
pub fn timeout(config: &JsonValue) -> u64 {
    config.at("limits").at("timeout").as_u64().unwrap_or(30)
}

/// Sums up the amounts of a list of orders, if all are integers and the sum fits.
pub fn total(orders: &JsonValue) -> Option<u64> {
    let mut sum = 0u64;
    for order in orders.members() {
        sum = sum.checked_add(order.at("amount").as_u64()?)?;
    }
    Some(sum)
}

/// The keys whose value is null.
pub fn unset(alloc: Global, config: &JsonValue) -> Result<Vec<String>> {
    let mut keys = Vec::new(alloc);
    for (key, value) in config.entries() {
        if value.is_null() {
            keys.push(String::from_str(alloc, key)?)?;
        }
    }
    Ok(keys)
}

/// The value and all values inside it, at any depth: a container before what is in it.
pub fn all_values(alloc: Global, value: &JsonValue) -> Result<Vec<&JsonValue>> {
    let mut values = vec![in alloc; value]?;
    for position in 0..usize::MAX {
        match values.get(position).copied() {
            Some(container) => push_children(&mut values, container)?,
            None => break,
        }
    }
    Ok(values)
}

/// Adds the elements of an array, or the values of an object's entries.
fn push_children<'a>(values: &mut Vec<&'a JsonValue>, container: &'a JsonValue) -> Result<()> {
    for element in container.members() {
        values.push(element)?;
    }
    for (_key, value) in container.entries() {
        values.push(value)?;
    }
    Ok(())
}

/// The strings in a value, at any depth. Keys aren't among them.
pub fn strings_inside(alloc: Global, value: &JsonValue) -> Result<Vec<&str>> {
    let mut strings = Vec::new(alloc);
    for found in all_values(alloc, value)? {
        if let Some(text) = found.as_str() {
            strings.push(text)?;
        }
    }
    Ok(strings)
}

/// The integer that a number is, however it is written: `100`, `1e2` or `100.0`.
pub fn integer(value: &JsonValue) -> Option<u64> {
    value.as_exact_fixed_point_u64(0)
}

/// The value of a text, if each number in it is exact.
pub fn parse_exactly(alloc: Global, text: &str) -> Result<JsonValue> {
    jzon::parse_as(alloc, text, &Reading::USUAL.with_exact_numbers())
}

/// A price in cents. `None` if it has parts of a cent, is no number, or is missing.
pub fn cents(order: &JsonValue) -> Option<i64> {
    order.at("price").as_exact_fixed_point_i64(2)
}

/// An identifier of any length, written as a string.
pub fn identifier(value: &JsonValue) -> Option<&str> {
    value.get("id")?.as_str()
}

/// An integer of up to 128 bits, written as a string.
pub fn wide_identifier(value: &JsonValue) -> Option<u128> {
    identifier(value)?.parse().ok()
}

/// Whether two texts mean equal values.
pub fn means_the_same(alloc: Global, one: &str, other: &str) -> Result<bool> {
    Ok(jzon::parse(alloc, one)? == jzon::parse(alloc, other)?)
}

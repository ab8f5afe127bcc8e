//! Values at any depth: a function that calls itself with one level less.

use jzon::{Error, JsonValue, Result};
use std::alloc::Global;

/// Trims each string in the value, at any depth that a text can have.
pub fn trim_all(alloc: Global, value: &mut JsonValue) -> Result<()> {
    trim(alloc, value, 513)
}

fn trim(alloc: Global, value: &mut JsonValue, depth: u16) -> Result<()> {
    if depth == 0 {
        return Err(Error::ExceededDepthLimit);
    }
    if let Some(text) = value.as_str() {
        *value = jzon::from(alloc, text.trim())?;
    }
    for element in value.members_mut() {
        trim(alloc, element, depth - 1)?;
    }
    for (_key, element) in value.entries_mut() {
        trim(alloc, element, depth - 1)?;
    }
    Ok(())
}

/// The length of the longest string in the value, within so many levels.
pub fn longest(value: &JsonValue, depth: u16) -> usize {
    if depth == 0 {
        return 0;
    }
    let mut most = value.as_str().unwrap_or("").len();
    for element in value.members() {
        most = most.max(longest(element, depth - 1));
    }
    for (_key, element) in value.entries() {
        most = most.max(longest(element, depth - 1));
    }
    most
}

//! What to write in place of what the checker refuses.

ghost use Rattle.std.specs.Prelude.{◌≡◌, OnErr};

use jzon::{Error, JsonValue, Result};
use std::alloc::{AllocError, AllocFailed, Global};

/// Not `list.as_array().unwrap()[0].as_str().unwrap()`.
pub fn first_name(list: &JsonValue) -> Option<&str> {
    list.at_index(0).as_str()
}

/// Not `value.as_u64().unwrap()`.
pub fn required(alloc: Global, value: &JsonValue) -> Result<u64> {
    match value.as_u64() {
        Some(number) => Ok(number),
        None => Err(Error::wrong_type(alloc, "u64")?),
    }
}

/// Not `items[0]` of a list that may be empty.
pub fn first(items: &[JsonValue]) -> Option<&JsonValue> {
    items.get(0)
}

/// `items[0]` after a test.
pub fn starts_with_null(items: &[JsonValue]) -> bool {
    items.len() > 0 && items[0].is_null()
}

/// Not `id + 1`.
pub fn next_id(id: u64) -> Option<u64> {
    id.checked_add(1)
}

/// Not `count += 1`.
pub fn count_nulls(list: &JsonValue) -> usize {
    let mut count = 0usize;
    for element in list.members() {
        if element.is_null() {
            count = count.saturating_add(1);
        }
    }
    count
}

/// `+ 1` in a larger type.
pub fn next_port(server: &JsonValue) -> Option<u32> {
    let port = server.at("port").as_u16()?;
    Some(u32::from(port) + 1)
}

/// Not `id as u32`.
pub fn short_id(id: u64) -> Option<u32> {
    u32::try_from(id).ok()
}

/// Not `100 / parts`.
pub fn percent_of_each(parts: u64) -> Option<u64> {
    100u64.checked_div(parts)
}

/// `100 / parts` after a test.
pub fn percent_or_zero(parts: u64) -> u64 {
    if parts == 0 {
        return 0;
    }
    100 / parts
}

/// Not `&text[1..]`.
pub fn after_first_byte(text: &str) -> Option<&str> {
    text.get(1..)
}

/// Not `list.members().map(|element| element.len()).sum()`.
pub fn total_length(list: &JsonValue) -> Option<usize> {
    let mut total = 0usize;
    for element in list.members() {
        total = total.checked_add(element.len())?;
    }
    Some(total)
}

/// Not `while index < list.len()`.
pub fn last_null(list: &JsonValue) -> Option<usize> {
    let mut last = None;
    for index in 0..list.len() {
        if list.at_index(index).is_null() {
            last = Some(index);
        }
    }
    last
}

/// Not `while let Some(next) = work.pop()`, if the loop also adds to the list.
pub fn count_inside(alloc: Global, value: &JsonValue) -> Result<usize> {
    let mut work = vec![in alloc; value]?;
    let mut count = 0usize;
    for _ in 0..u64::MAX {
        let Some(next) = work.pop() else { break };
        count = count.saturating_add(1);
        for element in next.members() {
            work.push(element)?;
        }
    }
    Ok(count)
}

/// What is proved as it is in Rust.
pub fn as_in_rust(alloc: Global, list: &JsonValue) -> Result<JsonValue> {
    let nulls = list.members().filter(|element| element.is_null()).count();
    let most = list.members().filter_map(|element| element.as_u64()).max();
    Ok(jzon::object! {alloc; nulls: nulls, most: most, limit: 5})
}

/// What a service cost.
#[derive(Drop)]
pub struct Total {
    pub service: String,
    pub cents: u64,
}

/// Why a cost wasn't added.
#[derive(Debug, Drop)]
pub enum AddError {
    TooLarge,
    OutOfMemory,
}

impl From<AllocError> for AddError {
    fn from(_error: AllocError) -> AddError {
        AddError::OutOfMemory
    }
}

impl<T: Drop> From<AllocFailed<T>> for AddError {
    fn from(_error: AllocFailed<T>) -> AddError {
        AddError::OutOfMemory
    }
}

/// Adds a cost to the total of a service. No `?` is inside a loop over `totals.iter_mut()`: it
/// first finds the position, then reads and computes, and writes last. So an error leaves the list
/// as it was.
pub fn add(
    alloc: Global,
    totals: &mut Vec<Total>,
    service: &str,
    cents: u64,
) -> std::result::Result<(), AddError>
    ensures { OnErr result (totals.new.items ≡ totals.old.items) }
{
    let position = totals
        .iter()
        .position(|total| total.service.as_str() == service);
    if let Some(position) = position {
        let old = totals.get(position).map(|total| total.cents).unwrap_or(0);
        let sum = old.checked_add(cents).ok_or(AddError::TooLarge)?;
        if let Some(total) = totals.get_mut(position) {
            total.cents = sum;
        }
        return Ok(());
    }
    let service = String::from_str(alloc, service)?;
    totals.push(Total { service, cents })?;
    Ok(())
}

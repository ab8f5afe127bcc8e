//! Keys that are hostile to an index over hashes.

use jzon_base::keys::hash::hash_of;
use std::alloc::{AllocError, Global};

/// The digits of the numbers below `count`, in the order of the numbers.
pub fn digits_below(alloc: Global, count: u32) -> Result<Vec<String>, AllocError> {
    let mut keys = Vec::new(alloc);
    for number in 0..count {
        keys.push(format!(in alloc; "{number}")?)?;
    }
    Ok(keys)
}

/// `count` keys, in ascending order of their hashes.
pub fn keys_by_hash(alloc: Global, count: u32) -> Result<Vec<String>, AllocError> {
    let mut keys = digits_below(alloc, count)?;
    keys.sort_by_key(|key| hash_of(key.as_str()))?;
    Ok(keys)
}

/// An order of keys.
#[derive(Clone, Copy)]
pub enum KeyOrder {
    /// That of the numbers that they spell: their hashes are in no order.
    Number,
    /// Ascending, by their hashes: each goes to the end of an index.
    Hash,
    /// Descending, by their hashes: each goes to the start of an index.
    HashDown,
}

/// Each order.
pub const KEY_ORDERS: &[KeyOrder] = &[KeyOrder::Number, KeyOrder::Hash, KeyOrder::HashDown];

/// The digits of the numbers below `count`, in this order.
pub fn keys_in(alloc: Global, order: KeyOrder, count: u32) -> Result<Vec<String>, AllocError> {
    match order {
        KeyOrder::Number => digits_below(alloc, count),
        KeyOrder::Hash => keys_by_hash(alloc, count),
        KeyOrder::HashDown => {
            let mut keys = keys_by_hash(alloc, count)?;
            keys.reverse();
            Ok(keys)
        }
    }
}

/// `count` keys whose hash is 0: zero bytes appended to a key of hash 0 don't change its hash.
pub fn keys_of_one_hash(alloc: Global, count: usize) -> Result<Vec<String>, AllocError> {
    let mut keys = Vec::new(alloc);
    let mut key = String::from_str(alloc, "77kepQFQ8Kl")?;
    for _ in 0..count {
        keys.push(key.clone()?)?;
        key.push('\0')?;
    }
    Ok(keys)
}

/// The compact text of an object with these keys, each with null. Zero bytes are the only ones
/// escaped in it.
pub fn object_text(alloc: Global, keys: &[String]) -> Result<String, AllocError> {
    let mut text = String::new(alloc);
    for key in keys {
        text.push(if text.is_empty() { '{' } else { ',' })?;
        push_quoted(&mut text, key)?;
        text.push_str(":null")?;
    }
    text.push('}')?;
    Ok(text)
}

fn push_quoted(text: &mut String, key: &str) -> Result<(), AllocError> {
    text.push('"')?;
    for character in key.chars() {
        match character {
            '\0' => text.push_str("\\u0000")?,
            character => text.push(character)?,
        }
    }
    text.push('"')
}

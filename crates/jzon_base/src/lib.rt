//! What JSON values and their parser are built on: errors, numbers, escapes, short strings, keys,
//! and the entries of objects.
#![tactic(auto)]

pub mod digits;
pub mod error;
mod inline;
pub mod key;
pub mod keys;
pub mod number;
pub mod pairs;
pub mod short;
pub mod util;

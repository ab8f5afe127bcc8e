//! Tests of calls on values, objects and numbers, each in the file of its calls:
//!
//! - `readers`, `numbers`: what is read of a value and of a view, and of a number as an integer
//! - `changers`, `lent`: calls that change a value, and calls that lend mutable references into it
//! - `objects`, `keys`: calls on objects, also with many and with hostile keys
//! - `values`, `conversions`: equality and copies, and what is converted into a value
//! - `errors`, `names`: what errors report, and public names that no other test uses
#![tactic(auto)]

#[cfg(test)]
mod changers;
#[cfg(test)]
mod common;
#[cfg(test)]
mod conversions;
#[cfg(test)]
mod errors;
#[cfg(test)]
mod keys;
#[cfg(test)]
mod lent;
#[cfg(test)]
mod names;
#[cfg(test)]
mod numbers;
#[cfg(test)]
mod objects;
#[cfg(test)]
mod readers;
#[cfg(test)]
mod values;

//! JSON values and objects: reading and changing them, converting into them, and printing them.
#![tactic(auto)]

mod changers;
mod clone;
pub mod codegen;
mod equal;
mod from;
pub mod into_json;
pub mod lent;
pub mod object;
pub mod readers;
pub mod value;
pub mod view;

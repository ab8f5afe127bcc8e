//! Values of Rust's types from JSON and back (docs/TOOLS.md): `FromJson` reads them, and `ToJson`
//! writes them.
#![tactic(auto)]

pub mod decode;
pub mod encode;

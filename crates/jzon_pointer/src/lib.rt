//! JSON pointers (RFC 6901): the value that a text such as `/a/0` names, where it stands in its text,
//! and how a pointer is shown in a message (docs/TOOLS.md).
#![tactic(auto)]

pub mod error;
pub mod locate;
pub mod names;
mod pointer;
pub mod shown;
pub mod token;

pub use pointer::{PointerError, Primitive, Reason, find, get, push_token, seek};

//! Parses, holds, changes and prints JSON without typed structs: a port of the Rust crate `jzon`.
//!
//! The version is `0.12.5+rattle.6`.
#![tactic(auto)]

mod bytes_at;
mod container_kind;
mod conversions;
mod cursor;
pub mod laws;
mod located;
mod macros;
mod numeral;
mod parser;
mod place;
mod primitive;
mod reading;
mod stacks;
mod stop;
mod string;
mod target;
mod whitespace;

pub use conversions::{from, stringify, stringify_pretty};
#[doc(hidden)]
pub use jzon_base::error::io_error;
pub use jzon_base::error::{Error, Error as JsonError, JsonResult, Result};
pub use jzon_base::{number, short};
pub use jzon_tree::into_json::IntoJson;
pub use jzon_tree::value::JsonValue;
pub use jzon_tree::value::JsonValue::Null;
pub use jzon_tree::view::View;
pub use jzon_tree::{codegen, lent};
pub use located::LocatedError;
#[doc(hidden)]
pub use macros::{with_entry, with_item};
pub use parser::{parse, parse_as, parse_located};
pub use place::Place;
pub use reading::Reading;

/// The elements of an array.
pub type Array = Vec<JsonValue>;

/// The iterators over the elements of arrays and the entries of objects (docs/RULES.md, "Public
/// names").
pub mod iterators {
    pub use jzon_tree::lent::{EntriesMut, MembersMut};
    pub use jzon_tree::readers::{Entries, Members};
}

/// Objects (RFC 8259, section 4; docs/RULES.md, "Objects").
pub mod object {
    pub use jzon_tree::object::{IntoIter, Iter, IterMut, Key, Keys, Object, Values};
}

/// The text of a number, and the loop that writes bytes.
pub mod util {
    pub use jzon_base::util::{print_dec, write_bytes};
}

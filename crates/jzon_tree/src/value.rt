//! JSON values. The methods of `JsonValue` are in `readers` and `view` (what it holds), `changers`
//! and `lent` (changes), `clone` (copies), `equal` (`==`), `print` (texts) and
//! `codegen::display`.

pub(crate) mod inspect;
mod print;
mod readable;

use crate::object::Object;
use jzon_base::number::Number;
use jzon_base::short::Short;
#[doc(hidden)]
pub use readable::is_readable;

/// A JSON value (RFC 8259, section 3).
///
/// `==` compares what values mean: a `Short` equals a `String` of the same bytes, numbers are equal
/// if they are the same decimal, NaN equals NaN, and the order of entries doesn't count.
#[cycle(json)]
#[derive(Debug, Drop)]
pub enum JsonValue {
    /// `null`.
    Null,
    /// A string of at most `short::MAX_LEN` (30) bytes, stored inline.
    Short(Short),
    /// An allocated string, of any length.
    String(String),
    /// A number, with mantissa and exponent as they were parsed or set. NaN, which no text means, is
    /// written as `null`.
    Number(Number),
    /// `true` or `false`.
    Boolean(bool),
    /// Entries in order, with distinct keys.
    Object(Object),
    /// Elements in order.
    Array(Vec<JsonValue>),
}

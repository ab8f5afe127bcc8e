//! What an error says is expected, and what is there; why an operation of a patch can't be done.

ghost use Rattle.std.specs.Prelude.{◌≡◌, Some};
ghost use Rattle.std.specs.Fmt.{WritesOnOk};
ghost use Rattle.jzon_pointer.specs.Errors.{cause_text, expected_text, fixed_text, found_text, hidden_found, member_text, number_shown};

use super::words::Count;
use crate::Primitive;
use crate::shown::{ShownToken, ShownWords};
use jzon::number::Number;
use jzon::util::print_dec::number_text;
use std::fmt;

/// What a value must be.
#[derive(Clone, Copy, PartialEq, Eq)]
pub enum Expected {
    /// Any value: said of a missing entry whose type takes null.
    Value,
    String,
    Boolean,
    Number,
    Array,
    Object,
    U8,
    U16,
    U32,
    /// Of a `usize` too.
    U64,
    I8,
    I16,
    I32,
    /// Of an `isize` too.
    I64,
    /// A number with at most this many digits after the point.
    Fixed(u16),
    /// An array of at most this many elements.
    AtMost(usize),
    /// An array of more than this many elements.
    Above(usize),
    /// An array of this many elements.
    Exactly(usize),
    /// What a caller's own test expects, in its words.
    Other(&'static str),
}

/// What is there instead.
#[derive(Clone, PartialEq, Eq, Drop)]
pub enum Found {
    Null,
    Boolean(bool),
    Number(Number),
    /// A string, of which at most 40 characters are shown.
    String(String),
    /// A string of this many characters, more than an error repeats.
    LongString(usize),
    /// An array of this many elements.
    Array(usize),
    /// An object of this many entries.
    Object(usize),
    /// A value that `without_value` left out: its type alone.
    Hidden(Primitive),
}

/// The keys that an object may have, as they are written in a program.
pub type Known = &'static [&'static str];

/// Why an operation of a patch can't be done.
#[derive(Clone, Copy, PartialEq, Eq)]
pub enum Cause {
    /// The patch isn't an array.
    NotAnArray,
    /// The operation isn't an object.
    NotAnObject,
    /// The operation has no such member.
    Missing(Member),
    /// This member isn't a string.
    NotAString(Member),
    /// `op` is none of RFC 6902's six.
    UnknownOp,
    /// The value at `path` doesn't equal `value`.
    TestFailed,
    /// `path` leads into what would be moved.
    IntoItself,
    /// What would be put at `path` nests deeper than the limit, with the containers around it.
    TooDeep,
    /// What would be copied, or moved to a deeper place, weighs more (48 bytes a value, and those
    /// of strings and keys) than those before it left of the limit, or more elements and entries
    /// would be shifted.
    TooLarge,
}

/// A member of an operation of a patch (RFC 6902, section 4).
#[derive(Clone, Copy, PartialEq, Eq)]
pub enum Member {
    Op,
    Path,
    From,
    Value,
}

impl Found {
    /// Without what is there: the type of a boolean, a number or a string, the size of a container.
    pub fn hidden(&self) -> Found
        ensures { result ≡ hidden_found self.now }
    {
        match self {
            Found::Null => Found::Null,
            Found::Boolean(_) => Found::Hidden(Primitive::Boolean),
            Found::Number(_) => Found::Hidden(Primitive::Number),
            Found::String(_) | Found::LongString(_) => Found::Hidden(Primitive::String),
            Found::Array(count) => Found::Array(*count),
            Found::Object(count) => Found::Object(*count),
            Found::Hidden(kind) => Found::Hidden(*kind),
        }
    }
}

impl fmt::Display for Expected {
    ghost output = { λ e. Some (expected_text e) };

    fn fmt<W: fmt::Write>(&self, f: &mut fmt::Formatter<W>) -> fmt::Result {
        match self {
            Expected::Value => f.write_str("a value"),
            Expected::String => f.write_str("a string"),
            Expected::Boolean => f.write_str("true or false"),
            Expected::Number => f.write_str("a number"),
            Expected::Array => f.write_str("an array"),
            Expected::Object => f.write_str("an object"),
            Expected::U8 => f.write_str("an integer from 0 to 255"),
            Expected::U16 => f.write_str("an integer from 0 to 65535"),
            Expected::U32 => f.write_str("an integer from 0 to 4294967295"),
            Expected::U64 => f.write_str("an integer from 0 to 18446744073709551615"),
            Expected::I8 => f.write_str("an integer from -128 to 127"),
            Expected::I16 => f.write_str("an integer from -32768 to 32767"),
            Expected::I32 => f.write_str("an integer from -2147483648 to 2147483647"),
            Expected::I64 => {
                f.write_str("an integer from -9223372036854775808 to 9223372036854775807")
            }
            Expected::Fixed(point) => show_fixed(f, *point),
            Expected::AtMost(1) => f.write_str("an array of at most 1 element"),
            Expected::AtMost(most) => { write!(f, "an array of at most {} elements", Count(*most)) }
            Expected::Above(1) => f.write_str("an array of more than 1 element"),
            Expected::Above(most) => write!(f, "an array of more than {} elements", Count(*most)),
            Expected::Exactly(1) => f.write_str("an array of 1 element"),
            Expected::Exactly(count) => write!(f, "an array of {} elements", Count(*count)),
            Expected::Other(words) => write!(f, "{}", ShownWords(*words)),
        }
    }
}

fn show_fixed<W: fmt::Write>(f: &mut fmt::Formatter<W>, point: u16) -> fmt::Result
    ensures { WritesOnOk W.write_str_gives f.old result (fixed_text point) f.new }
{
    match point {
        0 => f.write_str("an integer"),
        1 => f.write_str("a number with at most 1 digit after the point"),
        _ => {
            let point = Count(usize::from(point));
            write!(f, "a number with at most {point} digits after the point")
        }
    }
}

impl fmt::Display for Found {
    ghost output = { λ found. Some (found_text found) };

    fn fmt<W: fmt::Write>(&self, f: &mut fmt::Formatter<W>) -> fmt::Result {
        match self {
            Found::Null => f.write_str("null"),
            Found::Boolean(true) => f.write_str("true"),
            Found::Boolean(false) => f.write_str("false"),
            Found::Number(number) => show_number(f, number),
            Found::String(text) => write!(f, "\"{}\"", ShownToken(text.as_str())),
            Found::LongString(count) => write!(f, "a string of {} characters", Count(*count)),
            Found::Array(0) => f.write_str("an empty array"),
            Found::Array(1) => f.write_str("an array of 1 element"),
            Found::Array(count) => write!(f, "an array of {} elements", Count(*count)),
            Found::Object(0) => f.write_str("an empty object"),
            Found::Object(1) => f.write_str("an object of 1 entry"),
            Found::Object(count) => write!(f, "an object of {} entries", Count(*count)),
            Found::Hidden(kind) => write!(f, "{kind}"),
        }
    }
}

/// What `Display` of a number prints, `nan` of NaN. It isn't called, because its contract doesn't say
/// that this takes at most 29 bytes, as the type of `number_text` does.
fn show_number<W: fmt::Write>(f: &mut fmt::Formatter<W>, number: &Number) -> fmt::Result
    ensures { WritesOnOk W.write_str_gives f.old result (number_shown number.now) f.new }
{
    if number.is_nan() {
        return f.write_str("nan");
    }
    let (positive, mantissa, exponent) = number.as_parts();
    f.write_str(number_text(positive, mantissa, exponent).as_str())
}

impl fmt::Display for Cause {
    ghost output = { λ c. Some (cause_text c) };

    fn fmt<W: fmt::Write>(&self, f: &mut fmt::Formatter<W>) -> fmt::Result {
        match self {
            Cause::NotAnArray => f.write_str("the patch isn't an array"),
            Cause::NotAnObject => f.write_str("not an object"),
            Cause::Missing(member) => write!(f, "{member} is missing"),
            Cause::NotAString(member) => write!(f, "{member} isn't a string"),
            Cause::UnknownOp => f.write_str("unknown `op`"),
            Cause::TestFailed => f.write_str("test failed"),
            Cause::IntoItself => f.write_str("moved into itself"),
            Cause::TooDeep => f.write_str("nested too deep"),
            Cause::TooLarge => f.write_str("copies or moves too much"),
        }
    }
}

/// Its name, in backquotes.
impl fmt::Display for Member {
    ghost output = { λ m. Some (member_text m) };

    fn fmt<W: fmt::Write>(&self, f: &mut fmt::Formatter<W>) -> fmt::Result {
        match self {
            Member::Op => f.write_str("`op`"),
            Member::Path => f.write_str("`path`"),
            Member::From => f.write_str("`from`"),
            Member::Value => f.write_str("`value`"),
        }
    }
}

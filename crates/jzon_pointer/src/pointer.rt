//! JSON pointers (RFC 6901): the value that a text such as `/a/0` names, and the empty text the
//! whole one.
//!
//! `value_at` of specs/Pointer.antt says which value that is, or which token names nothing.

ghost use Rattle.std.specs.Prelude.{◌≡◌, ◌∷◌, ◌++◌, [], List, ℕ, OnOk, OnErr, IfOk, IfErr, Ok, Err, Some, string_bytes, option_map};
ghost use Rattle.std.specs.Result.{result_ok};
ghost use Rattle.jzon.specs.View.{view};
ghost use Rattle.jzon_pointer.specs.ErrorTexts.{before, behind, parent_text, primitive_text, token_text};
ghost use Rattle.jzon_pointer.specs.Errors.{IsLost};
ghost use Rattle.jzon_pointer.specs.Escaped.{escaped};
ghost use Rattle.jzon_pointer.specs.Pointer.{child_of, reason_of, tokens_left, tokens_of, token_key, value_at};

use crate::error::{Error, What};
use crate::token::{
    after_slash, first_token, has_index_form, index_of, is_well_escaped, member, push_escaped,
};
use jzon::JsonValue;
use std::alloc::{AllocError, Global};
use std::fmt;

/// Why a pointer names nothing in a value, or why nothing could be inserted there.
#[derive(Clone, Copy, Debug, PartialEq, Eq)]
pub enum PointerError {
    /// The text isn't empty, and begins with no `/`.
    NoSlash,
    /// The token between these bytes of the pointer, counted from 0, is the first that names
    /// nothing.
    Missing {
        start: usize,
        end: usize,
        reason: Reason,
    },
    /// The empty text names the whole value, which is in no array and no object.
    WholeValue,
}

/// Why a token names nothing.
#[derive(Clone, Copy, Debug, PartialEq, Eq)]
pub enum Reason {
    /// A `~` isn't followed by `0` or `1`.
    BadEscape,
    /// The object has no such key.
    NoMember,
    /// The value is an array, and the token is no index: digits, with no zero before others.
    NotAnIndex,
    /// The array has only this many elements.
    OutOfRange { length: usize },
    /// The value is no array and no object.
    NoChildren(Primitive),
}

/// The type of a value that is no array and no object (RFC 8259, section 1).
#[derive(Clone, Copy, Debug, PartialEq, Eq)]
pub enum Primitive {
    Null,
    Boolean,
    Number,
    String,
}

impl fmt::Display for Primitive {
    ghost output = { λ p. Some (primitive_text p) };

    fn fmt<W: fmt::Write>(&self, f: &mut fmt::Formatter<W>) -> fmt::Result {
        match self {
            Primitive::Null => f.write_str("null"),
            Primitive::Boolean => f.write_str("a boolean"),
            Primitive::Number => f.write_str("a number"),
            Primitive::String => f.write_str("a string"),
        }
    }
}

/// What a message calls the value in which the token that begins at `start` names nothing: the
/// pointer up to the slash before this token, or `the whole value` for the empty one.
pub(crate) fn parent(pointer: &str, start: usize) -> &str
    ensures { result.now ≡ parent_text pointer.now start }
{
    let (before, _slash) = parts(pointer, start.saturating_sub(1));
    if before.is_empty() {
        return "the whole value";
    }
    before
}

/// The token between these bytes.
pub(crate) fn token(pointer: &str, start: usize, end: usize) -> &str
    ensures { result.now ≡ token_text pointer.now start end }
{
    let (_before, from_start) = parts(pointer, start);
    parts(from_start, end.saturating_sub(start)).0
}

/// The text before a byte offset, and the text from there. The whole text and nothing if no
/// character begins there, as in another pointer than the error's.
fn parts(text: &str, at: usize) -> (&str, &str)
    ensures before { result.0.now ≡ before at text.now }
    ensures behind { result.1.now ≡ behind at text.now }
{
    match text.split_at_checked(at) {
        Some((before, behind)) => (before, behind),
        None => (text, ""),
    }
}

/// The value that a pointer names, if it names one.
///
/// ```rust
/// let port = jzon_pointer::get(&config, "/servers/0/port");
/// ```
pub fn get<'a>(value: &'a JsonValue, path: &str) -> Option<&'a JsonValue>
    ensures { option_map (λ v. view v.now) result
        ≡ result_ok (value_at (view value.now) path.now) }
{
    seek(value, path).ok()
}

/// The value that a pointer names, or an error, which says the first token that names nothing, and why.
///
/// ```rust
/// if let Err(error) = jzon_pointer::find(alloc, &config, "/servers/2/port") {
///     let words = format!(in alloc; "{error}")?;
///     assert_eq!(rt; words.as_str(), "/servers/2/port: /servers has 2 elements");
/// }
/// ```
pub fn find<'a>(alloc: Global, value: &'a JsonValue, path: &str) -> Result<&'a JsonValue, Error>
    ensures found { IfOk result (λ v. value_at (view value.now) path.now ≡ Ok (view v.now)) }
    ensures error { IfErr result (IsLost (value_at (view value.now) path.now) path.now) }
{
    match seek(value, path) {
        Ok(found) => Ok(found),
        Err(lost) => Err(Error::at_pointer(alloc, path, What::Pointer(lost))),
    }
}

/// The value that a pointer names, or why it names none: an error that owns no pointer, so that no
/// allocator is needed.
#[tactic(auto, using(crate::proofs::PlaceSteps::placing))]
pub fn seek<'a>(value: &'a JsonValue, path: &str) -> Result<&'a JsonValue, PointerError>
    ensures found { IfOk result (λ v. value_at (view value.now) path.now ≡ Ok (view v.now)) }
    ensures error { IfErr result (λ e. value_at (view value.now) path.now ≡ Err e) }
{
    let mut place = value;
    let mut left = after_slash(path)?;
    'tokens: while let Some(text) = left {
        let (token, rest) = first_token(text);
        let Some(below) = child(place, token) else {
            let start = path.len() - text.len();
            return Err(PointerError::Missing {
                start,
                end: start + token.len(),
                reason: why_missing(place, token),
            });
        };
        place = below;
        left = rest;
    }
    Ok(place)
}

/// Appends a slash and the token of a key, so that the pointer then leads one key deeper: `~0` for
/// each `~`, and `~1` for each `/`. After an error the pointer is as it was.
///
/// ```rust
/// let mut path = String::from_str(alloc, "/servers/0")?;
/// jzon_pointer::push_token(&mut path, "a/b")?;
/// assert_eq!(rt; path.as_str(), "/servers/0/a~1b");
/// ```
#[tactic(auto, using(crate::proofs::EscapedSteps::pushing))]
pub fn push_token(pointer: &mut String, key: &str) -> Result<(), AllocError>
    ensures text { OnOk result (string_bytes pointer.new
        ≡ string_bytes pointer.old ++ 47 ∷ escaped key.now) }
    ensures tokens { (ts : List (List ℕ)) → tokens_of (string_bytes pointer.old) ≡ Some ts
        → OnOk result (tokens_of (string_bytes pointer.new) ≡ Some (ts ++ escaped key.now ∷ [])) }
    ensures key { token_key (escaped key.now) ≡ Some key.now }
    ensures err { OnErr result (string_bytes pointer.new ≡ string_bytes pointer.old) }
{
    let mut token = String::new(*pointer.allocator());
    token.push_str("/")?;
    push_escaped(&mut token, key)?;
    pointer.push_str(token.as_str())
}

/// Why a token names nothing, of one that does: first for a wrong escape.
#[tactic(auto, using(crate::proofs::PlaceSteps::placing))]
fn why_missing(value: &JsonValue, token: &str) -> Reason
    ensures { result ≡ reason_of (view value.now) token.now }
{
    if !is_well_escaped(token) {
        return Reason::BadEscape;
    }
    match value {
        JsonValue::Object(_) => Reason::NoMember,
        JsonValue::Array(items) if has_index_form(token) => Reason::OutOfRange {
            length: items.len(),
        },
        JsonValue::Array(_) => Reason::NotAnIndex,
        JsonValue::Null => Reason::NoChildren(Primitive::Null),
        JsonValue::Boolean(_) => Reason::NoChildren(Primitive::Boolean),
        JsonValue::Number(_) => Reason::NoChildren(Primitive::Number),
        JsonValue::Short(_) | JsonValue::String(_) => Reason::NoChildren(Primitive::String),
    }
}

/// The entry's value or the element that a token names, if it names one.
#[tactic(auto, using(crate::proofs::PlaceSteps::placing))]
fn child<'a>(value: &'a JsonValue, token: &str) -> Option<&'a JsonValue>
    ensures { option_map (λ v. view v.now) result ≡ child_of (view value.now) token.now }
{
    match value {
        JsonValue::Array(items) => items.get(index_of(token)?),
        JsonValue::Object(object) => member(object, token),
        _ => None,
    }
}

//! Reading a text or a value into numbers, strings, lists and structs, with errors that say where,
//! what was expected, and what is there.
//!
//! An error names its place by a JSON pointer. Nobody hands a path down: a reader knows only its own
//! value, and those of containers put the key or index before the pointer of an error that comes up.

ghost use Rattle.std.specs.Prelude.{chars, IfOk, IfErr, IsOkUnless};
ghost use Rattle.jzon.specs.Value.{Value};
ghost use Rattle.jzon.specs.View.{view};
ghost use Rattle.jzon_pointer.specs.Errors.{memory};
ghost use Rattle.jzon_typed.specs.Decode.{IsErrorIn, IsErrorOfText, MeansSome};
ghost use Rattle.jzon.specs.Reading.{strict_exact};
ghost use Rattle.jzon_typed.specs.Integers.{EqualIntegers};

mod alike;
mod elements;
mod fields;
mod impls;
mod wrong;

pub use alike::{ReadsAlike, law_of};
pub use elements::element;
pub use fields::Fields;
use jzon::{JsonValue, Reading, parse_located};
pub use jzon_pointer::error::{Error, Expected, Found, Known, LONGEST, What};
use std::alloc::Global;
use std::result::Result;
pub use wrong::expected;

/// Types that are read from a value. An implementation may say by the relation `gives` which results
/// a value gives, and by `takes` which values are read, want of memory aside; one that says nothing
/// needs no ghost line.
///
/// ```rust
/// impl FromJson for Server {
///     fn from_json(alloc: Global, value: &JsonValue) -> Result<Server, Error> {
///         let server = Fields::only(alloc, value, &["host", "port", "tags"])?;
///         Ok(Server {
///             host: server.read("host")?,
///             port: server.read_or("port", 80)?,
///             tags: server.read_or("tags", Vec::new(alloc))?,
///         })
///     }
/// }
/// ```
pub trait FromJson: Drop {
    ghost gives: { Value → Self → Type 0 } = { λ _ _. Unit {0} };

    ghost takes: { Value → Type 0 } = { λ _. ⊥ };

    /// The value as this type. The pointer of an error leads from this value.
    fn from_json(alloc: Global, value: &JsonValue) -> Result<Self, Error>
        ensures value { IfOk result (gives (view value.now)) }
        ensures error { IfErr result (IsErrorIn (view value.now)) }
        ensures takes { takes (view value.now) → IsOkUnless result memory };
}

/// The value that a text means, as this type. The text is read strictly and exactly: a repeated key,
/// and a number that would be cut or clamped to another value, are errors. Each error has its line
/// and column, unless memory runs out.
pub fn from_text<T: FromJson>(alloc: Global, text: &str) -> Result<T, Error>
    ensures value { IfOk result (λ x. MeansSome strict_exact (chars text.now) (λ v. T.gives v x)) }
    ensures error { IfErr result (IsErrorOfText strict_exact text.now) }
{
    from_text_as(alloc, text, &Reading::LOSSLESS)
}

/// The value that a text means by `reading`, as this type. Each error has its line and column,
/// unless memory runs out.
#[tactic(auto, using(crate::proofs::DecodeSteps::of_text))]
pub fn from_text_as<T: FromJson>(alloc: Global, text: &str, reading: &Reading) -> Result<T, Error>
    ensures value { IfOk result (λ x. MeansSome reading.now (chars text.now) (λ v. T.gives v x)) }
    ensures error { IfErr result (IsErrorOfText reading.now text.now) }
{
    let value = parse_located(alloc, text, reading)?;
    match T::from_json(alloc, &value) {
        Ok(read) => Ok(read),
        Err(error) => Err(error.in_text(alloc, text, reading)),
    }
}

/// Equal numbers are the same integer, or none of them is one: `1e2`, `100.0` and `100`. So the types
/// of integers read equal values alike, if no digit may have been cut. It does nothing: the law is
/// its contract.
pub fn law()
    ensures { EqualIntegers }
{}

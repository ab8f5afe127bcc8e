//! Reads a field, and reports an error with its line and column.

ghost use Rattle.std.specs.Prelude.{◌≡◌, ◌<◌, ◌^◌, chars, IfOk, IfErr, Some, None};
ghost use Rattle.jzon.specs.Answer.{IsErrorUnlessMemory};
ghost use Rattle.jzon.specs.Decimal.{SomeWhere};
ghost use Rattle.jzon.specs.Fault.{Parses, IsErrorOf};
ghost use Rattle.jzon.specs.Grammar.{Document};
ghost use Rattle.jzon.specs.Meaning.{meaning};
ghost use Rattle.jzon.specs.Reading.{usual};
ghost use Rattle.jzon.specs.Readers.{unsigned_in};
ghost use Rattle.jzon_examples.specs.Config.{port_value, position_in, Rejects};

use jzon::{Error, Result};
use std::alloc::Global;

/// The port that the text configures, if it is a `u16`. A text with a fault is rejected with the
/// error of its first fault.
pub fn port(alloc: Global, source: &str) -> Result<Option<u16>>
    ensures port { IfOk result (λ port. (d : Document) × Parses usual (chars source.now) d
        × SomeWhere (unsigned_in (port_value (meaning d.node))) (λ n. n < 2 ^ 16) port) }
    ensures error { IfErr result (IsErrorUnlessMemory usual (chars source.now)) }
    ensures rejected { (e : Error) → IsErrorOf usual (chars source.now) e → Rejects e result }
{
    let value = jzon::parse(alloc, source)?;
    Ok(value.at("server").at("port").as_u16())
}

/// The line and the column of an error, if it has them.
pub fn position_of(error: &Error) -> Option<(usize, usize)>
    ensures { result ≡ position_in error.now }
{
    match error {
        Error::UnexpectedCharacter { line, column, .. } => Some((*line, *column)),
        Error::DuplicateKey { line, column } => Some((*line, *column)),
        Error::InexactNumber { line, column } => Some((*line, *column)),
        _ => None,
    }
}

/// The port of a text with a comma too many, of which the checker computes the error.
pub fn port_of_faulty(alloc: Global) -> Result<Option<u16>>
    ensures { Rejects (Error.UnexpectedCharacter 125 1 22) result }
{
    port(alloc, "{\"server\":{\"port\":80,}}")
}

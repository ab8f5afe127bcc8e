//! An error with its place in the text (docs/RULES.md, "Errors").

ghost use Rattle.std.specs.IoError.{error_kind};
ghost use Rattle.std.specs.Prelude.{◌≡◌, Some};
ghost use Rattle.jzon_base.specs.ErrorText.{io_kind};
ghost use Rattle.jzon.specs.Located.{located_text};

use crate::place::Place;
use jzon_base::error::{Error, io_error};
use std::{fmt, io};

/// Why `parse_located` rejects a text, and where. `place` is `None` only for `OutOfMemory`.
#[derive(Clone, Debug, PartialEq, Eq, Drop)]
pub struct LocatedError {
    pub error: Error,
    pub place: Option<Place>,
}

/// Prints the error, and its place if its words lack it: `Unexpected end of JSON at (1:5)`.
impl fmt::Display for LocatedError {
    ghost output = { λ e. Some (located_text e) };

    fn fmt<W: fmt::Write>(&self, f: &mut fmt::Formatter<W>) -> fmt::Result {
        write!(f, "{}", self.error)?;
        match (self.place, self.error.line()) {
            (Some(place), None) => write!(f, " at ({}:{})", place.line, place.column),
            _ => Ok(()),
        }
    }
}

impl std::error::Error for LocatedError {}

/// So that `?` works in a `main` that returns an `io::Result`. The message is what `Display`
/// prints; the kind is `OutOfMemory`, `UnexpectedEof` at the text's end, or else `InvalidData`.
impl From<LocatedError> for io::Error {
    ghost from_gives = { λ l i. error_kind i ≡ io_kind l.error };

    fn from(located: LocatedError) -> io::Error {
        io_error(located.error.io_kind(), &located)
    }
}

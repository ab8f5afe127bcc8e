//! Why a call fails (docs/RULES.md, "Errors").

ghost use Rattle.std.specs.Prelude.{◌≡◌, Some, IfOk, IsOkUnless};
ghost use Rattle.jzon_base.specs.declared.error.Error.TheVariants.{OutOfMemory};
ghost use Rattle.jzon_base.specs.ErrorPlace.{line_in, column_in};
ghost use Rattle.jzon_base.specs.ErrorText.{error_text, io_kind, IsWrongType};
ghost use Rattle.std.specs.IoError.{error_kind};

use arrayvec::ArrayString;
use std::alloc::{AllocError, AllocFailed, Global};
use std::fmt::Write;
use std::io::ErrorKind;
use std::{fmt, io};

/// Why a text is rejected, or a call on a value fails. Lines (`L`) and columns (`K`) are counted
/// from 1, columns in characters.
#[derive(Clone, Debug, PartialEq, Eq, Drop)]
pub enum Error {
    /// The character `ch` isn't allowed here. Printed as `Unexpected character: C at (L:K)`, where
    /// `C` is `ch` itself, not escaped.
    UnexpectedCharacter {
        ch: char,
        line: usize,
        column: usize,
    },
    /// The text ends inside a value, or before one. Printed as `Unexpected end of JSON`.
    UnexpectedEndOfJson,
    /// In a text, more containers that aren't empty are open than its `Reading`, the settings of a
    /// parser, allows (at most 512); or of a number more than 32767 digits before the point don't fit
    /// in the mantissa, or more than 32768 after it do. Or a value that is printed nests 2^64 deep.
    /// Printed as `Exceeded depth limit`.
    ExceededDepthLimit,
    /// Two `\u` escapes of surrogates mean no character together, or the bytes that a generator's
    /// `consume` takes aren't UTF-8. Printed as `Failed to parse UTF-8 bytes`.
    FailedUtf8Parsing,
    /// `push` on a value that isn't an array, or `insert` on one that isn't an object. Printed as
    /// `Wrong type, expected: X`, where `X` is the word here, `Array` or `Object`.
    WrongType(String),
    /// An allocation failed. Printed as `Out of memory`.
    OutOfMemory,
    /// With a strict `Reading`, an object repeats a key, whose opening quote is at this line and
    /// column. Printed as `Duplicate key at (L:K)`.
    DuplicateKey {
        line: usize,
        column: usize,
    },
    /// With an exact `Reading`, a number would get another value than its digits and exponent
    /// spell, from the character at this line and column on. Printed as
    /// `Number is not exact at (L:K)`.
    InexactNumber {
        line: usize,
        column: usize,
    },
}

/// The result of a call that fails with an `Error`.
pub type Result<T> = std::result::Result<T, Error>;

/// `Result` under a name that the Rust crate deprecates.
pub type JsonResult<T> = Result<T>;

impl Error {
    /// `WrongType` with the word `expected`, such as `Array`. Its copy is allocated, which can fail
    /// with `OutOfMemory`.
    pub fn wrong_type(alloc: Global, expected: &str) -> Result<Error>
        ensures words { IfOk result (IsWrongType expected.now) }
        ensures memory { IsOkUnless result Error.OutOfMemory }
    {
        Ok(Error::WrongType(String::from_str(alloc, expected)?))
    }

    /// The line, counted from 1. `None` for an error without a position.
    pub fn line(&self) -> Option<usize>
        ensures { result ≡ line_in self.now }
    {
        match self {
            Error::UnexpectedCharacter { line, .. } => Some(*line),
            Error::DuplicateKey { line, .. } => Some(*line),
            Error::InexactNumber { line, .. } => Some(*line),
            _ => None,
        }
    }

    /// The column, counted from 1 in characters. `None` for an error without a position.
    pub fn column(&self) -> Option<usize>
        ensures { result ≡ column_in self.now }
    {
        match self {
            Error::UnexpectedCharacter { column, .. } => Some(*column),
            Error::DuplicateKey { column, .. } => Some(*column),
            Error::InexactNumber { column, .. } => Some(*column),
            _ => None,
        }
    }
}

impl Error {
    /// The kind of the `io::Error` that `From` makes of this error.
    #[doc(hidden)]
    pub fn io_kind(&self) -> ErrorKind
        ensures { result ≡ io_kind self.now }
    {
        match self {
            Error::OutOfMemory => ErrorKind::OutOfMemory,
            Error::UnexpectedEndOfJson => ErrorKind::UnexpectedEof,
            _ => ErrorKind::InvalidData,
        }
    }
}

/// Prints what is given at each variant. Format flags are ignored.
impl fmt::Display for Error {
    ghost output = { λ e. Some (error_text e) };

    fn fmt<W: fmt::Write>(&self, f: &mut fmt::Formatter<W>) -> fmt::Result {
        match self {
            Error::UnexpectedCharacter { ch, line, column } => {
                write!(f, "Unexpected character: {ch} at ({line}:{column})")
            }
            Error::UnexpectedEndOfJson => f.write_str("Unexpected end of JSON"),
            Error::ExceededDepthLimit => f.write_str("Exceeded depth limit"),
            Error::FailedUtf8Parsing => f.write_str("Failed to parse UTF-8 bytes"),
            Error::WrongType(expected) => write!(f, "Wrong type, expected: {expected}"),
            Error::OutOfMemory => f.write_str("Out of memory"),
            Error::DuplicateKey { line, column } => {
                write!(f, "Duplicate key at ({line}:{column})")
            }
            Error::InexactNumber { line, column } => {
                write!(f, "Number is not exact at ({line}:{column})")
            }
        }
    }
}

impl std::error::Error for Error {}

/// So that `?` works on allocations of std.
impl From<AllocError> for Error {
    ghost from_gives = { λ _ e. e ≡ OutOfMemory };

    fn from(_refused: AllocError) -> Error {
        Error::OutOfMemory
    }
}

/// So that `?` works where the error has the value that couldn't be stored; it is dropped.
impl<T: Drop> From<AllocFailed<T>> for Error {
    ghost from_gives = { λ _ e. e ≡ OutOfMemory };

    fn from(_refused: AllocFailed<T>) -> Error {
        Error::OutOfMemory
    }
}

/// For `?` in a `main` that returns an `io::Result`. The kind is `OutOfMemory`, `UnexpectedEof` if
/// the text ends too early, or else `InvalidData`. The message is what `Display` prints; of more
/// than 80 bytes, all that an `io::Error` keeps, the end is replaced by dots.
impl From<Error> for io::Error {
    ghost from_gives = { λ e i. error_kind i ≡ io_kind e };

    fn from(error: Error) -> io::Error {
        io_error(error.io_kind(), &error)
    }
}

/// An `io::Error` of this kind, whose message is what `Display` prints. If `write!` fails, `head` has
/// more than 80 bytes, and `io::Error::new` replaces the end by dots anyway.
#[doc(hidden)]
pub fn io_error<T: fmt::Display>(kind: ErrorKind, error: &T) -> io::Error
    ensures { error_kind result ≡ kind }
{
    let mut head = Head {
        words: ArrayString::new(),
    };
    match write!(head, "{error}") {
        Ok(()) | Err(_) => {}
    }
    io::Error::new(kind, head.words.as_str())
}

/// The first characters of a message, at most 84 bytes. If a character, of at most 4, doesn't fit,
/// there are more than 80.
#[derive(Drop)]
struct Head {
    words: ArrayString<84>,
}

impl fmt::Write for Head {
    fn write_str(&mut self, part: &str) -> fmt::Result {
        for c in part.chars() {
            if self.words.try_push(c).is_err() {
                return Err(fmt::Error);
            }
        }
        Ok(())
    }
}

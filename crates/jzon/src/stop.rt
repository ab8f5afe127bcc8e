//! Why the parser stops before the end of a text, and the error that is returned for it
//! (docs/RULES.md, "Which error is reported"). Offsets are in bytes.

ghost use Rattle.std.specs.Prelude.{◌≡◌, ◌≢◌, SomeIff, drop, chars};
ghost use Rattle.std.specs.Str.{IsCharBoundary};
ghost use Rattle.jzon.specs.Private.Machine.{Reports, fault_here};
ghost use Rattle.jzon.specs.Private.Stops.{IsAtBoundary, reported_error, stop_offset, stop_place};
ghost use Rattle.jzon.specs.declared.stop.Stop.TheVariants.{Memory};

use crate::located::LocatedError;
use crate::place::Place;
use jzon_base::error::Error;
use std::alloc::AllocError;

/// An `Error` is made of it only at the end, because a result that may hold one has 40 bytes or
/// more, which each call would clear.
#[derive(Clone, Copy)]
pub(crate) enum Stop {
    /// An allocation failed.
    Memory,
    /// A container too many is open, in which the first character but whitespace is at this offset;
    /// or the digit there is one too many.
    Limit(usize),
    /// Two `\u` escapes aren't a high and a low surrogate; the last digit of the second is at this
    /// offset.
    Surrogates(usize),
    /// The text has no valid continuation at this offset: a wrong character is there, or the end.
    At(usize),
    /// The key whose opening quote is at this offset repeats one of its object.
    Duplicate(usize),
    /// An exact reading would lose the digit at this offset, or clamp the exponent there.
    Inexact(usize),
}

pub(crate) type Result<T> = std::result::Result<T, Stop>;

impl From<AllocError> for Stop {
    ghost use Rattle.jzon.specs.declared.stop.Stop.TheVariants.{Memory};

    ghost from_gives = { λ _ e. e ≡ Memory };

    fn from(_refused: AllocError) -> Stop {
        Stop::Memory
    }
}

impl Stop {
    /// The error that is returned for this stop in `source`.
    #[cold]
    #[inline(never)]
    pub(crate) fn error(self, source: &str) -> Error
        requires { IsAtBoundary source.now self }
        ensures { result ≡ reported_error source.now self }
    {
        self.located(source).error
    }

    /// The error, and its place, which is counted only here; a failed allocation has none.
    #[inline(always)]
    pub(crate) fn located(self, source: &str) -> LocatedError
        requires { IsAtBoundary source.now self }
        ensures error { result.error ≡ reported_error source.now self }
        ensures place { result.place ≡ stop_place source.now self }
    {
        let Some(offset) = self.offset() else {
            return LocatedError {
                error: Error::OutOfMemory,
                place: None,
            };
        };
        let place = Place::at_boundary(source, offset);
        let Place { line, column, .. } = place;
        let error = match self {
            Stop::Memory => Error::OutOfMemory,
            Stop::Limit(_) => Error::ExceededDepthLimit,
            Stop::Surrogates(_) => Error::FailedUtf8Parsing,
            Stop::At(_) => match source[offset..].chars().next() {
                None => Error::UnexpectedEndOfJson,
                Some(ch) => Error::UnexpectedCharacter { ch, line, column },
            },
            Stop::Duplicate(_) => Error::DuplicateKey { line, column },
            Stop::Inexact(_) => Error::InexactNumber { line, column },
        };
        LocatedError {
            error,
            place: Some(place),
        }
    }

    /// `None` if an allocation failed.
    #[inline(always)]
    fn offset(self) -> Option<usize>
        ensures { SomeIff result (self ≢ Memory) (stop_offset self) }
    {
        match self {
            Stop::Memory => None,
            Stop::Limit(i)
            | Stop::Surrogates(i)
            | Stop::At(i)
            | Stop::Duplicate(i)
            | Stop::Inexact(i) => Some(i),
        }
    }
}

/// The stop for a text that has no valid continuation at `index`. Only the clause needs `source`.
#[inline(always)]
pub(crate) fn fault_at(source: &str, index: usize) -> Stop
    requires { IsCharBoundary source.now index }
    ensures { Reports source.now result (fault_here (chars (drop index source.now))) }
{
    Stop::At(index)
}

/// The stop for a container too many, in which the first character but whitespace is at `index`.
#[cold]
#[inline(never)]
pub(crate) fn too_deep(index: usize) -> Stop
    ensures { result ≡ Stop.Limit index }
{
    Stop::Limit(index)
}

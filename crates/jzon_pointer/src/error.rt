//! Errors of all that stands beside `jzon`, in one form: what went wrong, and where. `error_text`
//! of specs/Errors.antt is what an error prints.
//!
//! An error of a value, a pointer or a patch has a report. One of a text, of memory or of a NaN has
//! none, and calls that would change it leave it as it is (`Becomes`).

ghost use Rattle.std.specs.Prelude.{◌≡◌, ◌∷◌, ◌++◌, [], None, Some, option_map, string_bytes};
ghost use Rattle.std.specs.Fmt.{decimal};
ghost use Rattle.std.specs.IoError.{error_kind};
ghost use Rattle.std.specs.Option.{option_copied};
ghost use Rattle.jzon_pointer.specs.Escaped.{escaped};
ghost use Rattle.jzon_pointer.specs.Errors.{error_text, hidden_what, is_memory, is_not_a_number, kind_of, located_error, member_of, memory, operation_of, place_of, pointer_of, position_of, text_of, what_of, Becomes, BecomesOrMemory, SaysOrMemory, ShortLaw};

mod found;
mod located;
mod parts;
mod path;
mod words;

use crate::PointerError;
use crate::shown::show_place;
pub use found::{LONGEST, found_in, found_text, may_be_cut};
use jzon::{LocatedError, Place, io_error};
pub use parts::{Cause, Expected, Found, Known, Member};
use std::alloc::{AllocError, AllocFailed, Global};
use std::io::ErrorKind;
use std::{fmt, io};
pub use words::Words;
use words::{show_member, show_operation, show_position};

/// Why a call fails, and where: `/servers/1/port: expected an integer from 0 to 65535, found "80" at
/// (4:14)`, or ``operation 3: `from`: /a/b: /a has no key "b"``.
///
/// Its message is one line of at most 1,000 bytes: characters that aren't seen, end a line or turn its
/// direction are escaped as in JSON, and long texts are cut, with `..`. It owns what it names, so `?`
/// keeps everything. An error for which there is no memory becomes `Error::MEMORY`.
#[derive(Clone, PartialEq, Eq, Drop)]
pub struct Error {
    inner: Inner,
}

/// A text's error is as `jzon` returns it, so that `?` needs no allocator. What others say is in a box,
/// so that a success moves little.
#[derive(Clone, PartialEq, Eq, Drop)]
enum Inner {
    Memory,
    NotANumber,
    Text(LocatedError),
    Boxed(Box<Report>),
}

/// What an error says of a value, a pointer or a patch. `operation` counts from 0, and `member` is
/// the part of it that has the pointer.
#[derive(Clone, PartialEq, Eq, Drop)]
struct Report {
    what: What,
    pointer: String,
    operation: Option<usize>,
    member: Option<Member>,
    place: Option<Place>,
}

/// What went wrong with a value, a pointer or a patch.
#[derive(Clone, PartialEq, Eq, Drop)]
pub enum What {
    /// The pointer names nothing in the value, or no place for a new one.
    Pointer(PointerError),
    /// The value isn't what is expected: `expected a string, found 7`.
    Wrong { expected: Expected, found: Found },
    /// Digits of the number may have been cut when its text was read, so that its value isn't known.
    Cut { expected: Expected, found: Found },
    /// The pointer's last key is missing in its object: `missing, expected a string`.
    Missing(Expected),
    /// The pointer's last key isn't a known one: `unknown key, expected host, port`.
    Unknown(Known),
    /// The operation of a patch can't be done.
    Operation(Cause),
    /// What a program says in its own words.
    Said(&'static str),
    /// What a program says in words that it made.
    Custom(String),
}

impl Error {
    /// The error of a failed allocation.
    pub const MEMORY: Error = Error {
        inner: Inner::Memory,
    };

    /// The error of a NaN, which no text means.
    pub const NOT_A_NUMBER: Error = Error {
        inner: Inner::NotANumber,
    };

    /// The error of what went wrong with the whole value, whose pointer is empty.
    #[cold]
    pub fn new(alloc: Global, what: What) -> Error
        ensures { SaysOrMemory result (Some what) [] None None None }
    {
        Error::boxed(alloc, what, String::new(alloc))
    }

    /// The error of what went wrong at a pointer.
    #[cold]
    pub fn at_pointer(alloc: Global, pointer: &str, what: What) -> Error
        ensures { SaysOrMemory result (Some what) pointer.now None None None }
    {
        match String::from_str(alloc, pointer) {
            Ok(pointer) => Error::boxed(alloc, what, pointer),
            Err(_refused) => Error::MEMORY,
        }
    }

    /// The report of what went wrong at a pointer.
    fn boxed(alloc: Global, what: What, pointer: String) -> Error
        ensures { SaysOrMemory result (Some what) (string_bytes pointer) None None None }
    {
        let report = Report {
            what,
            pointer,
            operation: None,
            member: None,
            place: None,
        };
        match Box::new(alloc, report) {
            Ok(report) => Error {
                inner: Inner::Boxed(report),
            },
            Err(_refused) => Error::MEMORY,
        }
    }

    /// The error of an object whose entry with this key has this error: `/` and the key, with `~0`
    /// for `~` and `~1` for `/`, come before the pointer.
    #[cold]
    pub fn below_key(self, alloc: Global, key: &str) -> Error
        ensures { BecomesOrMemory self result (what_of self) (47 ∷ escaped key.now ++ pointer_of self)
            (operation_of self) (member_of self) (place_of self) }
    {
        match path::below_key(alloc, key, self.pointer()) {
            Ok(pointer) => self.moved(pointer),
            Err(_refused) => Error::MEMORY,
        }
    }

    /// The error of an array whose element at this index has this error: `/` and the index come
    /// before the pointer.
    #[cold]
    pub fn below_index(self, alloc: Global, index: usize) -> Error
        ensures { BecomesOrMemory self result (what_of self) (47 ∷ decimal index ++ pointer_of self)
            (operation_of self) (member_of self) (place_of self) }
    {
        match path::below_index(alloc, index, self.pointer()) {
            Ok(pointer) => self.moved(pointer),
            Err(_refused) => Error::MEMORY,
        }
    }

    /// The error in operation `number` of a patch, from 0, and of its member if the pointer is that
    /// member's.
    pub fn in_operation(mut self, number: usize, member: Option<Member>) -> Error
        ensures { Becomes self result (what_of self) (pointer_of self) (Some number) member
            (place_of self) }
    {
        if let Inner::Boxed(report) = &mut self.inner {
            report.operation = Some(number);
            report.member = member;
        }
        self
    }

    /// The error at a place of the text that was read, or without one.
    pub fn at_place(mut self, place: Option<Place>) -> Error
        ensures { Becomes self result (what_of self) (pointer_of self) (operation_of self)
            (member_of self) place }
    {
        if let Inner::Boxed(report) = &mut self.inner {
            report.place = place;
        }
        self
    }

    /// The error without what is there, of which only the type is left, so that a password or a
    /// token doesn't get into a log: `/token: expected an integer, found a string`. An array or an
    /// object is named by its size in any case. Keys, and what a program says, are kept.
    ///
    /// ```rust
    /// fields
    ///     .expected("password", "at least 12 characters")
    ///     .without_value(),
    /// ```
    pub fn without_value(mut self) -> Error
        ensures { Becomes self result (option_map hidden_what (what_of self)) (pointer_of self)
            (operation_of self) (member_of self) (place_of self) }
    {
        if let Inner::Boxed(report) = &mut self.inner {
            match &mut report.what {
                What::Wrong { found, .. } => *found = found.hidden(),
                What::Cut { found, .. } => *found = found.hidden(),
                _ => {}
            }
        }
        self
    }

    /// Whether an allocation failed.
    pub fn is_memory(&self) -> bool
        ensures { result ≡ is_memory self.now }
    {
        matches!(&self.inner, Inner::Memory)
    }

    /// Whether it says that a number is a NaN.
    pub fn is_not_a_number(&self) -> bool
        ensures { result ≡ is_not_a_number self.now }
    {
        matches!(&self.inner, Inner::NotANumber)
    }

    /// What went wrong with a value, a pointer or a patch. `None` without a report.
    ///
    /// ```rust
    /// Err(error) if matches!(error.what(), Some(What::Pointer(_))) => Ok(None),
    /// ```
    pub fn what(&self) -> Option<&What>
        ensures { option_copied result ≡ what_of self.now }
    {
        match &self.inner {
            Inner::Boxed(report) => Some(&report.what),
            _ => None,
        }
    }

    /// The pointer from the value that was read or changed: empty for the whole value, and of an error
    /// without a report.
    pub fn pointer(&self) -> &str
        ensures { result.now ≡ pointer_of self.now }
    {
        match &self.inner {
            Inner::Boxed(report) => report.pointer.as_str(),
            _ => "",
        }
    }

    /// The number of the patch's operation, from 0. `None` for any other error.
    pub fn operation(&self) -> Option<usize>
        ensures { result ≡ operation_of self.now }
    {
        match &self.inner {
            Inner::Boxed(report) => report.operation,
            _ => None,
        }
    }

    /// The member of the patch's operation that has this pointer, if the pointer leads nowhere.
    /// `None` for any other error.
    pub fn member(&self) -> Option<Member>
        ensures { result ≡ member_of self.now }
    {
        match &self.inner {
            Inner::Boxed(report) => report.member,
            _ => None,
        }
    }

    /// Where it is in the text that was read, if that is known.
    pub fn place(&self) -> Option<Place>
        ensures { result ≡ place_of self.now }
    {
        match &self.inner {
            Inner::Boxed(report) => report.place,
            Inner::Text(located) => located.place,
            _ => None,
        }
    }

    /// The text's own error, if it isn't JSON, or its reading rejects it.
    pub fn text(&self) -> Option<&jzon::Error>
        ensures { option_copied result ≡ text_of self.now }
    {
        match &self.inner {
            Inner::Text(located) => Some(&located.error),
            _ => None,
        }
    }

    /// The words alone, without operation, pointer and place, for a program that prints file and line
    /// in its own way.
    ///
    /// ```rust
    /// let path = ShownPointer(error.pointer());
    /// let text = format!(in alloc; "{file}:{line}: {path}: {}", error.words())?;
    /// ```
    pub fn words(&self) -> Words<'_>
        ensures { result.error.now ≡ self.now }
    {
        Words { error: self }
    }

    /// The line and the column, from 1: of the place, or else of the text's own error, if that has
    /// them.
    fn position(&self) -> Option<(usize, usize)>
        ensures { result ≡ position_of (text_of self.now) (place_of self.now) }
    {
        if let Some(place) = self.place() {
            return Some((place.line, place.column));
        }
        let error = self.text()?;
        Some((error.line()?, error.column()?))
    }

    /// With another pointer.
    fn moved(mut self, to: String) -> Error
        ensures { Becomes self result (what_of self) (string_bytes to) (operation_of self)
            (member_of self) (place_of self) }
    {
        if let Inner::Boxed(report) = &mut self.inner {
            report.pointer = to;
        }
        self
    }

    /// The kind of the `io::Error` that it becomes.
    fn io_kind(&self) -> ErrorKind
        ensures { result ≡ kind_of self.now }
    {
        match &self.inner {
            Inner::Memory => ErrorKind::OutOfMemory,
            Inner::Text(located) => located.error.io_kind(),
            Inner::NotANumber | Inner::Boxed(_) => ErrorKind::InvalidData,
        }
    }
}

/// No message of an error is longer than 1,000 bytes. It does nothing: the law is its contract.
pub fn short()
    ensures { ShortLaw }
{}

/// One line: the operation, its member, the pointer, the words, and the place. Flags are ignored.
impl fmt::Display for Error {
    ghost output = { λ e. Some (error_text e) };

    fn fmt<W: fmt::Write>(&self, f: &mut fmt::Formatter<W>) -> fmt::Result {
        show_operation(f, self.operation())?;
        show_member(f, self.member())?;
        show_place(f, self.pointer())?;
        write!(f, "{}", self.words())?;
        show_position(f, self.position())
    }
}

/// As `Display`: as short and as safe.
impl fmt::Debug for Error {
    fn fmt<W: fmt::Write>(&self, f: &mut fmt::Formatter<W>) -> fmt::Result {
        write!(f, "{self}")
    }
}

impl std::error::Error for Error {}

/// So that `?` works on what parses a text with its place. `OutOfMemory` becomes `MEMORY`.
impl From<LocatedError> for Error {
    ghost from_gives = { λ l e. e ≡ located_error l };

    fn from(located: LocatedError) -> Error {
        match located.error {
            jzon::Error::OutOfMemory => Error::MEMORY,
            error => Error {
                inner: Inner::Text(LocatedError {
                    error,
                    place: located.place,
                }),
            },
        }
    }
}

/// So that `?` works on a call of `jzon`: an error without a place.
impl From<jzon::Error> for Error {
    ghost from_gives = { λ e f. f ≡ located_error (record { error = e; place = None }) };

    fn from(error: jzon::Error) -> Error {
        Error::from(LocatedError { error, place: None })
    }
}

impl From<AllocError> for Error {
    ghost from_gives = { λ _ e. e ≡ memory };

    fn from(_refused: AllocError) -> Error {
        Error::MEMORY
    }
}

/// What was to be stored is dropped.
impl<T: Drop> From<AllocFailed<T>> for Error {
    ghost from_gives = { λ _ e. e ≡ memory };

    fn from(_refused: AllocFailed<T>) -> Error {
        Error::MEMORY
    }
}

/// So that `?` works in a `main` that returns an `io::Result`. The kind is that of the text's error,
/// `OutOfMemory`, or `InvalidData`. Of a long message the end is left out.
impl From<Error> for io::Error {
    ghost from_gives = { λ e i. error_kind i ≡ kind_of e };

    fn from(error: Error) -> io::Error {
        io_error(error.io_kind(), &error)
    }
}

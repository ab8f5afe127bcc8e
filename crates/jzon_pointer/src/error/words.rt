//! What an error prints, part by part. Each part is of a bounded length.

ghost use Rattle.std.specs.Prelude.{Some};
ghost use Rattle.std.specs.Fmt.{WritesOnOk};
ghost use Rattle.jzon_pointer.specs.Errors.{count_text, at_text, in_member_text, in_operation_text, lost_text, pointer_words, text_words, what_words, words_text};

use super::{Error, Inner, Member, What};
use crate::pointer::{parent, token};
use crate::shown::{ShownPointer, ShownToken, ShownWords, show_char, show_names};
use crate::{PointerError, Reason};
use std::fmt;

/// A number in a message, in decimal. For the proof that messages are short: in clauses a number
/// inside an `Error` has no bound, so `count_text` is empty for one that doesn't fit a `usize`. (Each
/// fits.)
#[derive(Clone, Copy)]
pub struct Count(pub usize);

impl fmt::Display for Count {
    ghost output = { λ n. Some (count_text n.0) };

    fn fmt<W: fmt::Write>(&self, f: &mut fmt::Formatter<W>) -> fmt::Result {
        let count = self.0;
        write!(f, "{count}")
    }
}

/// `operation 3: `, counted from 0, or nothing.
pub fn show_operation<W: fmt::Write>(
    f: &mut fmt::Formatter<W>,
    number: Option<usize>,
) -> fmt::Result
    ensures { WritesOnOk W.write_str_gives f.old result (in_operation_text number) f.new }
{
    match number {
        Some(number) => write!(f, "operation {}: ", Count(number)),
        None => Ok(()),
    }
}

/// The member that has the error's pointer, and `: `, or nothing.
pub fn show_member<W: fmt::Write>(f: &mut fmt::Formatter<W>, member: Option<Member>) -> fmt::Result
    ensures { WritesOnOk W.write_str_gives f.old result (in_member_text member) f.new }
{
    match member {
        Some(member) => write!(f, "{member}: "),
        None => Ok(()),
    }
}

/// ` at (4:14)`, the line and the column, or nothing.
pub fn show_position<W: fmt::Write>(
    f: &mut fmt::Formatter<W>,
    position: Option<(usize, usize)>,
) -> fmt::Result
    ensures { WritesOnOk W.write_str_gives f.old result (at_text position) f.new }
{
    match position {
        Some((line, column)) => write!(f, " at ({}:{})", Count(line), Count(column)),
        None => Ok(()),
    }
}

/// An error without operation, pointer and place: one line of at most 720 bytes.
#[derive(Clone, Copy)]
pub struct Words<'a> {
    pub(super) error: &'a Error,
}

impl fmt::Display for Words<'_> {
    ghost output = { λ w. Some (words_text w.error.now) };

    fn fmt<W: fmt::Write>(&self, f: &mut fmt::Formatter<W>) -> fmt::Result {
        match &self.error.inner {
            Inner::Memory => f.write_str("Out of memory"),
            Inner::NotANumber => f.write_str("not a number"),
            Inner::Text(located) => show_text_words(f, &located.error),
            Inner::Boxed(report) => show_what(f, &report.what, report.pointer.as_str()),
        }
    }
}

/// Why a text is rejected, with an escaped character, and without the place, which `show_position`
/// prints.
fn show_text_words<W: fmt::Write>(f: &mut fmt::Formatter<W>, error: &jzon::Error) -> fmt::Result
    ensures { WritesOnOk W.write_str_gives f.old result (text_words error.now) f.new }
{
    match error {
        jzon::Error::UnexpectedCharacter { ch, .. } => {
            f.write_str("Unexpected character: ")?;
            show_char(f, *ch)
        }
        jzon::Error::UnexpectedEndOfJson => f.write_str("Unexpected end of JSON"),
        jzon::Error::ExceededDepthLimit => f.write_str("Exceeded depth limit"),
        jzon::Error::FailedUtf8Parsing => f.write_str("Failed to parse UTF-8 bytes"),
        jzon::Error::WrongType(kind) => {
            write!(f, "Wrong type, expected: {}", ShownWords(kind.as_str()))
        }
        jzon::Error::OutOfMemory => f.write_str("Out of memory"),
        jzon::Error::DuplicateKey { .. } => f.write_str("Duplicate key"),
        jzon::Error::InexactNumber { .. } => f.write_str("Number is not exact"),
    }
}

/// What went wrong. The words of `What::Pointer` quote parts of the pointer.
fn show_what<W: fmt::Write>(f: &mut fmt::Formatter<W>, what: &What, pointer: &str) -> fmt::Result
    ensures { WritesOnOk W.write_str_gives f.old result (what_words what.now pointer.now) f.new }
{
    match what {
        What::Pointer(error) => show_pointer_words(f, error, pointer),
        What::Wrong { expected, found } => write!(f, "expected {expected}, found {found}"),
        What::Cut { expected, found } => {
            write!(
                f,
                "expected {expected}, found {found}, of which digits may be cut"
            )
        }
        What::Missing(expected) => write!(f, "missing, expected {expected}"),
        What::Unknown(known) => {
            f.write_str("unknown key, expected ")?;
            show_names(f, known)
        }
        What::Operation(cause) => write!(f, "{cause}"),
        What::Said(words) => write!(f, "{}", ShownWords(*words)),
        What::Custom(words) => write!(f, "{}", ShownWords(words.as_str())),
    }
}

/// Why a pointer names nothing, or no place for a new value.
fn show_pointer_words<W: fmt::Write>(
    f: &mut fmt::Formatter<W>,
    error: &PointerError,
    pointer: &str,
) -> fmt::Result
    ensures { WritesOnOk W.write_str_gives f.old result (pointer_words error.now pointer.now) f.new }
{
    match error {
        PointerError::NoSlash => f.write_str("a pointer begins with /"),
        PointerError::Missing { start, end, reason } => {
            show_reason(
                f,
                reason,
                parent(pointer, *start),
                token(pointer, *start, *end),
            )
        }
        PointerError::WholeValue => f.write_str("the pointer names the whole value"),
    }
}

/// Why the token names nothing in the value at the pointer `parent`, or in `the whole value`.
fn show_reason<W: fmt::Write>(
    f: &mut fmt::Formatter<W>,
    reason: &Reason,
    parent: &str,
    token: &str,
) -> fmt::Result
    ensures { WritesOnOk W.write_str_gives f.old result
        (lost_text reason.now parent.now token.now) f.new }
{
    let parent = ShownPointer(parent);
    let token = ShownToken(token);
    match reason {
        Reason::BadEscape => f.write_str("~ without 0 or 1 after it"),
        Reason::NoMember => write!(f, "{parent} has no key \"{token}\""),
        Reason::NotAnIndex => write!(f, "{parent} is an array, and \"{token}\" is no index"),
        Reason::OutOfRange { length: 1 } => write!(f, "{parent} has 1 element"),
        Reason::OutOfRange { length } => write!(f, "{parent} has {} elements", Count(*length)),
        Reason::NoChildren(found) => write!(f, "{parent} is {found} and has no members"),
    }
}

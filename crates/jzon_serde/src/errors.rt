//! What is wrong where a reader stands: in `frame`, of which `begun` members were begun, before `due`.

use crate::fault::{Fault, Part};
use crate::tree::{Container, Due, Frame, TreeFormat};
use jzon::JsonValue;
use jzon_pointer::error::{Expected, What, found_in, found_text};
use serde::{Format, Name, NameKind};
use std::alloc::{AllocError, Global};

impl<'v> TreeFormat<'v> {
    /// The frame around one: `None` of the whole.
    fn around(&self, frame: &Frame<'v>) -> Option<&Frame<'v>> {
        self.frames.get(frame.level.checked_sub(1)?)
    }

    /// The value that was begun last, or the container if none was.
    pub(crate) fn last(&self) -> Option<&'v JsonValue> {
        begun_last(&self.frame).or_else(|| begun_last(self.around(&self.frame)?))
    }

    /// The key that an error is of: the one that is due, or that was just read as a map's key, until a
    /// step looks at its value. (`next_key` keeps none: of a field the value is wrong.)
    pub(crate) fn key_at_hand(&self) -> Option<&'v str> {
        match self.due {
            Due::Key(key, _) => Some(key),
            Due::Value(_) => self.key,
            Due::Nothing => None,
        }
    }

    /// The fault of a part of the member that was begun last, with the indexes that lead there.
    #[cold]
    pub(crate) fn fault(&self, part: Part, what: Result<What, AllocError>) -> Fault {
        let mut indexes = Vec::new(self.alloc);
        let mut frame = self.frame;
        if let Part::Container = part {
            frame.begun = 0;
        }
        for _ in 0..self.frames.len() {
            let Some(outer) = self.around(&frame) else {
                break;
            };
            // If no member was begun, the container is wrong.
            let at = frame.begun.checked_sub(1);
            if at.is_some_and(|at| indexes.push(at).is_err()) {
                return Fault::MEMORY;
            }
            frame = *outer;
        }
        indexes.reverse();
        Fault::new(self.alloc, what, indexes, part)
    }

    /// The error of the key at hand, else of the value begun last, which isn't what is expected.
    #[cold]
    pub(crate) fn expected(&self, expected: Expected) -> Fault {
        let (part, found) = match (self.key_at_hand(), self.last()) {
            (Some(key), _) => (Part::Key, found_text(self.alloc, key)),
            (None, Some(value)) => (Part::Value, found_in(self.alloc, value)),
            (None, None) => return self.misused(),
        };
        self.fault(part, found.map(|found| What::Wrong { expected, found }))
    }

    /// The same in words.
    #[cold]
    pub(crate) fn unfit(&self, words: &'static str) -> Fault {
        self.expected(Expected::Other(words))
    }

    /// A hand-written reader takes steps that don't fit.
    #[cold]
    pub(crate) fn misused(&self) -> Fault {
        self.custom("the type's reader asks for what isn't there")
    }

    /// The key of a field of the object that was just left, if the cases of its names spell it one way.
    pub(crate) fn key_of(&self, name: &str) -> Result<Option<String>, AllocError> {
        let mut cases = self.frame.cases.iter().flatten();
        let Some(case) = cases.next() else {
            return Ok(None);
        };
        let mut key = String::new(self.alloc);
        case.append(NameKind::Field, name, &mut key)?;
        let is_known = cases.all(|case| case.matches(NameKind::Field, name, key.as_str()));
        Ok(is_known.then_some(key))
    }

    /// Keeps for `unknown_variant` the error that a string (nothing is due then) or a key names no
    /// variant: a type may have one for that.
    #[cold]
    pub(crate) fn note_variants(&mut self, names: &[Name<'_>]) {
        let part = match self.due {
            Due::Nothing => Part::Value,
            _ => Part::Key,
        };
        let words = one_of(self.alloc, names);
        self.unknown = Some(self.fault(part, words.map(What::Custom)));
    }
}

/// About how many bytes of names an error shows.
const NAMES_ROOM: usize = 200;

/// `expected one of a, b`, as JSON spells the names.
fn one_of(alloc: Global, names: &[Name<'_>]) -> Result<String, AllocError> {
    let mut words = String::new(alloc);
    let mut before = "expected one of ";
    for name in names {
        if name.skipped || words.len() > NAMES_ROOM {
            continue;
        }
        words.push_str(before)?;
        name.case.append(name.kind, name.name, &mut words)?;
        before = ", ";
    }
    Ok(words)
}

/// The member that was begun last.
fn begun_last<'v>(frame: &Frame<'v>) -> Option<&'v JsonValue> {
    let at = frame.begun.checked_sub(1)?;
    match frame.container {
        Container::Whole(value) => Some(value),
        Container::Seq(items) => items.get(at),
        Container::Map(object) => Some(object.get_index(at)?.1),
    }
}

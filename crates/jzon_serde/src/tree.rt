//! A place in a value that is read, and the steps to the next: members (elements, entries) begin in
//! order. A frame in `frames` never changes, so a mark copies just the current one.

use crate::fault::Fault;
use jzon::JsonValue;
use jzon::object::Object;
use jzon_pointer::error::Expected;
use serde::{Case, Name};
use std::alloc::Global;

/// What is read, member by member.
#[derive(Clone, Copy, Drop)]
pub(crate) enum Container<'v> {
    /// The value that was passed.
    Whole(&'v JsonValue),
    Seq(&'v Vec<JsonValue>),
    Map(&'v Object),
}

/// What the next step reads.
#[derive(Clone, Copy, Drop)]
pub(crate) enum Due<'v> {
    Value(&'v JsonValue),
    /// An entry's key, which is read before its value.
    Key(&'v str, &'v JsonValue),
    Nothing,
}

/// A container, and how many of its members were begun.
#[derive(Clone, Copy, Drop)]
pub(crate) struct Frame<'v> {
    pub(crate) container: Container<'v>,
    pub(crate) begun: usize,
    /// The frame around it is `frames[level - 1]`; 0 for `Whole`.
    pub(crate) level: usize,
    /// Of the last of these members, if it is an object that was read.
    pub(crate) cases: Cases,
}

/// How the names of the structs that an object was read as spell its keys (several with `flatten`):
/// each case at its own index. By these a missing key is named.
pub(crate) type Cases = [Option<Case>; 9];

/// Those of what is no struct's object.
const NO_CASES: Cases = [None; 9];

/// What `rewind` and `release` restore.
#[derive(Clone, Copy, Drop)]
pub(crate) struct Mark<'v> {
    pub(crate) frame: Frame<'v>,
    pub(crate) due: Due<'v>,
    /// How many frames there were, and how many were kept before.
    pub(crate) frames: usize,
    pub(crate) kept: usize,
}

/// What a type asked last of what is due, before it read it: for `invalid`.
#[derive(Clone, Copy, Drop, PartialEq, Eq)]
pub(crate) enum Asked {
    Nothing,
    /// Of which kind it is.
    Kind,
    /// Whether it is null, which it isn't.
    Unit,
    /// To be read as an integer, which the key is.
    Integer,
    /// To be a variant of an untagged enum, which it isn't.
    Forms,
}

#[derive(Drop)]
pub(crate) struct TreeFormat<'v> {
    pub(crate) alloc: Global,
    /// The containers around `frame`, and those to which a mark may go back.
    pub(crate) frames: Vec<Frame<'v>>,
    /// How many of `frames` a mark needs, which `leave` keeps.
    pub(crate) kept: usize,
    pub(crate) frame: Frame<'v>,
    pub(crate) due: Due<'v>,
    /// The key that was just read; `None` once a step looked at its value: an error is the value's.
    pub(crate) key: Option<&'v str>,
    /// The error of the last name that is no variant's.
    pub(crate) unknown: Option<Fault>,
    pub(crate) asked: Asked,
}

impl<'v> TreeFormat<'v> {
    /// At the value, begun as the one member of `Whole`.
    pub(crate) fn new(alloc: Global, value: &'v JsonValue) -> TreeFormat<'v> {
        TreeFormat {
            alloc,
            frames: Vec::new(alloc),
            kept: 0,
            frame: Frame {
                container: Container::Whole(value),
                begun: 1,
                level: 0,
                cases: NO_CASES,
            },
            due: Due::Value(value),
            key: None,
            unknown: None,
            asked: Asked::Nothing,
        }
    }

    /// Fails unless the whole value was read.
    pub(crate) fn end(&self) -> Result<(), Fault> {
        match (self.due, self.frame.container) {
            (Due::Nothing, Container::Whole(_)) => Ok(()),
            _ => Err(self.misused()),
        }
    }

    /// The value that is due. A due key is an error: the type is no string, number or boolean.
    #[inline(always)]
    pub(crate) fn look(&mut self) -> Result<&'v JsonValue, Fault> {
        match self.due {
            Due::Value(value) => {
                self.key = None;
                Ok(value)
            }
            Due::Key(_, _) => Err(self.unfit("a key of its type")),
            Due::Nothing => Err(self.misused()),
        }
    }

    /// Goes before a container's first member.
    #[inline(always)]
    pub(crate) fn enter(&mut self, container: Container<'v>) -> Result<(), Fault> {
        self.frames.push(self.frame)?;
        self.frame = Frame {
            container,
            begun: 0,
            level: self.frames.len(),
            cases: NO_CASES,
        };
        self.due = Due::Nothing;
        Ok(())
    }

    /// Goes back to the container around this one, by its `level`: frames that a mark keeps may be
    /// after it.
    #[inline(always)]
    pub(crate) fn leave(&mut self) {
        let below = self.frame.level.saturating_sub(1);
        if let Some(frame) = self.frames.get(below) {
            self.frame = *frame;
        }
        self.due = Due::Nothing;
        if self.frames.len() > self.kept {
            self.frames.truncate(below.max(self.kept));
        }
    }

    /// The next entry of an object; `None` after the last, and it is left.
    #[inline(always)]
    pub(crate) fn entry(&mut self) -> Result<Option<(&'v str, &'v JsonValue)>, Fault> {
        let (Container::Map(object), Due::Nothing) = (self.frame.container, self.due) else {
            return Err(self.misused());
        };
        let Some(entry) = object.get_index(self.frame.begun) else {
            self.leave();
            return Ok(None);
        };
        self.begin_member();
        Ok(Some(entry))
    }

    /// Nothing is known of the next member.
    #[inline(always)]
    pub(crate) fn begin_member(&mut self) {
        self.frame.begun = self.frame.begun.saturating_add(1);
        self.frame.cases = NO_CASES;
        self.asked = Asked::Nothing;
    }

    /// Reads the string or key that is due.
    #[inline(always)]
    pub(crate) fn text(&mut self) -> Result<&'v str, Fault> {
        if let Some(key) = self.key() {
            return Ok(key);
        }
        let text = self.look()?.as_str();
        self.taken(text, Expected::String)
    }

    /// Passes over the value due, in which `found` was found; `None` is an error.
    #[inline(always)]
    pub(crate) fn taken<T>(&mut self, found: Option<T>, expected: Expected) -> Result<T, Fault> {
        let Some(found) = found else {
            return Err(self.expected(expected));
        };
        self.due = Due::Nothing;
        Ok(found)
    }

    /// Reads the key that is due, if one is: its value is due then.
    #[inline(always)]
    pub(crate) fn key(&mut self) -> Option<&'v str> {
        let Due::Key(key, value) = self.due else {
            return None;
        };
        self.due = Due::Value(value);
        self.key = Some(key);
        Some(key)
    }

    /// Keeps the cases of the names by which the object that was just left was read.
    #[inline(always)]
    pub(crate) fn note_cases(&mut self, names: &[Name<'_>]) {
        // A skipped name spells no key.
        for name in names.iter().filter(|name| !name.skipped) {
            if let Some(case) = self.frame.cases.get_mut(name.case as usize) {
                *case = Some(name.case);
            }
        }
    }
}

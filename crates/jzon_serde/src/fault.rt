//! An error of a step, until it has its pointer, and place in a text.

ghost use Rattle.jzon_serde.specs.Errors.{IsOfValue, IsOfValueIn};

use jzon::{JsonValue, Reading};
use jzon_pointer::error::{Error, What};
use jzon_pointer::{locate, push_token};
use std::alloc::{AllocError, AllocFailed, Global};
use std::fmt::Write;

/// Why a step failed: `None` if an allocation did. It is one pointer, so that a step that succeeds moves
/// none of it.
#[derive(Clone, Drop)]
pub(crate) struct Fault(Option<Box<Wrong>>);

/// What is wrong, and with which part of which member of the value. The keys to it may be long, so they
/// aren't here: a type may drop many errors.
#[derive(Clone, Drop)]
struct Wrong {
    what: What,
    /// The way to the member: its index in each container, outermost first.
    indexes: Vec<usize>,
    part: Part,
}

/// What of a member is wrong.
#[derive(Clone, Drop)]
pub(crate) enum Part {
    Value,
    Key,
    /// Not the member, but its container.
    Container,
    /// It lacks the entry of this key.
    Missing(String),
}

impl Fault {
    pub(crate) const MEMORY: Fault = Fault(None);

    /// A fault that says this, or `MEMORY` if it couldn't be made.
    #[cold]
    pub(crate) fn new(
        alloc: Global,
        what: Result<What, AllocError>,
        indexes: Vec<usize>,
        part: Part,
    ) -> Fault {
        let Ok(what) = what else {
            return Fault::MEMORY;
        };
        let wrong = Wrong {
            what,
            indexes,
            part,
        };
        Fault(Box::new(alloc, wrong).ok())
    }

    pub(crate) fn is_memory(&self) -> bool {
        self.0.is_none()
    }

    /// The error with its place in the text that the value was read from: of a wrong key the key's,
    /// else as `Error::in_text` finds it. Without a place if memory runs out meanwhile.
    #[cold]
    pub(crate) fn in_text(
        self,
        alloc: Global,
        value: &JsonValue,
        text: &str,
        reading: &Reading,
    ) -> Error
        ensures { IsOfValueIn text.now result }
    {
        let is_of_key = matches!(&self.0, Some(wrong) if matches!(&wrong.part, Part::Key));
        let error = self.into_error(alloc, value);
        if !is_of_key {
            return error.in_text(alloc, text, reading);
        }
        // `Error::in_text` would give the place of the key's value.
        match locate::key_in(alloc, text, error.pointer(), reading) {
            Ok(place) => error.at_place(place),
            Err(_refused) => error,
        }
    }

    /// The error of reading a value, or of writing, without a place.
    #[cold]
    pub(crate) fn into_error(self, alloc: Global, value: &JsonValue) -> Error
        ensures { IsOfValue result }
    {
        let Some(wrong) = self.0 else {
            return Error::MEMORY;
        };
        match wrong.pointer(alloc, value) {
            Ok(pointer) => Error::at_pointer(alloc, pointer.as_str(), Box::into_inner(wrong).what),
            Err(_refused) => Error::MEMORY,
        }
    }
}

impl Wrong {
    /// The JSON Pointer to the member.
    fn pointer(&self, alloc: Global, whole: &JsonValue) -> Result<String, AllocError> {
        let mut pointer = String::new(alloc);
        let mut value = whole;
        for at in self.indexes.iter() {
            if let JsonValue::Array(items) = value
                && let Some(item) = items.get(*at)
            {
                write!(pointer, "/{at}").map_err(|_| AllocError)?;
                value = item;
            } else if let JsonValue::Object(object) = value
                && let Some((key, member)) = object.get_index(*at)
            {
                push_token(&mut pointer, key)?;
                value = member;
            }
        }
        if let Part::Missing(key) = &self.part {
            push_token(&mut pointer, key.as_str())?;
        }
        Ok(pointer)
    }
}

impl From<AllocError> for Fault {
    fn from(_refused: AllocError) -> Fault {
        Fault::MEMORY
    }
}

/// What was to be stored is dropped.
impl<T: Drop> From<AllocFailed<T>> for Fault {
    fn from(_refused: AllocFailed<T>) -> Fault {
        Fault::MEMORY
    }
}

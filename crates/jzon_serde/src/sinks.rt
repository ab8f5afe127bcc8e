//! What is made of a value's parts: a `JsonValue`, or a text.

use crate::events::{Scalar, Sink};
use crate::fault::Fault;
use jzon::JsonValue;
use jzon::codegen::Generator;
use jzon::object::{Key, Object};
use std::alloc::Global;
use std::io;

/// A value, as far as it came.
#[derive(Drop)]
pub(crate) struct Tree {
    alloc: Global,
    /// The containers that are open: the keys of a map, and the elements, or the values of all keys
    /// but perhaps the last.
    open: Vec<(Vec<Key>, Vec<JsonValue>)>,
    /// The whole value, once it came.
    pub(crate) whole: JsonValue,
}

impl Tree {
    pub(crate) fn new(alloc: Global) -> Tree {
        Tree {
            alloc,
            open: Vec::new(alloc),
            whole: JsonValue::Null,
        }
    }

    /// Puts a value into the innermost container, or as the whole.
    #[inline(always)]
    fn put_value(&mut self, value: JsonValue) -> Result<(), Fault> {
        match self.open.last_mut() {
            Some((_, values)) => values.push(value)?,
            None => self.whole = value,
        }
        Ok(())
    }
}

impl Sink for Tree {
    #[inline(always)]
    fn put(&mut self, scalar: Scalar) -> Result<(), Fault> {
        self.put_value(match scalar {
            Scalar::Null => JsonValue::Null,
            Scalar::Boolean(truth) => JsonValue::Boolean(truth),
            Scalar::Number(number) => JsonValue::Number(number),
        })
    }

    fn put_string(&mut self, text: &str) -> Result<(), Fault> {
        let value = jzon::from(self.alloc, text).map_err(|_refused| Fault::MEMORY)?;
        self.put_value(value)
    }

    fn put_key(&mut self, key: &str) -> Result<(), Fault> {
        let key = Key::new(self.alloc, key)?;
        if let Some((keys, _)) = self.open.last_mut() {
            keys.push(key)?;
        }
        Ok(())
    }

    fn open(&mut self, _is_map: bool) -> Result<(), Fault> {
        let (keys, values) = (Vec::new(self.alloc), Vec::new(self.alloc));
        Ok(self.open.push((keys, values))?)
    }

    fn close(&mut self, is_map: bool) -> Result<(), Fault> {
        let Some((keys, values)) = self.open.pop() else {
            return Ok(());
        };
        if !is_map {
            return self.put_value(JsonValue::Array(values));
        }
        // It never fails: `Events` lets no map end between a key and its value.
        if keys.len() != values.len() {
            return Err(Fault::MEMORY);
        }
        self.put_value(JsonValue::Object(Object::from_entries(self.alloc, keys, values)?))
    }
}

/// A text, written by a generator as `JsonValue::generate` does.
#[derive(Drop)]
pub(crate) struct Text<G: Generator + Drop> {
    pub(crate) out: G,
    /// The writer's error, left by a failed step.
    pub(crate) slot: Option<io::Error>,
    /// How many containers are open.
    depth: u64,
    /// Nothing is written yet in the innermost container.
    is_empty: bool,
}

impl<G: Generator + Drop> Text<G> {
    pub(crate) fn new(out: G) -> Text<G> {
        Text {
            out,
            slot: None,
            depth: 0,
            is_empty: false,
        }
    }

    /// A comma, but not before the first, and a new line.
    fn separate(&mut self) -> Result<(), Fault> {
        if self.is_empty {
            self.is_empty = false;
            self.out.set_dent(self.depth);
        } else {
            done(self.out.try_write_char(b',', &mut self.slot))?;
        }
        done(self.out.try_new_line(&mut self.slot))
    }
}

/// A generator's error, which the slot has, as a fault.
#[inline(always)]
fn done<E: Drop>(step: Result<(), E>) -> Result<(), Fault> {
    step.map_err(|_failed| Fault::MEMORY)
}

impl<G: Generator + Drop> Sink for Text<G> {
    #[inline(always)]
    fn put(&mut self, scalar: Scalar) -> Result<(), Fault> {
        done(match scalar {
            Scalar::Null => self.out.try_write(b"null", &mut self.slot),
            Scalar::Boolean(true) => self.out.try_write(b"true", &mut self.slot),
            Scalar::Boolean(false) => self.out.try_write(b"false", &mut self.slot),
            Scalar::Number(number) => self.out.try_write_number(&number, &mut self.slot),
        })
    }

    fn put_string(&mut self, text: &str) -> Result<(), Fault> {
        done(self.out.try_write_string(text, &mut self.slot))
    }

    fn put_key(&mut self, key: &str) -> Result<(), Fault> {
        self.separate()?;
        done(self.out.try_write_key(key, &mut self.slot))
    }

    fn begin_element(&mut self) -> Result<(), Fault> {
        self.separate()
    }

    fn open(&mut self, is_map: bool) -> Result<(), Fault> {
        self.depth = self.depth.saturating_add(1);
        self.is_empty = true;
        let bracket = if is_map { b'{' } else { b'[' };
        done(self.out.try_write_char(bracket, &mut self.slot))
    }

    fn close(&mut self, is_map: bool) -> Result<(), Fault> {
        self.depth = self.depth.saturating_sub(1);
        if !self.is_empty {
            self.out.set_dent(self.depth);
            done(self.out.try_new_line(&mut self.slot))?;
        }
        self.is_empty = false;
        let bracket = if is_map { b'}' } else { b']' };
        done(self.out.try_write_char(bracket, &mut self.slot))
    }
}

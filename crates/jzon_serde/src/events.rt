//! A `Serializer` of `serde`: which event (value, key, begin, end) may come, and what it means. A
//! `Sink` makes a value or a text of it.

ghost use Rattle.std.specs.Prelude.{◌≤◌, length, OnOk};

use crate::fault::{Fault, Part};
use crate::number::number_of;
use crate::wrappers::EXACT;
use jzon::number::Number;
use jzon_pointer::error::What;
use serde::{Case, NameKind, Serializer};
use std::alloc::{AllocError, Global};
use std::cell::Cell;
use std::fmt::{Display, Write};

/// How many containers may be open, with empty ones, which `parse` doesn't count.
pub(crate) const MAX_DEPTH: usize = 512;

/// A value that has no parts and is no string.
#[derive(Clone, Copy)]
pub(crate) enum Scalar {
    Null,
    Boolean(bool),
    Number(Number),
}

/// What is made of a value's parts, which come in the order of its text.
pub(crate) trait Sink {
    fn put(&mut self, scalar: Scalar) -> Result<(), Fault>;

    fn put_string(&mut self, text: &str) -> Result<(), Fault>;

    /// A key of the innermost map.
    fn put_key(&mut self, key: &str) -> Result<(), Fault>;

    /// An element follows.
    fn begin_element(&mut self) -> Result<(), Fault> {
        Ok(())
    }

    fn open(&mut self, is_map: bool) -> Result<(), Fault>;

    fn close(&mut self, is_map: bool) -> Result<(), Fault>;
}

/// What may come next in the innermost container; for an element or a key, its end too.
#[derive(Clone, Copy, PartialEq, Eq)]
enum Due {
    Whole,
    Nothing,
    Element,
    Key,
    EntryValue,
}

/// An open container.
#[derive(Clone, Copy)]
struct Level {
    due: Due,
    /// How many flattened maps are open in it, whose entries go into it.
    flat: usize,
}

#[derive(Drop)]
pub(crate) struct Events<S: Sink + Drop> {
    alloc: Global,
    pub(crate) sink: S,
    /// The containers around `level`, the innermost.
    around: Vec<Level>,
    level: Level,
    /// A buffer for a name in another case, and for a printed text.
    room: String,
    /// The next value is an entry's key.
    at_key: bool,
    /// The next map's entries go into the map that is open.
    flattens: bool,
    /// The decimal that `Exact` told, which the next float or list stands for.
    exact: Cell<Option<Number>>,
}

impl<S: Sink + Drop> Events<S> {
    pub(crate) fn new(alloc: Global, sink: S) -> Events<S> {
        Events {
            alloc,
            sink,
            around: Vec::new(alloc),
            level: Level {
                due: Due::Whole,
                flat: 0,
            },
            room: String::new(alloc),
            at_key: false,
            flattens: false,
            exact: Cell::new(None),
        }
    }

    /// Fails unless one whole value came.
    pub(crate) fn end(&self) -> Result<(), Fault> {
        if self.around.is_empty() && self.level.due == Due::Nothing {
            return Ok(());
        }
        Err(self.refused("no whole value is written"))
    }

    /// A value that is no key comes, if one is due; sets what is due then.
    #[inline(always)]
    fn begin_value(&mut self) -> Result<(), Fault> {
        if self.at_key {
            return Err(self.refused("a key is a string, a number or a boolean"));
        }
        if self.flattens {
            return Err(self.refused("only a map is flattened"));
        }
        let due = self.level.due;
        match due {
            Due::EntryValue => self.level.due = Due::Key,
            Due::Whole => self.level.due = Due::Nothing,
            Due::Element => return self.sink.begin_element(),
            Due::Key | Due::Nothing => return Err(self.refused("a value where none is due")),
        }
        Ok(())
    }

    /// A key, where one is due. After `flatten_next` only a map may come.
    #[inline(always)]
    fn put_key(&mut self, key: &str) -> Result<(), Fault> {
        if self.level.due != Due::Key || self.flattens {
            return Err(self.refused("a key where none is due"));
        }
        self.level.due = Due::EntryValue;
        self.sink.put_key(key)
    }

    #[inline(always)]
    fn put(&mut self, scalar: Scalar) -> Result<(), Fault> {
        self.begin_value()?;
        self.sink.put(scalar)
    }

    #[inline(always)]
    fn put_text(&mut self, text: &str, is_key: bool) -> Result<(), Fault> {
        if is_key {
            return self.put_key(text);
        }
        self.begin_value()?;
        self.sink.put_string(text)
    }

    /// Writes an integer, or the decimal of an `Exact`; `number` is `None` if `v` has more than 64
    /// bits. A key is printed in full.
    #[inline(always)]
    fn put_integer<T: Display>(&mut self, v: &T, number: Option<Number>) -> Result<(), Fault> {
        match number {
            _ if self.at_key => self.collect_str(v),
            Some(number) => self.put(Scalar::Number(number)),
            None => Err(self.refused("an integer of more than 64 bits")),
        }
    }

    /// The shortest digits that are read back as this float, as a number or key; not NaN or infinity.
    fn put_float<F: ryu::Float>(&mut self, v: F) -> Result<(), Fault> {
        let mut buffer = ryu::Buffer::new();
        let text = buffer.format(v);
        match number_of(text) {
            Some(_) if self.at_key => self.put_key(text),
            Some(number) => self.put(Scalar::Number(number)),
            None => Err(self.refused("a float that is no number")),
        }
    }

    /// A name in this case, as a key or string.
    #[inline(always)]
    fn put_name(&mut self, kind: NameKind, name: &str, case: Case, key: bool) -> Result<(), Fault> {
        if let Case::AsIs = case {
            return self.put_text(name, key);
        }
        let mut room = self.cleared_room();
        case.append(kind, name, &mut room)?;
        self.put_room(room, key)
    }

    /// Takes the buffer, cleared, until `put_room`.
    fn cleared_room(&mut self) -> String {
        let mut room = std::mem::replace(&mut self.room, String::new(self.alloc));
        room.clear();
        room
    }

    /// Writes the buffer's text and puts it back.
    fn put_room(&mut self, room: String, is_key: bool) -> Result<(), Fault> {
        let done = self.put_text(room.as_str(), is_key);
        self.room = room;
        done
    }

    /// Opens a map or a list where a value is due.
    fn open(&mut self, is_map: bool) -> Result<(), Fault>
        ensures within { OnOk result (length self.new.around.items ≤ 512) }
    {
        self.begin_value()?;
        if self.around.len() >= MAX_DEPTH {
            return Err(self.refused("more than 512 containers are open"));
        }
        self.around.push(self.level)?;
        let due = if is_map { Due::Key } else { Due::Element };
        self.level = Level { due, flat: 0 };
        self.sink.open(is_map)
    }

    /// Closes the innermost container, of this kind, with no value due after a key.
    fn close(&mut self, is_map: bool) -> Result<(), Fault> {
        let due = if is_map { Due::Key } else { Due::Element };
        let (true, Some(level)) = (self.level.due == due, self.around.pop()) else {
            return Err(self.refused("no such container ends here"));
        };
        self.level = level;
        self.sink.close(is_map)
    }

    #[cold]
    #[inline(never)]
    fn refused(&self, words: &'static str) -> Fault {
        self.fault(Ok(What::Said(words)))
    }

    /// An error of writing, with no pointer.
    fn fault(&self, what: Result<What, AllocError>) -> Fault {
        Fault::new(self.alloc, what, Vec::new(self.alloc), Part::Value)
    }
}

impl<S: Sink + Drop> Serializer for Events<S> {
    type Error = Fault;

    fn bool(&mut self, v: bool) -> Result<(), Fault> {
        if self.at_key {
            return self.put_key(if v { "true" } else { "false" });
        }
        self.put(Scalar::Boolean(v))
    }

    fn i64(&mut self, v: i64) -> Result<(), Fault> {
        self.put_integer(&v, Some(Number::from(v)))
    }

    fn u64(&mut self, v: u64) -> Result<(), Fault> {
        self.put_integer(&v, Some(Number::from(v)))
    }

    fn i128(&mut self, v: i128) -> Result<(), Fault> {
        let size = u64::try_from(v.unsigned_abs()).ok();
        let number = size.map(|size| Number::from_parts_unchecked(v >= 0, size, 0));
        self.put_integer(&v, number)
    }

    fn u128(&mut self, v: u128) -> Result<(), Fault> {
        self.put_integer(&v, u64::try_from(v).ok().map(Number::from))
    }

    fn f32(&mut self, v: f32) -> Result<(), Fault> {
        self.put_float(v)
    }

    /// The decimal of an `Exact`, if `custom` kept one.
    fn f64(&mut self, v: f64) -> Result<(), Fault> {
        match self.exact.take() {
            Some(number) => self.put_integer(&number, Some(number)),
            None => self.put_float(v),
        }
    }

    fn char(&mut self, v: char) -> Result<(), Fault> {
        let mut bytes = [0u8; 4];
        self.put_text(v.encode_utf8(&mut bytes), self.at_key)
    }

    fn str(&mut self, v: &str) -> Result<(), Fault> {
        self.put_text(v, self.at_key)
    }

    /// An array of numbers.
    fn bytes(&mut self, v: &[u8]) -> Result<(), Fault> {
        self.open(false)?;
        for byte in v {
            self.put(Scalar::Number(Number::from(*byte)))?;
        }
        self.close(false)
    }

    /// Null; of a flattened `None` nothing.
    fn unit(&mut self) -> Result<(), Fault> {
        if self.flattens {
            self.flattens = false;
            return Ok(());
        }
        self.put(Scalar::Null)
    }

    /// A variant without data.
    fn str_cased(&mut self, name: &str, case: Case) -> Result<(), Fault> {
        self.put_name(NameKind::Variant, name, case, self.at_key)
    }

    /// A list, or, if `custom` has kept a decimal of an `Exact`, that: `send_number` calls `begin_key`
    /// and this, which fails in all other formats. Here the decimal is written as a value, and neither
    /// `end_seq` nor `end_key` follows.
    fn begin_seq(&mut self, _len: Option<usize>) -> Result<(), Fault> {
        if let Some(number) = self.exact.take() {
            self.at_key = false;
            return self.put(Scalar::Number(number));
        }
        self.open(false)
    }

    fn end_seq(&mut self) -> Result<(), Fault> {
        self.close(false)
    }

    /// After `flatten_next` nothing is opened: the entries go into the map that is open (`flat`).
    fn begin_map(&mut self, _len: Option<usize>) -> Result<(), Fault> {
        if !self.flattens {
            return self.open(true);
        }
        self.flattens = false;
        if self.level.due != Due::Key {
            return Err(self.refused("no map is open"));
        }
        self.level.flat = self.level.flat.saturating_add(1);
        Ok(())
    }

    /// A flattened map's end closes nothing.
    fn end_map(&mut self) -> Result<(), Fault> {
        if self.level.flat > 0 && self.level.due == Due::Key {
            self.level.flat -= 1;
            return Ok(());
        }
        self.close(true)
    }

    /// A field's name.
    fn key_cased(&mut self, name: &str, case: Case) -> Result<(), Fault> {
        self.put_name(NameKind::Field, name, case, true)
    }

    /// A variant's name, the key of its data.
    fn variant_key(&mut self, name: &str, case: Case) -> Result<(), Fault> {
        self.put_name(NameKind::Variant, name, case, true)
    }

    /// Up to `end_key` comes a key of any type.
    fn begin_key(&mut self) -> Result<(), Fault> {
        self.at_key = true;
        Ok(())
    }

    fn end_key(&mut self) -> Result<(), Fault> {
        self.at_key = false;
        Ok(())
    }

    fn flatten_next(&mut self) -> Result<(), Fault> {
        self.flattens = true;
        Ok(())
    }

    /// What the type's own writer says. Words that begin with `EXACT` are no error, but the number of
    /// an `Exact`, kept for the next event: `send_number` drops what is returned.
    fn custom(&self, message: &str) -> Fault {
        if let Some(digits) = message.strip_prefix(EXACT) {
            self.exact.set(number_of(digits));
            return Fault::MEMORY;
        }
        let words = String::from_str(self.alloc, message);
        self.fault(words.map(What::Custom))
    }

    /// A printed text, as a string or key.
    fn collect_str<T: Display>(&mut self, printed: &T) -> Result<(), Fault> {
        let mut room = self.cleared_room();
        write!(room, "{printed}").map_err(|_refused| Fault::MEMORY)?;
        self.put_room(room, self.at_key)
    }
}

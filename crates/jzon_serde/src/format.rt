//! `serde`'s `Format` over a value: its methods are steps of a type's reader (`_input` is empty). A
//! step reads what is `due`: a value, or a map's key, whose text may spell a number or boolean. `asked`
//! is what a type asked of it before. `expected` and `unfit` are errors, of a key if just that was read.
//! A `frame` is a container, of which `begun` members were begun.

use crate::fault::{Fault, Part};
use crate::number::whole;
use crate::tree::{Asked, Container, Due, Mark, TreeFormat};
use jzon::JsonValue;
use jzon::util::print_dec::number_text;
use jzon_pointer::error::{Expected, Found, What, may_be_cut};
use serde::{Format, Kind, Name, NameKind, find};
use std::alloc::Global;
use std::str::FromStr;

impl<'v> TreeFormat<'v> {
    /// The integer of the number due (1e2 is 100). Fails for a fraction, above 64 bits, or if digits
    /// may have been cut. What is expected is `SIGNED` or `UNSIGNED`.
    #[inline(never)]
    fn integer(&mut self, expected: &'static str) -> Result<i128, Fault> {
        let Some(number) = self.look()?.as_number() else {
            return Err(self.unfit(expected));
        };
        match whole(number) {
            Some(_) if may_be_cut(number) => {
                let expected = Expected::Other(SIGNED);
                let found = Found::Number(number);
                Err(self.fault(Part::Value, Ok(What::Cut { expected, found })))
            }
            // Its digits are followed by zeros: it has no fraction.
            None if number.as_parts().2 > 0 => Err(self.unfit("an integer of at most 64 bits")),
            Some(integer) if integer < 0 && expected == UNSIGNED => Err(self.unfit(UNSIGNED)),
            integer => self.taken(integer, Expected::Other(expected)),
        }
    }

    /// The integer of a key. One out of range is an error of its own.
    fn integer_key<T: FromStr<Err: Drop>>(
        &mut self,
        key: &str,
        expected: &'static str,
    ) -> Result<T, Fault> {
        self.asked = Asked::Integer;
        if !is_integer(key) || (expected == UNSIGNED && key.starts_with('-')) {
            return Err(self.unfit(expected));
        }
        key.parse().map_err(|_| self.unfit(IN_RANGE))
    }

    /// The float nearest to the number due, or that a key spells; infinite above its range.
    fn float<F: fast_float::FastFloat>(&mut self) -> Result<F, Fault> {
        if let Some(key) = self.key() {
            return fast_float::parse::<F, _>(key).map_err(|_| self.unfit("a number"));
        }
        match self.look()?.as_number() {
            Some(number) if !number.is_nan() => {
                self.due = Due::Nothing;
                let (positive, mantissa, exponent) = number.as_parts();
                Ok(fast_float::from_parts(!positive, mantissa, i64::from(exponent)))
            }
            _ => Err(self.expected(Expected::Number)),
        }
    }

    /// The bytes that an array's numbers are. The loop's bound, which no array reaches, proves its end.
    fn bytes_of_items(&mut self, alloc: Global) -> Result<Vec<u8>, Fault> {
        self.begin_seq(&[])?;
        let mut bytes = Vec::new(alloc);
        for _ in 0..u64::MAX {
            if !self.next_item(&[])? {
                return Ok(bytes);
            }
            let number = self.u64(&[])?;
            bytes.push(u8::try_from(number).map_err(|_| self.invalid())?)?;
        }
        Err(Fault::MEMORY)
    }

    /// Fails unless the object that was begun has one entry: a variant and its data.
    #[inline(never)]
    fn single_entry(&mut self) -> Result<(), Fault> {
        match self.frame.container {
            Container::Map(object) if object.len() != 1 => {
                // The object is wrong.
                self.leave();
                Err(self.unfit("an object of 1 entry"))
            }
            _ => Ok(()),
        }
    }
}

const UNSIGNED: &str = "an integer of at least 0";

const SIGNED: &str = "an integer";

const IN_RANGE: &str = "an integer in the range of its type";

const FLOAT: &str = "a number in a float's range";

/// Whether a text is an integer's, in the one way to write it: or `7` and `07` would be one key of a map.
fn is_integer(key: &str) -> bool {
    match key.strip_prefix('-').unwrap_or(key).as_bytes() {
        [b'0'] => key.len() == 1,
        [b'1'..=b'9', digits @ ..] => digits.iter().all(|digit| digit.is_ascii_digit()),
        _ => false,
    }
}

impl<'v> Format for TreeFormat<'v> {
    type Error = Fault;

    type Mark = Mark<'v>;

    #[inline(always)]
    fn bool(&mut self, _input: &[u8]) -> Result<bool, Fault> {
        if let Some(key) = self.key() {
            return key.parse().map_err(|_| self.unfit("true or false"));
        }
        let truth = self.look()?.as_bool();
        self.taken(truth, Expected::Boolean)
    }

    #[inline(always)]
    fn i64(&mut self, _input: &[u8]) -> Result<i64, Fault> {
        if let Some(key) = self.key() {
            return self.integer_key(key, SIGNED);
        }
        match self.look()?.as_i64() {
            // As 1e2, or an error.
            None => i64::try_from(self.integer(SIGNED)?).map_err(|_| self.invalid()),
            integer => self.taken(integer, Expected::Other(SIGNED)),
        }
    }

    #[inline(always)]
    fn u64(&mut self, _input: &[u8]) -> Result<u64, Fault> {
        if let Some(key) = self.key() {
            return self.integer_key(key, UNSIGNED);
        }
        match self.look()?.as_u64() {
            None => u64::try_from(self.integer(UNSIGNED)?).map_err(|_| self.invalid()),
            integer => self.taken(integer, Expected::Other(UNSIGNED)),
        }
    }

    /// Within 64 bits, but a key in full.
    fn i128(&mut self, _input: &[u8]) -> Result<i128, Fault> {
        match self.key() {
            Some(key) => self.integer_key(key, SIGNED),
            None => self.integer(SIGNED),
        }
    }

    fn u128(&mut self, _input: &[u8]) -> Result<u128, Fault> {
        match self.key() {
            Some(key) => self.integer_key(key, UNSIGNED),
            None => Ok(self.integer(UNSIGNED)?.unsigned_abs()),
        }
    }

    fn f32(&mut self, _input: &[u8]) -> Result<f32, Fault> {
        let x: f32 = self.float()?;
        x.is_finite().then_some(x).ok_or_else(|| self.unfit(FLOAT))
    }

    fn f64(&mut self, _input: &[u8]) -> Result<f64, Fault> {
        let x: f64 = self.float()?;
        x.is_finite().then_some(x).ok_or_else(|| self.unfit(FLOAT))
    }

    fn char(&mut self, _input: &[u8]) -> Result<char, Fault> {
        self.text()?
            .parse::<char>()
            .map_err(|_| self.unfit("one character"))
    }

    /// `serde` asks for a slice of the input: a value's strings stand in none.
    fn plain_str(&mut self, _input: &[u8]) -> Result<(usize, usize), Fault> {
        Err(self.custom("nothing is borrowed from a value: take a `String`"))
    }

    fn plain_bytes(&mut self, input: &[u8]) -> Result<(usize, usize), Fault> {
        self.plain_str(input)
    }

    #[inline(always)]
    fn string(&mut self, alloc: Global, _input: &[u8]) -> Result<String, Fault> {
        Ok(String::from_str(alloc, self.text()?)?)
    }

    /// A string's bytes, an array's numbers, or a number's text, by which `Exact` takes it.
    fn byte_buf(&mut self, alloc: Global, _input: &[u8]) -> Result<Vec<u8>, Fault> {
        let due = self.due;
        match due {
            Due::Value(JsonValue::Number(number)) if !number.is_nan() => {
                self.due = Due::Nothing;
                let (positive, mantissa, exponent) = number.as_parts();
                let text = number_text(positive, mantissa, exponent);
                Ok(Vec::from_slice(alloc, text.as_str().as_bytes())?)
            }
            Due::Value(JsonValue::Array(_)) => self.bytes_of_items(alloc),
            _ => Ok(Vec::from_slice(alloc, self.text()?.as_bytes())?),
        }
    }

    /// The kind due: a key is a string, NaN a null, and a number with an exponent a float, as are `-0`,
    /// which would lose its sign, and numbers below `i64::MIN`.
    fn peek(&mut self, _input: &[u8]) -> Result<Kind, Fault> {
        if let Due::Key(_, _) = self.due {
            return Ok(Kind::Str);
        }
        self.asked = Asked::Kind;
        match self.look()? {
            JsonValue::Null => Ok(Kind::Unit),
            JsonValue::Number(number) if number.is_nan() => Ok(Kind::Unit),
            JsonValue::Boolean(_) => Ok(Kind::Bool),
            JsonValue::Short(_) | JsonValue::String(_) => Ok(Kind::Str),
            JsonValue::Array(_) => Ok(Kind::Seq),
            JsonValue::Object(_) => Ok(Kind::Map),
            JsonValue::Number(number) => match number.as_parts() {
                (true, _, 0) => Ok(Kind::Unsigned),
                (false, mantissa, 0) if 0 < mantissa && mantissa <= 1 << 63 => Ok(Kind::Signed),
                _ => Ok(Kind::Float),
            },
        }
    }

    /// For `()`: as `take_none`; `false` makes `invalid` expect null.
    #[inline(always)]
    fn take_unit(&mut self, input: &[u8]) -> Result<bool, Fault> {
        let is_taken = self.take_none(input)?;
        if !is_taken {
            self.asked = Asked::Unit;
        }
        Ok(is_taken)
    }

    /// For `Option`: passes over null (`true`), or a NaN, which is printed as null.
    #[inline(always)]
    fn take_none(&mut self, _input: &[u8]) -> Result<bool, Fault> {
        if let Due::Key(_, _) = self.due {
            return Ok(false);
        }
        match self.look()? {
            JsonValue::Null => {}
            JsonValue::Number(number) if number.is_nan() => {}
            _ => return Ok(false),
        }
        self.due = Due::Nothing;
        Ok(true)
    }

    #[inline(always)]
    fn begin_seq(&mut self, _input: &[u8]) -> Result<(), Fault> {
        match self.look()? {
            JsonValue::Array(items) => self.enter(Container::Seq(items)),
            _ => Err(self.expected(Expected::Array)),
        }
    }

    /// Goes to the next element (`true`), unless one is still due, or leaves the array (`false`).
    #[inline(always)]
    fn next_item(&mut self, _input: &[u8]) -> Result<bool, Fault> {
        let Container::Seq(items) = self.frame.container else {
            return Err(self.misused());
        };
        if let Due::Value(_) = self.due {
            return Ok(true);
        }
        let Some(item) = items.get(self.frame.begun) else {
            self.leave();
            return Ok(false);
        };
        self.begin_member();
        self.due = Due::Value(item);
        Ok(true)
    }

    #[inline(always)]
    fn begin_map(&mut self, _input: &[u8]) -> Result<(), Fault> {
        match self.look()? {
            JsonValue::Object(object) => self.enter(Container::Map(object)),
            // An enum, which takes a string too, asks for the kind first.
            value if self.asked == Asked::Kind && value.as_str().is_none() => {
                Err(self.unfit("a string or an object"))
            }
            _ => Err(self.expected(Expected::Object)),
        }
    }

    /// Enters a struct's object, or (`true`) an array of its fields.
    #[inline(always)]
    fn begin_struct(&mut self, _input: &[u8]) -> Result<bool, Fault> {
        match self.look()? {
            JsonValue::Object(object) => self.enter(Container::Map(object)).map(|()| false),
            JsonValue::Array(items) => self.enter(Container::Seq(items)).map(|()| true),
            _ => Err(self.expected(Expected::Object)),
        }
    }

    /// The index of the next key in `names`, `usize::MAX` for another; `None` after the last. Variants'
    /// names are for an object of one entry; the error of another key is kept for `unknown_variant`,
    /// the names' cases for `missing`.
    #[inline(always)]
    fn next_key(&mut self, _input: &[u8], names: &[Name<'_>]) -> Result<Option<usize>, Fault> {
        let are_variants = names
            .first()
            .is_some_and(|name| name.kind == NameKind::Variant);
        if are_variants {
            self.single_entry()?;
        }
        let Some((key, value)) = self.entry()? else {
            self.note_cases(names);
            return Ok(None);
        };
        self.due = Due::Value(value);
        let at = find(names, key);
        if at == usize::MAX && are_variants {
            self.note_variants(names);
        }
        Ok(Some(at))
    }

    /// Goes to the next entry (`false`: none): its key is due, then its value.
    fn next_entry(&mut self, _input: &[u8]) -> Result<bool, Fault> {
        let Some((key, value)) = self.entry()? else {
            return Ok(false);
        };
        self.due = Due::Key(key, value);
        Ok(true)
    }

    /// The index of a string or key in `names`; for none of them `usize::MAX`, and the error is kept
    /// for `unknown_variant`.
    fn variant(&mut self, _input: &[u8], names: &[Name<'_>]) -> Result<usize, Fault> {
        let at = find(names, self.text()?);
        if at == usize::MAX {
            self.note_variants(names);
        }
        Ok(at)
    }

    /// Passes over the value that is due, or the key.
    #[inline(always)]
    fn skip(&mut self, _input: &[u8]) -> Result<(), Fault> {
        match self.due {
            Due::Key(_, value) => self.due = Due::Value(value),
            _ => {
                self.look()?;
                self.due = Due::Nothing;
            }
        }
        Ok(())
    }

    /// A place to `rewind` to. Until `release`, `leave` keeps the frames that there are now.
    fn mark(&mut self) -> Mark<'v> {
        let mark = Mark {
            frame: self.frame,
            due: self.due,
            frames: self.frames.len(),
            kept: self.kept,
        };
        self.kept = mark.frames;
        self.asked = Asked::Nothing;
        mark
    }

    /// Goes back to a mark, and drops later ones. The cases stay, if the object is of several structs.
    fn rewind(&mut self, mark: Mark<'v>) {
        let cases = self.frame.cases;
        self.frame = mark.frame;
        self.frame.cases = cases;
        self.due = mark.due;
        self.key = None;
        self.kept = mark.frames;
        self.frames.truncate(mark.frames);
    }

    /// Drops a mark, later ones, and the frames that only they kept.
    fn release(&mut self, mark: Mark<'v>) {
        self.kept = mark.kept;
        self.frames.truncate(self.frame.level.max(mark.kept));
        if self.key.is_none() && !matches!(self.due, Due::Nothing) {
            // Back at the mark: no variant of an untagged enum fitted (`Forms`), or just the entry that
            // names the variant was read, whose case isn't the fields'.
            self.asked = Asked::Forms;
            self.frame = mark.frame;
        }
    }

    /// If so, an untagged enum tries no other variant.
    fn is_fatal(&self, error: &Fault) -> bool {
        error.is_memory()
    }

    /// The error that a field's key is missing. It isn't known if the names are in several cases, or an
    /// array was read: then the field is named.
    #[cold]
    fn missing(&self, name: &str) -> Fault {
        let Ok(key) = self.key_of(name) else {
            return Fault::MEMORY;
        };
        if let Some(key) = key {
            return self.fault(Part::Missing(key), Ok(What::Missing(Expected::Value)));
        }
        let words = format!(in self.alloc; "the field {name} is missing");
        self.fault(Part::Value, words.map(What::Custom))
    }

    fn duplicate(&self, _name: &str) -> Fault {
        self.fault(Part::Key, Ok(What::Said("given twice")))
    }

    fn unknown_key(&self) -> Fault {
        self.fault(Part::Key, Ok(What::Said("unknown key")))
    }

    /// The error that `next_key` or `variant` kept.
    #[cold]
    fn unknown_variant(&self) -> Fault {
        match &self.unknown {
            Some(fault) => fault.clone().unwrap_or(Fault::MEMORY),
            None => self.invalid(),
        }
    }

    /// If an element is due, it is the first too many: the type has one less than were begun. Else the
    /// array was read to its end.
    #[cold]
    fn wrong_len(&self) -> Fault {
        let (Container::Seq(items), Due::Value(_)) = (self.frame.container, self.due) else {
            return self.unfit("an array of another length");
        };
        let expected = Expected::Exactly(self.frame.begun.saturating_sub(1));
        let found = Found::Array(items.len());
        self.fault(Part::Container, Ok(What::Wrong { expected, found }))
    }

    /// What is none of the type's. Before a value is read, `asked` tells what is expected; a number
    /// that was read is out of range.
    #[cold]
    fn invalid(&self) -> Fault {
        let words = match (self.key_at_hand(), self.due, self.asked) {
            (Some(_), Due::Value(_), Asked::Integer) => IN_RANGE,
            (None, Due::Value(_), Asked::Unit) => "null",
            (None, Due::Value(_), Asked::Forms) | (_, Due::Key(_, _), Asked::Forms) => {
                "one of the forms of its type"
            }
            (Some(_), _, _) => "a key of its type",
            (None, Due::Nothing, _) if matches!(self.last(), Some(JsonValue::Number(_))) =>
                IN_RANGE,
            _ => "a value of its type",
        };
        self.unfit(words)
    }

    fn no_memory(&self) -> Fault {
        Fault::MEMORY
    }

    /// What a type's own reader says, of the key if it read that alone.
    #[cold]
    fn custom(&self, message: &str) -> Fault {
        let part = self.key_at_hand().map_or(Part::Value, |_key| Part::Key);
        let words = String::from_str(self.alloc, message);
        self.fault(part, words.map(What::Custom))
    }
}

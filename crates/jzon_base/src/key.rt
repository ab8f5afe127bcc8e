//! The keys of objects (docs/RULES.md, "Short and long strings").
ghost use Rattle.std.specs.Prelude.{◌≡◌, ◌<◌, ◌≤◌, ◌++◌, ◌∷◌, List, ℕ, [], length, take, string_bytes, IfOk, IsOkUnless, OnErr, OnOk};
ghost use Rattle.std.specs.Str.{bytes_eq};
ghost use Rattle.jzon_base.specs.Key.{key_bytes};
ghost use Rattle.std.specs.Cmp.{partial_equiv_from_equiv};
ghost use Rattle.std.specs.Cmp.Lexicographic.{nat_list_eq_equiv};

use crate::error::{self, Error};
use crate::inline;
use arrayvec::ArrayString;
use std::alloc::{AllocError, Global};
use std::fmt;
use std::marker::Model;

/// The most bytes that a key stores inline.
const INLINE_MAX: usize = 32;

/// A key of an object. Up to `INLINE_MAX` bytes, 32, are stored in the key itself, longer text in an
/// allocated `String`.
#[derive(Drop)]
pub struct Key {
    text: Text,
}

#[derive(Drop)]
enum Text {
    Inline(ArrayString<INLINE_MAX>),
    Owned(String),
}

impl Model for Key {
    ghost Value = { List ℕ };

    ghost view = { λ k. key_bytes k.text };
}

impl Key {
    /// The key with this text. Only text longer than `INLINE_MAX` allocates, and can fail.
    pub fn new(alloc: Global, text: &str) -> Result<Key, AllocError>
        ensures bytes { IfOk result (λ k. k ≡ text.now) }
        ensures long { OnErr result (32 < length text.now) }
    {
        if text.len() <= INLINE_MAX {
            let text = Text::Inline(inline::text_in(text));
            return Ok(Key { text });
        }
        let text = Text::Owned(String::from_str(alloc, text)?);
        Ok(Key { text })
    }

    /// Appends the key of `text`, a prefix of `wide`, to `keys`, where it is made, so that it isn't
    /// moved. If `wide` can be cut at `INLINE_MAX`, so many of its bytes are copied, without a call,
    /// and short text is cut out of them.
    #[doc(hidden)]
    #[inline(always)]
    pub fn push_wide(
        keys: &mut Vec<Key>,
        alloc: Global,
        text: &str,
        wide: &str,
    ) -> Result<(), AllocError>
        requires wide { take (length text.now) wide.now ≡ text.now }
        ensures ok { OnOk result (keys.new.items ≡ keys.old.items ++ text.now ∷ []) }
        ensures err { OnErr result (keys.new.items ≡ keys.old.items) }
    {
        keys.reserve(1)?;
        if text.len() <= INLINE_MAX && wide.is_char_boundary(INLINE_MAX) {
            keys.push_reserved(Key {
                text: Text::Inline(inline::front_of(text, wide)),
            });
            return Ok(());
        }
        keys.push_reserved(Key::new(alloc, text)?);
        Ok(())
    }

    /// A copy. Only text longer than `INLINE_MAX` allocates, and can fail. Inlined, so that it is
    /// made where it stays.
    #[inline(always)]
    pub fn clone(&self, alloc: Global) -> Result<Key, AllocError>
        ensures bytes { IfOk result (λ k. k ≡ self.now) }
        ensures long { OnErr result (32 < length self.now) }
    {
        match &self.text {
            Text::Inline(inline) => Ok(Key {
                text: Text::Inline(*inline),
            }),
            Text::Owned(owned) => Key::new(alloc, owned.as_str()),
        }
    }

    /// The text of the key.
    pub fn as_str(&self) -> &str
        ensures { result.now ≡ self.now }
    {
        match &self.text {
            Text::Inline(inline) => inline.as_str(),
            Text::Owned(owned) => owned.as_str(),
        }
    }

    /// The text as a `String`. Inline text is allocated, which can fail with `OutOfMemory`;
    /// longer text is moved.
    pub fn into_string(self, alloc: Global) -> error::Result<String>
        ensures bytes { IfOk result (λ s. string_bytes s ≡ self) }
        ensures short { OnErr result (length self ≤ 32) }
        ensures memory { IsOkUnless result Error.OutOfMemory }
    {
        match self.text {
            Text::Inline(ref inline) => Ok(String::from_str(alloc, inline.as_str())?),
            Text::Owned(owned) => Ok(owned),
        }
    }
}

impl PartialEq for Key {
    ghost eq = { bytes_eq };

    ghost laws = { partial_equiv_from_equiv nat_list_eq_equiv };

    fn eq(&self, other: &Key) -> bool {
        self.as_str() == other.as_str()
    }
}

impl Eq for Key {
    ghost laws = { nat_list_eq_equiv };
}

/// As std's `str`: in quotes, with escapes.
impl fmt::Debug for Key {
    fn fmt<W: fmt::Write>(&self, f: &mut fmt::Formatter<W>) -> fmt::Result {
        fmt::Debug::fmt(self.as_str(), f)
    }
}

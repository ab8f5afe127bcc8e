//! Short strings, stored inline (docs/RULES.md, "Short and long strings").

ghost use Rattle.std.specs.Prelude.{◌≡◌, ◌≤◌, List, ℕ, length, take, IfOk, IsOkUnless, IsUtf8, Some, string_bytes};
ghost use Rattle.std.specs.Cmp.{partial_equiv_from_equiv};
ghost use Rattle.std.specs.Cmp.Lexicographic.{nat_list_eq_equiv};
ghost use Rattle.std.specs.Str.{IsCharBoundary, bytes_eq};
ghost use Rattle.jzon_base.specs.declared.error.Error.TheVariants.{OutOfMemory};

use crate::error::Result;
use crate::inline;
use arrayvec::ArrayString;
use std::alloc::Global;
use std::fmt;
use std::marker::Model;

/// The most bytes that a `Short` holds.
pub const MAX_LEN: usize = 30;

/// A string of at most `MAX_LEN` bytes, 30, stored in the value itself.
/// `Short::from_slice(short.as_str())` makes a copy.
#[derive(Drop)]
pub struct Short {
    text: ArrayString<MAX_LEN>,
}

impl Model for Short {
    ghost Value = { List ℕ };

    ghost view = { λ s. s.text.bytes };
}

impl Short {
    /// A copy of the string, which must have at most `MAX_LEN` bytes.
    pub fn from_slice(slice: &str) -> Short
        requires { length slice.now ≤ MAX_LEN }
        ensures { result ≡ slice.now }
    {
        let text = inline::text_in(slice);
        Short { text }
    }

    /// A copy of `slice`, a prefix of `wide`, which must have a character boundary at `MAX_LEN`.
    /// Faster than `from_slice`: `MAX_LEN` bytes of `wide` are copied, without a call, then cut.
    #[doc(hidden)]
    #[inline(always)]
    pub fn from_wide(slice: &str, wide: &str) -> Short
        requires short { length slice.now ≤ MAX_LEN }
        requires wide { take (length slice.now) wide.now ≡ slice.now }
        requires cut { IsCharBoundary wide.now MAX_LEN }
        ensures { result ≡ slice.now }
    {
        let text = inline::front_of(slice, wide);
        Short { text }
    }

    /// A copy of all `MAX_LEN` bytes, used or not: a fixed number is copied without a call.
    #[doc(hidden)]
    #[inline(always)]
    pub fn copy_fields(&self) -> Short
        ensures { result ≡ self.now }
    {
        Short { text: self.text }
    }

    /// The string. (`short` and `utf8`, true of each `Short`, are for callers' proofs.)
    pub fn as_str(&self) -> &str
        ensures text { result.now ≡ self.now }
        ensures short { length self.now ≤ MAX_LEN }
        ensures utf8 { IsUtf8 self.now }
    {
        self.text.as_str()
    }

    /// Whether this is the string `other`.
    pub fn eq_str(&self, other: &str) -> bool
        ensures { result ≡ bytes_eq self.now other.now }
    {
        self.as_str() == other
    }

    /// The string as an allocated `String`. Fails with `OutOfMemory` only.
    pub fn into_string(self, alloc: Global) -> Result<String>
        ensures text { IfOk result (λ s. string_bytes s ≡ self) }
        ensures memory { IsOkUnless result OutOfMemory }
    {
        Ok(String::from_str(alloc, self.as_str())?)
    }
}

impl PartialEq for Short {
    ghost eq = { bytes_eq };

    ghost laws = { partial_equiv_from_equiv nat_list_eq_equiv };

    fn eq(&self, other: &Short) -> bool {
        self.as_str() == other.as_str()
    }
}

impl Eq for Short {
    ghost laws = { nat_list_eq_equiv };
}

/// As std's `str`: in quotes, with escapes.
impl fmt::Debug for Short {
    fn fmt<W: fmt::Write>(&self, f: &mut fmt::Formatter<W>) -> fmt::Result {
        fmt::Debug::fmt(&self.as_str(), f)
    }
}

/// The string without quotes. Format flags are ignored.
impl fmt::Display for Short {
    ghost output = { λ s. Some s };

    fn fmt<W: fmt::Write>(&self, f: &mut fmt::Formatter<W>) -> fmt::Result {
        f.write_str(self.as_str())
    }
}

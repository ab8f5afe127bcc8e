//! The settings of a parser (docs/RULES.md, "Readings").

ghost use Rattle.std.specs.Prelude.{◌≡◌, ◌<◌, ◌≤◌, ◌↔◌, IsTrue, true, false, SomeIff};
ghost use Rattle.jzon_tree.specs.View.{view};
ghost use Rattle.jzon.specs.Answer.{IsReadable};

use jzon_tree::value::{JsonValue, is_readable};
use std::marker::Model;

/// The settings of `parse_as`. A *strict* reading accepts only the whitespace of RFC 8259 and
/// rejects a repeated key. The *depth* is how many arrays and objects that aren't empty may be open
/// at once. An *exact* reading rejects a number that would be read with another value than its
/// digits and exponent spell.
#[derive(Clone, Copy, Debug)]
pub struct Reading {
    strict: bool,
    depth: u16,
    exact: bool,
}

impl Model for Reading {
    ghost use Rattle.std.specs.Prelude.{◌≤◌};
    ghost use Rattle.jzon.specs.Reading.{Reading as Limits};
    ghost use Rattle.jzon.specs.Private.ReadingFields.{fields_of};

    ghost Value = { Limits };

    ghost view = { λ r. record { strict = r.strict; depth = r.depth; exact = r.exact } };

    ghost invariant = { λ r. r.depth ≤ 512 };

    ghost inverse = { fields_of };
}

const MAX_DEPTH: u16 = 512;

impl Reading {
    /// The reading of `parse`: not strict, of depth 512, not exact.
    pub const USUAL: Reading = Reading {
        strict: false,
        depth: MAX_DEPTH,
        exact: false,
    };

    /// The strict reading of depth 512, not exact.
    pub const STRICT: Reading = Reading {
        strict: true,
        depth: MAX_DEPTH,
        exact: false,
    };

    /// The strict and exact reading of depth 512: it rejects a text whose value would lose a
    /// repeated key or a digit.
    pub const LOSSLESS: Reading = Reading {
        strict: true,
        depth: MAX_DEPTH,
        exact: true,
    };

    /// The reading with these settings, not exact; `None` if `depth` is above 512. At depth 0 a
    /// text may be a primitive or an empty container.
    pub fn new(strict: bool, depth: u16) -> Option<Reading>
        ensures { SomeIff result (depth ≤ 512) (record { strict = strict; depth = depth; exact = false }) }
    {
        if depth > MAX_DEPTH {
            return None;
        }
        Some(Reading {
            strict,
            depth,
            exact: false,
        })
    }

    /// This reading with another depth; one above 512 becomes 512. A shallow lossless reading is
    /// `Reading::LOSSLESS.with_depth(16)`.
    pub fn with_depth(self, depth: u16) -> Reading
        ensures within { depth ≤ 512 → result ≡ record self { depth = depth } }
        ensures most { 512 < depth → result ≡ record self { depth = 512 } }
    {
        if depth > MAX_DEPTH {
            return Reading {
                depth: MAX_DEPTH,
                ..self
            };
        }
        Reading { depth, ..self }
    }

    /// This reading, but strict.
    pub fn strictly(self) -> Reading
        ensures { result ≡ record self { strict = true } }
    {
        Reading {
            strict: true,
            ..self
        }
    }

    /// This reading, but exact.
    pub fn with_exact_numbers(self) -> Reading
        ensures { result ≡ record self { exact = true } }
    {
        Reading {
            exact: true,
            ..self
        }
    }

    /// Whether the reading is exact.
    pub fn exact_numbers(&self) -> bool
        ensures { result ≡ self.now.exact }
    {
        self.exact
    }

    /// Whether the reading is strict.
    pub fn strict(&self) -> bool
        ensures { result ≡ self.now.strict }
    {
        self.strict
    }

    /// How many containers that aren't empty may be open at once.
    pub fn depth(&self) -> u16
        ensures depth { result ≡ self.now.depth }
        ensures most { result ≤ 512 }
    {
        self.depth
    }

    /// Whether the value contains no NaN and nests no deeper than this reading allows. If so, this
    /// reading reads its compact and pretty texts as values equal to it (`laws::reads_back`).
    ///
    /// Stops at the first NaN or container that is too deep. Allocates nothing.
    pub fn admits(&self, value: &JsonValue) -> bool
        ensures { IsTrue result ↔ IsReadable self.now (view value.now) }
    {
        is_readable(value, self.depth)
    }
}

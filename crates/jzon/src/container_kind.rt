//! Arrays and objects, by their brackets.

ghost use Rattle.std.specs.Prelude.{◌≡◌, ◌≢◌, MatchOption};
ghost use Rattle.jzon_tree.specs.View.{view};
ghost use Rattle.jzon.specs.Private.Brackets.{opener, closer, empty_container};
ghost use Rattle.jzon_base.specs.Tokens.{begin_array, begin_object};

use jzon_tree::object::Object;
use jzon_tree::value::JsonValue;
use std::alloc::Global;

#[derive(Clone, Copy)]
pub(crate) enum ContainerKind {
    Array,
    Object,
}

impl ContainerKind {
    /// The kind that this byte, `[` or `{`, opens; `None` for any other byte.
    #[inline(always)]
    pub(crate) fn opened_by(first: u8) -> Option<ContainerKind>
        ensures { MatchOption result ((first ≢ begin_array) × (first ≢ begin_object))
            (λ kind. first ≡ opener kind) }
    {
        match first {
            b'[' => Some(ContainerKind::Array),
            b'{' => Some(ContainerKind::Object),
            _ => None,
        }
    }

    /// An empty container of this kind. It allocates nothing.
    #[inline(always)]
    pub(crate) fn empty(self, alloc: Global) -> JsonValue
        ensures { view result ≡ empty_container self }
    {
        match self {
            ContainerKind::Array => JsonValue::Array(Vec::new(alloc)),
            ContainerKind::Object => JsonValue::Object(Object::new(alloc)),
        }
    }

    #[inline(always)]
    pub(crate) fn closer(self) -> u8
        ensures { result ≡ closer self }
    {
        match self {
            ContainerKind::Array => b']',
            ContainerKind::Object => b'}',
        }
    }
}

//! Where values that are read go.

ghost use Rattle.std.specs.Prelude.{◌≡◌, ◌<◌, ◌∷◌, ◌++◌, [], ⊤, vec_len, vec_capacity};
ghost use Rattle.jzon_tree.specs.declared.value.JsonValue.{JsonValue};

use jzon_tree::value::JsonValue;

/// What takes a value that is read, because a returned one would be moved from call to call.
pub(crate) trait Target {
    ghost has_room: { Self → Type 0 };

    // The target before, a value, and the target with this value.
    ghost takes: { Self → JsonValue → Self → Type 0 };

    fn put(&mut self, value: JsonValue)
        requires { has_room self.old }
        ensures { takes self.old value self.new };
}

/// The value becomes the last one, in capacity that the caller reserved.
impl Target for Vec<JsonValue> {
    ghost has_room = { λ values. vec_len values < vec_capacity values };

    ghost takes = { λ before value after. after.items ≡ before.items ++ value ∷ [] };

    #[inline(always)]
    fn put(&mut self, value: JsonValue) {
        self.push_reserved(value);
    }
}

/// The value, that of a whole text, replaces the one that was there.
impl Target for JsonValue {
    ghost has_room = { λ _. ⊤ };

    ghost takes = { λ before value after. after ≡ value };

    #[inline(always)]
    fn put(&mut self, value: JsonValue) {
        *self = value;
    }
}

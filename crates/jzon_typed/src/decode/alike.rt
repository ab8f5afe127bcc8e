//! Equal values are read alike.

ghost use Rattle.std.specs.Prelude.{◌^◌};
ghost use Rattle.std.specs.Int.{w8, w16, w32, w64};
ghost use Rattle.jzon_typed.specs.Integers.{EqualIntegers};
ghost use Rattle.jzon_typed.specs.Alike.{AlikeBy, TakenAlike};
ghost use Rattle.jzon_typed.specs.AlikeLaws.{alike-bool, alike-char, alike-int, alike-list, alike-nat, alike-number, alike-option, alike-pair, alike-text, alike-triple, alike-value};
ghost use Rattle.jzon_typed.specs.AlikeLaws.{taken-alike-bool, taken-alike-char, taken-alike-int, taken-alike-list, taken-alike-nat, taken-alike-number, taken-alike-option, taken-alike-pair, taken-alike-text, taken-alike-triple};
ghost use Rattle.jzon_typed.specs.MapLaws.{alike-map, taken-alike-map};

use super::FromJson;
use jzon::JsonValue;
use jzon::number::Number;
use std::collections::BTreeMap;

/// Types that are read alike from equal values: the results are equal, and if one of the values is
/// taken, so is the other, if of no number in it digits may have been cut. An implementation is a
/// proof of both, and may use what `law` promises. A container is read alike if its content is, and a
/// struct, of which `server` is the codec (`struct_of` of specs/Codec.antt), as here:
///
/// ```rust
/// impl ReadsAlike for Server {
///     ghost alike = { server.alike };
///
///     ghost taken_alike = { server.taken_alike };
/// }
/// ```
pub trait ReadsAlike: FromJson + PartialEq {
    ghost alike: { EqualIntegers → AlikeBy Self.FromJson.gives Self.PartialEq.eq };

    ghost taken_alike: { EqualIntegers → TakenAlike Self.FromJson.takes };
}

/// Of equal values `from_json` gives equal results, and takes both or neither, if of no number in
/// them digits may have been cut. It does nothing: the law is its contract.
pub fn law_of<T: ReadsAlike>()
    ensures alike { AlikeBy T.FromJson.gives T.PartialEq.eq }
    ensures taken { TakenAlike T.FromJson.takes }
{}

impl ReadsAlike for u8 {
    ghost alike = { alike-nat };

    ghost taken_alike = { taken-alike-nat (2 ^ 8) };
}

impl ReadsAlike for u16 {
    ghost alike = { alike-nat };

    ghost taken_alike = { taken-alike-nat (2 ^ 16) };
}

impl ReadsAlike for u32 {
    ghost alike = { alike-nat };

    ghost taken_alike = { taken-alike-nat (2 ^ 32) };
}

impl ReadsAlike for u64 {
    ghost alike = { alike-nat };

    ghost taken_alike = { taken-alike-nat (2 ^ 64) };
}

impl ReadsAlike for usize {
    ghost alike = { alike-nat };

    ghost taken_alike = { taken-alike-nat (2 ^ 64) };
}

impl ReadsAlike for i8 {
    ghost alike = { alike-int };

    ghost taken_alike = { taken-alike-int w8 };
}

impl ReadsAlike for i16 {
    ghost alike = { alike-int };

    ghost taken_alike = { taken-alike-int w16 };
}

impl ReadsAlike for i32 {
    ghost alike = { alike-int };

    ghost taken_alike = { taken-alike-int w32 };
}

impl ReadsAlike for i64 {
    ghost alike = { alike-int };

    ghost taken_alike = { taken-alike-int w64 };
}

impl ReadsAlike for isize {
    ghost alike = { alike-int };

    ghost taken_alike = { taken-alike-int w64 };
}

impl ReadsAlike for bool {
    ghost alike = { λ _. alike-bool };

    ghost taken_alike = { λ _. taken-alike-bool };
}

impl ReadsAlike for Number {
    ghost alike = { λ _. alike-number };

    ghost taken_alike = { λ _. taken-alike-number };
}

impl ReadsAlike for JsonValue {
    ghost alike = { λ _. alike-value };

    ghost taken_alike = { λ _ _ _ _ _ _. tt };
}

impl ReadsAlike for String {
    ghost alike = { λ _. alike-text };

    ghost taken_alike = { λ _. taken-alike-text };
}

impl ReadsAlike for char {
    ghost alike = { λ _. alike-char };

    ghost taken_alike = { λ _. taken-alike-char };
}

impl<T: ReadsAlike> ReadsAlike for Vec<T> {
    ghost alike = { λ equal x y. alike-list T.FromJson.gives T.PartialEq.eq (T.alike equal) x.items y.items };

    ghost taken_alike = { λ equal. taken-alike-list T.FromJson.takes (T.taken_alike equal) };
}

impl<T: ReadsAlike> ReadsAlike for Box<T> {
    ghost alike = { λ equal x y. T.alike equal x.value y.value };

    ghost taken_alike = { T.taken_alike };
}

impl<T: ReadsAlike> ReadsAlike for Option<T> {
    ghost alike = { λ equal. alike-option T.FromJson.gives T.PartialEq.eq (T.alike equal) };

    ghost taken_alike = { λ equal. taken-alike-option T.FromJson.takes (T.taken_alike equal) };
}

impl<A: ReadsAlike, B: ReadsAlike> ReadsAlike for (A, B) {
    ghost alike = { λ equal. alike-pair A.FromJson.gives A.PartialEq.eq (A.alike equal) B.FromJson.gives
        B.PartialEq.eq (B.alike equal) };

    ghost taken_alike = { λ equal. taken-alike-pair A.FromJson.takes B.FromJson.takes (A.taken_alike equal)
        (B.taken_alike equal) };
}

impl<A: ReadsAlike, B: ReadsAlike, C: ReadsAlike> ReadsAlike for (A, B, C) {
    ghost alike = { λ equal. alike-triple A.FromJson.gives A.PartialEq.eq (A.alike equal) B.FromJson.gives
        B.PartialEq.eq (B.alike equal) C.FromJson.gives C.PartialEq.eq (C.alike equal) };

    ghost taken_alike = { λ equal. taken-alike-triple A.FromJson.takes B.FromJson.takes C.FromJson.takes
        (A.taken_alike equal) (B.taken_alike equal) (C.taken_alike equal) };
}

impl<T: ReadsAlike> ReadsAlike for BTreeMap<String, T> {
    ghost alike = { λ equal. alike-map T.FromJson.gives T.PartialEq.eq (T.alike equal) };

    ghost taken_alike = { λ equal. taken-alike-map T.FromJson.takes (T.taken_alike equal) };
}

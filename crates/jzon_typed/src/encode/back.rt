//! What is written is read back as an equal value.

ghost use Rattle.std.specs.Prelude.{◌≡◌, ◌^◌, ◌∷◌, [], true, encode_utf8, string_bytes, IfOk, IsOkUnless};
ghost use Rattle.std.specs.Int.{w8, w16, w32, w64};
ghost use Rattle.jzon.specs.Value.{Value, null};
ghost use Rattle.jzon_typed.specs.Back.{back-bool, back-char, back-int, back-list, back-nat, back-number, back-option, back-pair, back-text, back-triple, back-value};
ghost use Rattle.jzon_typed.specs.Back.{taken-bool, taken-char, taken-int, taken-list, taken-nat, taken-number, taken-option, taken-pair, taken-text, taken-triple, no-array, no-boolean, no-list, no-number, no-text};
ghost use Rattle.jzon_typed.specs.MapLaws.{back-map, no-map, taken-map};
ghost use Rattle.jzon_pointer.specs.Errors.{memory};

use super::ToJson;
use crate::decode::{Error, FromJson};
use jzon::JsonValue;
use jzon::number::Number;
use std::alloc::Global;
use std::collections::BTreeMap;
use std::result::Result;

/// Types that read back what they write: each value that is written is taken, and gives only
/// results equal to it. An implementation is a proof of both. A container, a box or an option is
/// read back if its content is; an option only if nothing is written as null.
pub trait ReadsBack: FromJson + ToJson + PartialEq {
    ghost back: { (x y : Self) (v : Value) → Self.ToJson.shows x v → Self.FromJson.gives v y
        → Self.PartialEq.eq y x ≡ true };

    ghost taken: { (x : Self) (v : Value) → Self.ToJson.shows x v → Self.FromJson.takes v };
}

/// Types of which no value is written as null, so that an `Option` of them is read back.
pub trait NotNull: ToJson {
    ghost not_null: { (x : Self) → Self.ToJson.shows x null → ⊥ };
}

/// Writes the source and reads it back. Fails with `OutOfMemory` only.
///
/// ```rust
/// match encode::read_back(rt.alloc(), source) {
///     Ok(copy) => expect(rt, words, copy == *source),
///     Err(_) => expect(rt, words, false),
/// }
/// ```
pub fn read_back<T: ReadsBack>(alloc: Global, source: &T) -> Result<T, Error>
    ensures value { IfOk result (λ copy. T.eq copy source.now ≡ true) }
    ensures memory { IsOkUnless result memory }
{
    let value = source.to_json(alloc)?;
    T::from_json(alloc, &value)
}

impl ReadsBack for u8 {
    ghost back = { back-nat (2 ^ 8) };

    ghost taken = { taken-nat (2 ^ 8) };
}

impl ReadsBack for u16 {
    ghost back = { back-nat (2 ^ 16) };

    ghost taken = { taken-nat (2 ^ 16) };
}

impl ReadsBack for u32 {
    ghost back = { back-nat (2 ^ 32) };

    ghost taken = { taken-nat (2 ^ 32) };
}

impl ReadsBack for u64 {
    ghost back = { back-nat (2 ^ 64) };

    ghost taken = { taken-nat (2 ^ 64) };
}

impl ReadsBack for usize {
    ghost back = { back-nat (2 ^ 64) };

    ghost taken = { taken-nat (2 ^ 64) };
}

impl ReadsBack for i8 {
    ghost back = { back-int w8 };

    ghost taken = { taken-int w8 };
}

impl ReadsBack for i16 {
    ghost back = { back-int w16 };

    ghost taken = { taken-int w16 };
}

impl ReadsBack for i32 {
    ghost back = { back-int w32 };

    ghost taken = { taken-int w32 };
}

impl ReadsBack for i64 {
    ghost back = { back-int w64 };

    ghost taken = { taken-int w64 };
}

impl ReadsBack for isize {
    ghost back = { back-int w64 };

    ghost taken = { taken-int w64 };
}

impl ReadsBack for bool {
    ghost back = { back-bool };

    ghost taken = { taken-bool };
}

impl ReadsBack for Number {
    ghost back = { back-number };

    ghost taken = { taken-number };
}

impl ReadsBack for JsonValue {
    ghost back = { back-value };

    ghost taken = { λ _ _ _. tt };
}

impl ReadsBack for String {
    ghost back = { back-text };

    ghost taken = { taken-text };
}

impl ReadsBack for char {
    ghost back = { back-char };

    ghost taken = { taken-char };
}

impl<T: ReadsBack> ReadsBack for Vec<T> {
    ghost back = { λ x y. back-list T.ToJson.shows T.FromJson.gives T.PartialEq.eq T.back x.items y.items };

    ghost taken = { λ x. taken-list T.ToJson.shows T.FromJson.takes T.taken x.items };
}

impl<T: ReadsBack> ReadsBack for Box<T> {
    ghost back = { λ x y. T.back x.value y.value };

    ghost taken = { λ x. T.taken x.value };
}

impl<T: ReadsBack + NotNull> ReadsBack for Option<T> {
    ghost back = { back-option T.ToJson.shows T.FromJson.gives T.PartialEq.eq T.back T.not_null };

    ghost taken = { taken-option T.ToJson.shows T.FromJson.takes T.taken };
}

impl<A: ReadsBack, B: ReadsBack> ReadsBack for (A, B) {
    ghost back = { back-pair A.ToJson.shows B.ToJson.shows A.FromJson.gives A.PartialEq.eq A.back
        B.FromJson.gives B.PartialEq.eq B.back };

    ghost taken = { taken-pair A.ToJson.shows B.ToJson.shows A.FromJson.takes A.taken B.FromJson.takes B.taken };
}

impl<A: ReadsBack, B: ReadsBack, C: ReadsBack> ReadsBack for (A, B, C) {
    ghost back = { back-triple A.ToJson.shows B.ToJson.shows C.ToJson.shows A.FromJson.gives
        A.PartialEq.eq A.back B.FromJson.gives B.PartialEq.eq B.back C.FromJson.gives C.PartialEq.eq C.back };

    ghost taken = { taken-triple A.ToJson.shows B.ToJson.shows C.ToJson.shows A.FromJson.takes A.taken
        B.FromJson.takes B.taken C.FromJson.takes C.taken };
}

impl<T: ReadsBack> ReadsBack for BTreeMap<String, T> {
    ghost back = { back-map T.ToJson.shows T.FromJson.gives T.PartialEq.eq T.back };

    ghost taken = { taken-map T.ToJson.shows T.FromJson.takes T.taken };
}

impl NotNull for u8 {
    ghost not_null = { λ x h. no-number _ h.0 };
}

impl NotNull for u16 {
    ghost not_null = { λ x h. no-number _ h.0 };
}

impl NotNull for u32 {
    ghost not_null = { λ x h. no-number _ h.0 };
}

impl NotNull for u64 {
    ghost not_null = { λ x h. no-number _ h.0 };
}

impl NotNull for usize {
    ghost not_null = { λ x h. no-number _ h.0 };
}

impl NotNull for i8 {
    ghost not_null = { λ x h. no-number _ h.0 };
}

impl NotNull for i16 {
    ghost not_null = { λ x h. no-number _ h.0 };
}

impl NotNull for i32 {
    ghost not_null = { λ x h. no-number _ h.0 };
}

impl NotNull for i64 {
    ghost not_null = { λ x h. no-number _ h.0 };
}

impl NotNull for isize {
    ghost not_null = { λ x h. no-number _ h.0 };
}

impl NotNull for bool {
    ghost not_null = { no-boolean };
}

impl NotNull for Number {
    ghost not_null = { no-number };
}

impl NotNull for String {
    ghost not_null = { λ s. no-text _ (string_bytes s) };
}

impl NotNull for char {
    ghost not_null = { λ c h. no-text _ (encode_utf8 c) h.0 };
}

impl<T: ToJson> NotNull for Vec<T> {
    ghost not_null = { λ x. no-list T.shows x.items };
}

impl<A: ToJson, B: ToJson> NotNull for (A, B) {
    ghost not_null = { λ x h. no-array (h.0 ∷ h.1 ∷ []) h.4 };
}

impl<A: ToJson, B: ToJson, C: ToJson> NotNull for (A, B, C) {
    ghost not_null = { λ x h. no-array (h.0 ∷ h.1 ∷ h.2 ∷ []) h.6 };
}

impl<T: NotNull> NotNull for Box<T> {
    ghost not_null = { λ x. T.not_null x.value };
}

impl<T: ToJson> NotNull for BTreeMap<String, T> {
    ghost not_null = { λ m h. no-map T.shows m.entries h.0 };
}

//! How the types of std are read. `u8_in` and the like give the integer that a number is, however
//! it is written, if it fits. `usize` and `isize` have 64 bits.

ghost use Rattle.std.specs.Prelude.{◌≡◌, ◌<◌, ◌^◌, ◌⊎◌, ℕ, None, Some, encode_utf8, string_bytes, true, false, FitsSigned, IfErr, IfOk, IfSome, IsOk, IsSome, MatchOption};
ghost use Rattle.std.specs.Char.{IsScalar};
ghost use Rattle.std.specs.Int.{w8, w16, w32, w64};
ghost use Rattle.std.specs.List.{AllZip};
ghost use Rattle.std.specs.BTreeMap as tree;
ghost use Rattle.std.specs.String.{string_cmp};
ghost use Rattle.jzon.specs.Decimal.{SomeWhere};
ghost use Rattle.jzon.specs.Readers.{is_array, is_object, items, number_in, text_in, truth_in};
ghost use Rattle.jzon.specs.Value.{null};
ghost use Rattle.jzon.specs.View.{view};
ghost use Rattle.jzon_typed.specs.Decode.{IsErrorIn};
ghost use Rattle.jzon_typed.specs.DecodeExpected.{Refuses};
ghost use Rattle.jzon_typed.specs.DecodeMaps.{IsArrayOf, IsOneChar, ReadsEntries, ReadsItem, TakesEntries, TakesItem, TakesItems};
ghost use Rattle.jzon_typed.specs.Integers.{may_be_cut_in, natural_in, whole_in, IsNatural, IsNaturalBelow, IsWhole, IsWholeOf};

use super::elements::check_len;
use super::wrong::{cut, wrong};
use super::{Error, Expected, Fields, FromJson, element};
use jzon::JsonValue;
use jzon::number::Number;
use jzon_pointer::error::may_be_cut;
use std::alloc::Global;
use std::collections::BTreeMap;
use std::result::Result;

/// What was read, or the error of a value that isn't what is expected.
fn or_wrong<T>(
    alloc: Global,
    value: &JsonValue,
    read: Option<T>,
    expected: Expected,
) -> Result<T, Error>
    requires { read ≡ None → Refuses expected (view value.now) }
    ensures value { IfOk result (λ x. read ≡ Some x) }
    ensures error { IfErr result (IsErrorIn (view value.now)) }
    ensures takes { IsSome read → IsOk result }
{
    match read {
        Some(read) => Ok(read),
        None => Err(wrong(alloc, value, expected)),
    }
}

/// The integer that was read. It is an error if there is none, or if digits of the number may have
/// been cut.
fn integer<T: Drop>(
    alloc: Global,
    value: &JsonValue,
    read: Option<T>,
    expected: Expected,
) -> Result<T, Error>
    requires { read ≡ None → Refuses expected (view value.now) }
    ensures value { IfOk result (λ x. (read ≡ Some x) × (may_be_cut_in (view value.now) ≡ false)) }
    ensures error { IfErr result (IsErrorIn (view value.now)) }
    ensures takes { IsSome read → may_be_cut_in (view value.now) ≡ false → IsOk result }
{
    if read.is_some() && is_cut(value) {
        return Err(cut(alloc, value, expected));
    }
    or_wrong(alloc, value, read, expected)
}

/// Whether the value is a number of which digits may have been cut where its text was read: its
/// exponent isn't 0, and its mantissa is at least `u64::MAX / 10` (`may_be_cut`).
fn is_cut(value: &JsonValue) -> bool
    ensures { result ≡ may_be_cut_in (view value.now) }
{
    match value {
        JsonValue::Number(number) => may_be_cut(*number),
        _ => false,
    }
}

/// A copy of the value.
impl FromJson for JsonValue {
    ghost gives = { λ v w. view w ≡ v };

    ghost takes = { λ _. Unit {0} };

    fn from_json(alloc: Global, value: &JsonValue) -> Result<JsonValue, Error> {
        Ok(value.clone(alloc)?)
    }
}

impl FromJson for String {
    ghost gives = { λ v s. text_in v ≡ Some (string_bytes s) };

    ghost takes = { λ v. IsSome (text_in v) };

    fn from_json(alloc: Global, value: &JsonValue) -> Result<String, Error> {
        match value.as_str() {
            Some(text) => Ok(String::from_str(alloc, text)?),
            None => Err(wrong(alloc, value, Expected::String)),
        }
    }
}

/// A string of exactly one character.
impl FromJson for char {
    ghost gives = { λ v c. text_in v ≡ Some (encode_utf8 c) };

    ghost takes = { IsOneChar };

    fn from_json(alloc: Global, value: &JsonValue) -> Result<char, Error> {
        let expected = Expected::Other("a string of one character");
        or_wrong(alloc, value, char_in(value), expected)
    }
}

impl FromJson for bool {
    ghost gives = { λ v b. truth_in v ≡ Some b };

    ghost takes = { λ v. IsSome (truth_in v) };

    fn from_json(alloc: Global, value: &JsonValue) -> Result<bool, Error> {
        or_wrong(alloc, value, value.as_bool(), Expected::Boolean)
    }
}

impl FromJson for Number {
    ghost gives = { λ v n. number_in v ≡ Some n };

    ghost takes = { λ v. IsSome (number_in v) };

    fn from_json(alloc: Global, value: &JsonValue) -> Result<Number, Error> {
        or_wrong(alloc, value, value.as_number(), Expected::Number)
    }
}

impl FromJson for u8 {
    ghost gives = { IsNatural };

    ghost takes = { IsNaturalBelow (2 ^ 8) };

    #[tactic(auto, using(crate::proofs::IntegerSteps::integers))]
    fn from_json(alloc: Global, value: &JsonValue) -> Result<u8, Error> {
        integer(alloc, value, u8_in(value), Expected::U8)
    }
}

impl FromJson for u16 {
    ghost gives = { IsNatural };

    ghost takes = { IsNaturalBelow (2 ^ 16) };

    #[tactic(auto, using(crate::proofs::IntegerSteps::integers))]
    fn from_json(alloc: Global, value: &JsonValue) -> Result<u16, Error> {
        integer(alloc, value, u16_in(value), Expected::U16)
    }
}

impl FromJson for u32 {
    ghost gives = { IsNatural };

    ghost takes = { IsNaturalBelow (2 ^ 32) };

    #[tactic(auto, using(crate::proofs::IntegerSteps::integers))]
    fn from_json(alloc: Global, value: &JsonValue) -> Result<u32, Error> {
        integer(alloc, value, u32_in(value), Expected::U32)
    }
}

impl FromJson for u64 {
    ghost gives = { IsNatural };

    ghost takes = { IsNaturalBelow (2 ^ 64) };

    #[tactic(auto, using(crate::proofs::IntegerSteps::integers))]
    fn from_json(alloc: Global, value: &JsonValue) -> Result<u64, Error> {
        integer(alloc, value, natural(value), Expected::U64)
    }
}

impl FromJson for usize {
    ghost gives = { IsNatural };

    ghost takes = { IsNaturalBelow (2 ^ 64) };

    #[tactic(auto, using(crate::proofs::IntegerSteps::integers))]
    fn from_json(alloc: Global, value: &JsonValue) -> Result<usize, Error> {
        integer(alloc, value, usize_in(value), Expected::U64)
    }
}

impl FromJson for i8 {
    ghost gives = { IsWhole };

    ghost takes = { IsWholeOf w8 };

    #[tactic(auto, using(crate::proofs::IntegerSteps::integers))]
    fn from_json(alloc: Global, value: &JsonValue) -> Result<i8, Error> {
        integer(alloc, value, i8_in(value), Expected::I8)
    }
}

impl FromJson for i16 {
    ghost gives = { IsWhole };

    ghost takes = { IsWholeOf w16 };

    #[tactic(auto, using(crate::proofs::IntegerSteps::integers))]
    fn from_json(alloc: Global, value: &JsonValue) -> Result<i16, Error> {
        integer(alloc, value, i16_in(value), Expected::I16)
    }
}

impl FromJson for i32 {
    ghost gives = { IsWhole };

    ghost takes = { IsWholeOf w32 };

    #[tactic(auto, using(crate::proofs::IntegerSteps::integers))]
    fn from_json(alloc: Global, value: &JsonValue) -> Result<i32, Error> {
        integer(alloc, value, i32_in(value), Expected::I32)
    }
}

impl FromJson for i64 {
    ghost gives = { IsWhole };

    ghost takes = { IsWholeOf w64 };

    #[tactic(auto, using(crate::proofs::IntegerSteps::integers))]
    fn from_json(alloc: Global, value: &JsonValue) -> Result<i64, Error> {
        integer(alloc, value, whole(value), Expected::I64)
    }
}

impl FromJson for isize {
    ghost gives = { IsWhole };

    ghost takes = { IsWholeOf w64 };

    #[tactic(auto, using(crate::proofs::IntegerSteps::integers))]
    fn from_json(alloc: Global, value: &JsonValue) -> Result<isize, Error> {
        integer(alloc, value, isize_in(value), Expected::I64)
    }
}

/// Null is `None`.
impl<T: FromJson> FromJson for Option<T> {
    ghost gives = { λ v o. MatchOption o (v ≡ null) (λ x. (v ≡ null → ⊥) × T.gives v x) };

    ghost takes = { λ v. (v ≡ null) ⊎ T.takes v };

    fn from_json(alloc: Global, value: &JsonValue) -> Result<Option<T>, Error> {
        if value.is_null() {
            return Ok(None);
        }
        Ok(Some(T::from_json(alloc, value)?))
    }
}

impl<T: FromJson> FromJson for Vec<T> {
    ghost gives = { λ v xs. (is_array v ≡ true) × AllZip T.gives (items v) xs.items };

    ghost takes = { TakesItems T.takes };

    fn from_json(alloc: Global, value: &JsonValue) -> Result<Vec<T>, Error> {
        let JsonValue::Array(items) = value else {
            return Err(wrong(alloc, value, Expected::Array));
        };
        let mut list = Vec::with_capacity(alloc, items.len())?;
        for (index, item) in items.iter().enumerate() {
            match T::from_json(alloc, item) {
                Ok(read) => list.push(read)?,
                Err(error) => return Err(error.below_index(alloc, index)),
            }
        }
        Ok(list)
    }
}

impl<T: FromJson> FromJson for Box<T> {
    ghost gives = { λ v b. T.gives v b.value };

    ghost takes = { T.takes };

    fn from_json(alloc: Global, value: &JsonValue) -> Result<Box<T>, Error> {
        Ok(Box::new(alloc, T::from_json(alloc, value)?)?)
    }
}

/// The elements of an array of two.
impl<A: FromJson, B: FromJson> FromJson for (A, B) {
    ghost gives = { λ v p. IsArrayOf 2 v × ReadsItem v 0 A.gives p.0 × ReadsItem v 1 B.gives p.1 };

    ghost takes = { λ v. IsArrayOf 2 v × TakesItem v 0 A.takes × TakesItem v 1 B.takes };

    fn from_json(alloc: Global, value: &JsonValue) -> Result<(A, B), Error> {
        check_len(alloc, value, 2)?;
        Ok((element(alloc, value, 0)?, element(alloc, value, 1)?))
    }
}

/// The elements of an array of three.
impl<A: FromJson, B: FromJson, C: FromJson> FromJson for (A, B, C) {
    ghost gives = { λ v p. IsArrayOf 3 v × ReadsItem v 0 A.gives p.0 × ReadsItem v 1 B.gives p.1
        × ReadsItem v 2 C.gives p.2 };

    ghost takes = { λ v. IsArrayOf 3 v × TakesItem v 0 A.takes × TakesItem v 1 B.takes
        × TakesItem v 2 C.takes };

    fn from_json(alloc: Global, value: &JsonValue) -> Result<(A, B, C), Error> {
        check_len(alloc, value, 3)?;
        Ok((
            element(alloc, value, 0)?,
            element(alloc, value, 1)?,
            element(alloc, value, 2)?,
        ))
    }
}

impl<T: FromJson> FromJson for BTreeMap<String, T> {
    ghost gives = { λ v m. (is_object v ≡ true) × ReadsEntries T.gives v (tree.get_by_text m)
        × tree.IsOrdered string_cmp m };

    ghost takes = { TakesEntries T.takes };

    fn from_json(alloc: Global, value: &JsonValue) -> Result<BTreeMap<String, T>, Error> {
        let fields = Fields::of(alloc, value)?;
        let mut map = BTreeMap::new(alloc);
        // `read` looks the key up again, and puts it before the pointer of an error.
        for key in fields.object.keys() {
            let entry = fields.read(key)?;
            map.insert(String::from_str(alloc, key)?, entry)?;
        }
        Ok(map)
    }
}

/// The character of a string that has exactly one.
fn char_in(value: &JsonValue) -> Option<char>
    ensures some { IfSome result (λ c. text_in (view value.now) ≡ Some (encode_utf8 c)) }
    ensures one { IsOneChar (view value.now) → IsSome result }
{
    only_char(value.as_str()?)
}

/// The character of a text that has exactly one, else `None`.
fn only_char(text: &str) -> Option<char>
    ensures some { IfSome result (λ c. text.now ≡ encode_utf8 c) }
    ensures one { (c : ℕ) → IsScalar c → text.now ≡ encode_utf8 c → IsSome result }
{
    let mut chars = text.chars();
    let first = chars.next()?;
    match chars.next() {
        Some(_second) => None,
        None => Some(first),
    }
}

/// The integer that a number is, if it fits `i64`: 100 also of `1e2` and `100.0`, which `as_i64`
/// doesn't take.
#[tactic(auto, using(crate::proofs::IntegerSteps::integers))]
fn whole(value: &JsonValue) -> Option<i64>
    ensures { SomeWhere (whole_in (view value.now)) (FitsSigned w64) result }
{
    if let Some(integer) = value.as_i64() {
        return Some(integer);
    }
    value.as_exact_fixed_point_i64(0)
}

/// The integer that a number is, if it fits `u64`: 0 also of `-0`.
#[tactic(auto, using(crate::proofs::IntegerSteps::integers))]
fn natural(value: &JsonValue) -> Option<u64>
    ensures { SomeWhere (natural_in (view value.now)) (λ n. n < 2 ^ 64) result }
{
    if let Some(integer) = value.as_u64() {
        return Some(integer);
    }
    if let Some(integer) = value.as_exact_fixed_point_u64(0) {
        return Some(integer);
    }
    if whole(value)? == 0 { Some(0) } else { None }
}

fn u8_in(value: &JsonValue) -> Option<u8>
    ensures { SomeWhere (natural_in (view value.now)) (λ n. n < 2 ^ 8) result }
{
    u8::try_from(natural(value)?).ok()
}

fn u16_in(value: &JsonValue) -> Option<u16>
    ensures { SomeWhere (natural_in (view value.now)) (λ n. n < 2 ^ 16) result }
{
    u16::try_from(natural(value)?).ok()
}

fn u32_in(value: &JsonValue) -> Option<u32>
    ensures { SomeWhere (natural_in (view value.now)) (λ n. n < 2 ^ 32) result }
{
    u32::try_from(natural(value)?).ok()
}

fn usize_in(value: &JsonValue) -> Option<usize>
    ensures { SomeWhere (natural_in (view value.now)) (λ n. n < 2 ^ 64) result }
{
    usize::try_from(natural(value)?).ok()
}

fn i8_in(value: &JsonValue) -> Option<i8>
    ensures { SomeWhere (whole_in (view value.now)) (FitsSigned w8) result }
{
    i8::try_from(whole(value)?).ok()
}

fn i16_in(value: &JsonValue) -> Option<i16>
    ensures { SomeWhere (whole_in (view value.now)) (FitsSigned w16) result }
{
    i16::try_from(whole(value)?).ok()
}

fn i32_in(value: &JsonValue) -> Option<i32>
    ensures { SomeWhere (whole_in (view value.now)) (FitsSigned w32) result }
{
    i32::try_from(whole(value)?).ok()
}

fn isize_in(value: &JsonValue) -> Option<isize>
    ensures { SomeWhere (whole_in (view value.now)) (FitsSigned w64) result }
{
    isize::try_from(whole(value)?).ok()
}

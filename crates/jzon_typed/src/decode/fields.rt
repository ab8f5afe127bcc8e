//! The entries of an object, read by their keys.

ghost use Rattle.std.specs.Prelude.{◌≡◌, ◌≤◌, ◌⊎◌, ◌↔◌, None, Some, IfOk, IfErr, IfSome, IsOk, IsOkUnless, Ok, map, not, option_map, true};
ghost use Rattle.std.specs.List.{find as first};
ghost use Rattle.std.specs.Option.{option_copied};
ghost use Rattle.jzon.specs.Entries.{entries_of};
ghost use Rattle.jzon.specs.PairList.{find, keys_of};
ghost use Rattle.jzon.specs.Readers.{count, entries, exact_fixed_point_in, is_object, text_in};
ghost use Rattle.jzon.specs.Value.{Value};
ghost use Rattle.jzon.specs.View.{view};
ghost use Rattle.jzon_pointer.specs.Errors.{memory};
ghost use Rattle.jzon_typed.specs.Decode.{HidesValue, IsErrorIn};
ghost use Rattle.jzon_typed.specs.DecodeFields.{IsAbsent, AllAmong, ReadsEntry, TakesEntry, read_from};
ghost use Rattle.jzon_typed.specs.DecodeExpected.{Refuses};
ghost use Rattle.jzon_pointer.specs.Names.{is_among};

use super::wrong::{missing, unknown, wrong};
use super::{Error, Expected, FromJson, Known, What};
use jzon::JsonValue;
use jzon::object::Object;
use jzon_pointer::names::is_among;
use std::alloc::Global;
use std::result::Result;

/// An object that is read by its keys. The pointer of an error leads from it: if it is inside
/// another one, `Error::below_key` puts its key before.
#[derive(Clone, Copy)]
pub struct Fields<'v> {
    /// What allocates the results and the errors.
    pub alloc: Global,
    /// The object itself.
    pub object: &'v Object,
}

impl<'v> Fields<'v> {
    /// The entries of a value, which must be an object.
    pub fn of(alloc: Global, value: &'v JsonValue) -> Result<Fields<'v>, Error>
        ensures value { IfOk result (λ f. read_from f ≡ view value.now) }
        ensures error { IfErr result (IsErrorIn (view value.now)) }
        ensures accepts { IsOk result ↔ (is_object (view value.now) ≡ true) }
    {
        match value {
            JsonValue::Object(object) => Ok(Fields { alloc, object }),
            _ => Err(wrong(alloc, value, Expected::Object)),
        }
    }

    /// The entries of a value, which must be an object without other keys than the known ones. Of
    /// others the first is reported.
    pub fn only(alloc: Global, value: &'v JsonValue, known: Known) -> Result<Fields<'v>, Error>
        ensures value { IfOk result (λ f. read_from f ≡ view value.now) }
        ensures error { IfErr result (IsErrorIn (view value.now)) }
        ensures accepts { IsOk result ↔ ((is_object (view value.now) ≡ true)
            × AllAmong (map (λ n. n.now) known.now) (view value.now)) }
    {
        let fields = Fields::of(alloc, value)?;
        fields.deny_unknown(known)?;
        Ok(fields)
    }

    /// Fails if a key isn't among the known ones. Called before an entry is read, it reports a
    /// misspelt key as unknown, and not the right one as missing.
    pub fn deny_unknown(&self, known: Known) -> Result<(), Error>
        ensures error { IfErr result (IsErrorIn (read_from self.now)) }
        ensures accepts { IsOk result ↔ AllAmong (map (λ n. n.now) known.now) (read_from self.now) }
    {
        match unknown_key(self.object, known) {
            Some(key) => Err(unknown(self.alloc, key, known)),
            None => Ok(()),
        }
    }

    /// The entry's value, read as a type. A missing entry is an error, also of an `Option`.
    pub fn read<T: FromJson>(&self, key: &str) -> Result<T, Error>
        ensures value { IfOk result (ReadsEntry self.now key.now T.gives) }
        ensures error { IfErr result (IsErrorIn (read_from self.now)) }
        ensures takes { TakesEntry self.now key.now T.takes → IsOkUnless result memory }
    {
        match self.entry(key) {
            Some(value) => self.below(key, value),
            None => Err(self.missing_as::<T>(key)),
        }
    }

    /// The entry's value, read as a type, or the default if it is missing or null, even for a type
    /// that takes null: so a later layer of a configuration can unset an entry (`merge::layer`).
    pub fn read_or<T: FromJson>(&self, key: &str, default: T) -> Result<T, Error>
        ensures value { IfOk result (λ x.
            (IsAbsent (find key.now (entries (read_from self.now))) × (x ≡ default))
            ⊎ ReadsEntry self.now key.now T.gives x) }
        ensures absent { IsAbsent (find key.now (entries (read_from self.now)))
            → result ≡ Ok default }
        ensures error { IfErr result (IsErrorIn (read_from self.now)) }
        ensures takes { TakesEntry self.now key.now T.takes → IsOkUnless result memory }
    {
        match self.present(key) {
            Some(value) => self.below(key, value),
            None => Ok(default),
        }
    }

    /// The entry's value, read as a type, or `None` if it is missing or null.
    pub fn optional<T: FromJson>(&self, key: &str) -> Result<Option<T>, Error>
        ensures none { IfOk result (λ o. o ≡ None
            → IsAbsent (find key.now (entries (read_from self.now)))) }
        ensures some { IfOk result (λ o. IfSome o (ReadsEntry self.now key.now T.gives)) }
        ensures absent { IsAbsent (find key.now (entries (read_from self.now)))
            → result ≡ Ok None }
        ensures error { IfErr result (IsErrorIn (read_from self.now)) }
        ensures takes { TakesEntry self.now key.now T.takes → IsOkUnless result memory }
    {
        match self.present(key) {
            Some(value) => Ok(Some(self.below(key, value)?)),
            None => Ok(None),
        }
    }

    /// The entry's string, which isn't copied: it borrows the value. Anything else, or a missing
    /// entry, is an error.
    pub fn str(&self, key: &str) -> Result<&'v str, Error>
        ensures value { IfOk result (ReadsEntry self.now key.now (λ w s. text_in w ≡ Some s.now)) }
        ensures error { IfErr result (IsErrorIn (read_from self.now)) }
    {
        let Some(value) = self.entry(key) else {
            return Err(self.missing(key, Expected::String));
        };
        match value.as_str() {
            Some(text) => Ok(text),
            None => Err(self.wrong(key, value, Expected::String)),
        }
    }

    /// The entry's number with the point moved right by `point` digits: with 2, `19.9` is 1990. A
    /// number with more digits after the point, NaN, or what doesn't fit is an error.
    pub fn fixed_point(&self, key: &str, point: u16) -> Result<i64, Error>
        ensures value { IfOk result (ReadsEntry self.now key.now
            (λ w n. exact_fixed_point_in w point ≡ Some n)) }
        ensures error { IfErr result (IsErrorIn (read_from self.now)) }
    {
        let Some(value) = self.entry(key) else {
            return Err(self.missing(key, Expected::Fixed(point)));
        };
        match value.as_exact_fixed_point_i64(point) {
            Some(units) => Ok(units),
            None => Err(self.wrong(key, value, Expected::Fixed(point))),
        }
    }

    /// The entry's array, of at most `most` elements, as a list. A longer one is refused before an
    /// element is read.
    pub fn list<T: FromJson>(&self, key: &str, most: usize) -> Result<Vec<T>, Error>
        ensures value { IfOk result (ReadsEntry self.now key.now
            (λ w xs. ⟦<Vec<T> as FromJson>⟧.gives w xs × (count w ≤ most))) }
        ensures error { IfErr result (IsErrorIn (read_from self.now)) }
    {
        let Some(value) = self.entry(key) else {
            return Err(self.missing(key, Expected::AtMost(most)));
        };
        if value.len() > most {
            return Err(self.wrong(key, value, Expected::AtMost(most)));
        }
        self.below(key, value)
    }

    /// The error of an entry that a caller's own test refuses, or that is missing. The words say
    /// what it expects.
    pub fn expected(&self, key: &str, expected: &'static str) -> Error
        ensures { IsErrorIn (read_from self.now) result }
    {
        match self.entry(key) {
            Some(value) => self.wrong(key, value, Expected::Other(expected)),
            None => self.missing(key, Expected::Other(expected)),
        }
    }

    /// The error of an entry that a caller's own test refuses, as a password: of a boolean, a
    /// number or a string the message has the type alone.
    ///
    /// ```rust
    /// return Err(login.expected_hidden("pin", "another number"));
    /// ```
    #[tactic(auto, using(crate::proofs::DecodeSteps::hidden))]
    pub fn expected_hidden(&self, key: &str, expected: &'static str) -> Error
        ensures error { IsErrorIn (read_from self.now) result }
        ensures hidden { HidesValue result }
    {
        self.expected(key, expected).without_value()
    }

    /// The entry's value, if there is one.
    #[tactic(auto, using(crate::proofs::DecodeViews::reading))]
    fn entry(&self, key: &str) -> Option<&'v JsonValue>
        ensures { option_map (λ v. view v.now) result
            ≡ find key.now (entries (read_from self.now)) }
    {
        self.object.get(key)
    }

    /// The entry's value, if there is one that isn't null.
    #[tactic(auto, using(crate::proofs::FieldSteps::absent))]
    fn present(&self, key: &str) -> Option<&'v JsonValue>
        ensures some { IfSome result (λ v. find key.now (entries (read_from self.now))
            ≡ Some (view v.now)) }
        ensures none { result ≡ None → IsAbsent (find key.now (entries (read_from self.now))) }
        ensures absent { IsAbsent (find key.now (entries (read_from self.now))) → result ≡ None }
    {
        let value = self.entry(key)?;
        if value.is_null() { None } else { Some(value) }
    }

    /// Reads `value`, which is the entry's, as a type, and puts the key before the pointer of an
    /// error.
    fn below<T: FromJson>(&self, key: &str, value: &JsonValue) -> Result<T, Error>
        requires { find key.now (entries (read_from self.now)) ≡ Some (view value.now) }
        ensures value { IfOk result (T.gives (view value.now)) }
        ensures error { IfErr result (IsErrorIn (read_from self.now)) }
        ensures takes { T.takes (view value.now) → IsOkUnless result memory }
    {
        match T::from_json(self.alloc, value) {
            Ok(read) => Ok(read),
            Err(error) => Err(error.below_key(self.alloc, key)),
        }
    }

    /// The error of the missing entry of this type. Null is read as the type only to learn from
    /// that error what the type expects; a type that takes null expects any value.
    #[cold]
    fn missing_as<T: FromJson>(&self, key: &str) -> Error
        requires { find key.now (entries (read_from self.now)) ≡ None }
        ensures { IsErrorIn (read_from self.now) result }
    {
        let Err(error) = T::from_json(self.alloc, &JsonValue::Null) else {
            return self.missing(key, Expected::Value);
        };
        match error.what() {
            Some(What::Wrong { expected, .. }) => self.missing(key, *expected),
            Some(_) => self.missing(key, Expected::Value),
            None => Error::MEMORY,
        }
    }

    /// The error of the missing entry.
    fn missing(&self, key: &str, expected: Expected) -> Error
        requires { find key.now (entries (read_from self.now)) ≡ None }
        ensures { IsErrorIn (read_from self.now) result }
    {
        missing(self.alloc, key, expected)
    }

    /// The error of an entry whose value isn't what is expected.
    fn wrong(&self, key: &str, value: &JsonValue, expected: Expected) -> Error
        requires entry { find key.now (entries (read_from self.now)) ≡ Some (view value.now) }
        requires refused { Refuses expected (view value.now) }
        ensures { IsErrorIn (read_from self.now) result }
    {
        wrong(self.alloc, value, expected).below_key(self.alloc, key)
    }
}

/// The first key of the object that isn't among the names.
fn unknown_key<'v>(object: &'v Object, names: &[&str]) -> Option<&'v str>
    ensures { option_copied result ≡ first (λ k. not (is_among (map (λ n. n.now) names.now) k))
        (keys_of (entries_of object.now)) }
{
    object.keys().find(|key| !is_among(names, key))
}

//! An error with its place in the text of which the value was read.

ghost use Rattle.std.specs.Prelude.{◌≡◌, ◌∷◌, ◌++◌, [], ⊤, ℕ, IfOk, IfSome, IsOk, List, MatchOption, Some};
ghost use Rattle.jzon_pointer.specs.Errors.{member_of, operation_of, place_of, pointer_of, what_of, Becomes};
ghost use Rattle.jzon_pointer.specs.Escaped.{escaped};
ghost use Rattle.jzon_pointer.specs.Locate.{IsPlaceIn};
ghost use Rattle.jzon_pointer.specs.Placed.{IsFoundWhole, IsPlaceBy, IsPlacedBy};

use super::{Error, What};
use crate::locate;
use jzon::{Place, Reading};
use std::alloc::Global;

impl Error {
    /// This error with its place in the text of which the value was read by this reading. That of a
    /// missing entry is its object's, and that of an unknown one its key's. There is none if the
    /// pointer names nothing, or memory runs out meanwhile, which the whole value's place doesn't
    /// need. An error without `what` stays as it is.
    ///
    /// ```rust
    /// let placed = error.in_text(rt.alloc(), REPEATED, &Reading::USUAL);
    /// ```
    #[tactic(auto, using(crate::proofs::PlacedSteps::placing))]
    pub fn in_text(self, alloc: Global, text: &str, reading: &Reading) -> Error
        ensures error { Becomes self result (what_of self) (pointer_of self) (operation_of self)
            (member_of self) (place_of result) }
        ensures place { MatchOption (what_of self) ⊤ (λ _. IfSome (place_of result)
            (IsPlaceIn text.now)) }
        ensures named { IsPlacedBy reading.now text.now result }
        ensures whole { MatchOption (what_of self) ⊤ (λ _.
            IsFoundWhole reading.now text.now (pointer_of self) (place_of result)) }
    {
        let place = place_in(alloc, &self, text, reading);
        self.at_place(place)
    }
}

/// The place that the error gets; `None` without `what`, a place, or memory.
#[tactic(auto, using(crate::proofs::PlacedSteps::placing))]
fn place_in(alloc: Global, error: &Error, text: &str, reading: &Reading) -> Option<Place>
    ensures place { IfSome result (IsPlaceIn text.now) }
    ensures named { IsPlaceBy reading.now text.now (what_of error.now) (pointer_of error.now) result }
    ensures whole { MatchOption (what_of error.now) ⊤ (λ _.
        IsFoundWhole reading.now text.now (pointer_of error.now) result) }
{
    let what = error.what()?;
    match place_at(alloc, what, error.pointer(), text, reading) {
        Ok(place) => place,
        Err(_refused) => None,
    }
}

/// The place of the value at a pointer; of a missing entry its object's, of an unknown one its
/// key's.
#[tactic(auto, using(crate::proofs::PlacedSteps::placing))]
fn place_at(
    alloc: Global,
    what: &What,
    pointer: &str,
    text: &str,
    reading: &Reading,
) -> jzon::Result<Option<Place>>
    ensures place { IfOk result (λ found. IfSome found (IsPlaceIn text.now)) }
    ensures named { IfOk result (IsPlaceBy reading.now text.now (Some what.now) pointer.now) }
    ensures whole { IfOk result (IsFoundWhole reading.now text.now pointer.now) }
    ensures free { pointer.now ≡ [] → IsOk result }
{
    match what {
        What::Missing(_) => locate::value_in(alloc, text, parent(pointer), reading),
        What::Unknown(_) => locate::key_in(alloc, text, pointer, reading),
        _ => locate::value_in(alloc, text, pointer, reading),
    }
}

/// The pointer without its last token, or all of one without `/`. The token of a key has none: it
/// is `~1` there.
fn parent(pointer: &str) -> &str
    ensures parent { (q k : List ℕ) → pointer.now ≡ q ++ 47 ∷ escaped k → result.now ≡ q }
    ensures whole { pointer.now ≡ [] → result.now ≡ [] }
{
    match pointer.rsplit_once('/') {
        Some((object, _key)) => object,
        None => pointer,
    }
}

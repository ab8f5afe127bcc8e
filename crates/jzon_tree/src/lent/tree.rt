//! The bodies of `get_mut`, `at_mut` and `at_index_mut`, in a trait whose nodes are of another type
//! than the tree, which the checker needs to prove `writes_back`.
//!
//! In clauses `with_default key null` are the entries once the key is there, `with_place null` the
//! elements once there is one for the index, and `place_in` is the position of that one.

ghost use Rattle.std.specs.Prelude.{◌≡◌, ◌≤◌, ◌<◌, List, ℕ, [], length, slice_get, slice_set, IfOk, IfSome, OnOk, OnErr, IsOkUnless, IsSome, MatchOption, Option, None, Some};
ghost use Rattle.std.specs.Borrow.{sem, Lends, LendsIf, LendsIfOk, LendsSoOk};
ghost use Rattle.std.specs.List.{position};
ghost use Rattle.std.specs.Str.{bytes_eq};
ghost use Rattle.std.specs.Global.{Vec};
ghost use Rattle.std.specs.Option.{option_copied_mut};
ghost use Rattle.jzon_base.specs.PairList.{find, keys_of, put, with_default};
ghost use Rattle.jzon_base.specs.contracts.pairs.Pairs.{the_row as pairs_row};
ghost use Rattle.jzon_tree.specs.Entries.{with_entries};
ghost use Rattle.jzon_tree.specs.Lent.{entries_in, items_in, with_place, place_in, entries_in-object, items_in-array};
ghost use Rattle.jzon_tree.specs.LentTypes.{vec_row};
ghost use Rattle.jzon_tree.specs.Value.{Value};
ghost use Rattle.jzon_tree.specs.View.{view};
ghost use Rattle.jzon_tree.specs.declared.value.JsonValue.{Object as object_value, Array as array_value, Null as null_value};

use crate::object::Object;
use crate::value::JsonValue;
use jzon_base::error::{Error, Result};
use jzon_base::pairs::Pairs;
use std::alloc::Global;

/// A value that may be an object or an array of nodes, as a `JsonValue` is of values. `final` says
/// that no implementation overrides a method.
pub trait Tree {
    type Node;

    // The null node.
    ghost null: { Self.Node };

    // The entries of an object, none of another value; and the object of given entries.
    ghost pairs: { Self → List (List ℕ × Self.Node) };

    ghost object: { List (List ℕ × Self.Node) → Self };

    ghost pairs_of_object: { (ps : List (List ℕ × Self.Node)) → pairs (object ps) ≡ ps };

    // The elements of an array; and the array of given elements.
    ghost items: { Self → Option (List Self.Node) };

    ghost array: { Vec Self.Node → Self };

    ghost items_of_array: { (vs : Vec Self.Node) → items (array vs) ≡ Some vs.items };

    // What the value means, whatever its capacity.
    ghost meaning: { Self → Value };

    /// The entries of an object. `None` for any other value, whose `pairs` are `[]`.
    fn pairs_mut(&mut self) -> Option<&mut Pairs<Self::Node>>
        ensures* writes_back { sem 𝓛 (LendsIf Self.row
            (pairs_row Self.Node.row) self.entry result object self.old) }
        ensures value { MatchOption result (pairs self.old ≡ [])
            (λ lent. (lent.now ≡ pairs self.old) × (object (pairs self.old) ≡ self.old)) };

    /// Makes the value an object that has the key, with null if it was missing, and returns the
    /// key's position.
    fn make_key(&mut self, alloc: Global, key: &str) -> Result<usize>
        ensures position { IfOk result (λ i. position (λ k. bytes_eq k key.now)
            (keys_of (with_default key.now null (pairs self.old))) ≡ Some i) }
        ensures ok { OnOk result (self.new ≡ object (with_default key.now null (pairs self.old))) }
        ensures err { OnErr result (self.new ≡ self.old) }
        ensures present { OnErr result (find key.now (pairs self.old) ≡ None) }
        ensures memory { IsOkUnless result Error.OutOfMemory };

    /// Makes the value an array that has an element for the index. Past the end one null is appended;
    /// any other value becomes `[null]` for index 0, else `[null,null]`.
    fn make_place(&mut self, alloc: Global, index: usize) -> Result<()>
        ensures ok { OnOk result (items self.new ≡ Some (with_place null (items self.old) index)) }
        ensures err { OnErr result (meaning self.new ≡ meaning self.old) }
        ensures present { OnErr result (IfSome (items self.old) (λ xs. length xs ≤ index)) }
        ensures memory { IsOkUnless result Error.OutOfMemory };

    /// The elements of the value, which must be an array.
    fn array_items(&mut self) -> &mut Vec<Self::Node>
        requires { IsSome (items self.old) }
        ensures* writes_back { sem 𝓛 (Lends Self.row
            (vec_row Self.Node.row) self.entry result array) }
        ensures value { Some result.now.items ≡ items self.old };

    /// The node of an object's key, for `get_mut`. `None` if the key is missing.
    final fn get_in(&mut self, key: &str) -> Option<&mut Self::Node>
        ensures* writes_back { sem 𝓛 (LendsIf Self.row Self.Node.row self.entry result
            (λ w. object (put key.now w (pairs self.old))) self.old) }
        ensures value { option_copied_mut result ≡ find key.now (pairs self.old) }
    {
        let pairs = self.pairs_mut()?;
        pairs.get_mut(key)
    }

    /// The node of an object's key, for `at_mut`. A missing key is added with null.
    final fn at_in(&mut self, alloc: Global, key: &str) -> Result<&mut Self::Node>
        ensures* writes_back { sem 𝓛 (LendsIfOk Self.row Self.Node.row self.entry result
            (λ w. object (put key.now w (pairs self.old))) self.old) }
        ensures value { IfOk result (λ place. Some place.now ≡
            find key.now (with_default key.now null (pairs self.old))) }
        ensures present { OnErr result (find key.now (pairs self.old) ≡ None) }
        ensures memory { IsOkUnless result Error.OutOfMemory }
    {
        let index = self.make_key(alloc, key)?;
        match self.pairs_mut() {
            Some(pairs) => Ok(pairs.value_mut(index)),
            // `make_key` left an object.
            None => unreachable!(),
        }
    }

    /// The element at an index, for `at_index_mut`; if there was none, the last null that `make_place`
    /// added.
    #[tactic(auto, using(crate::proofs::Values::LentPositions::place_is))]
    final fn at_index_in(&mut self, alloc: Global, index: usize) -> Result<&mut Self::Node>
        ensures* writes_back { sem 𝓛 (LendsSoOk Self.row Self.Node.row self.entry result
            (λ n w. items n ≡ Some (slice_set (with_place null (items self.old) index)
            (place_in (items self.old) index) w))
            (λ n. meaning n ≡ meaning self.old)) }
        ensures value { IfOk result (λ place. slice_get (with_place null (items self.old) index)
            (place_in (items self.old) index) ≡ Some place.now) }
        ensures present { OnErr result (IfSome (items self.old) (λ xs. length xs ≤ index)) }
        ensures memory { IsOkUnless result Error.OutOfMemory }
    {
        self.make_place(alloc, index)?;
        let items = self.array_items();
        let place = index.min(items.len() - 1);
        Ok(&mut items[place])
    }
}

impl Tree for JsonValue {
    type Node = JsonValue;

    ghost null = { null_value };

    ghost pairs = { entries_in };

    ghost object = { λ ps. object_value (with_entries ps) };

    ghost pairs_of_object = { entries_in-object };

    ghost items = { items_in };

    ghost array = { array_value };

    ghost items_of_array = { items_in-array };

    ghost meaning = { view };

    fn pairs_mut(&mut self) -> Option<&mut Pairs<JsonValue>> {
        let object = self.as_object_mut()?;
        Some(&mut object.pairs)
    }

    fn make_key(&mut self, alloc: Global, key: &str) -> Result<usize> {
        if let JsonValue::Object(object) = self {
            // `place` puts a missing key last and returns the key's position.
            return Ok(object.pairs.place(alloc, key, JsonValue::Null)?);
        }
        let mut object = Object::new(alloc);
        object.insert(alloc, key, JsonValue::Null)?;
        // The key is at position 0.
        *self = JsonValue::Object(object);
        Ok(0)
    }

    fn make_place(&mut self, alloc: Global, index: usize) -> Result<()> {
        if let JsonValue::Array(items) = self {
            if items.len() <= index {
                items.reserve(1)?;
                items.push_reserved(JsonValue::Null);
            }
            return Ok(());
        }
        // What can fail comes first.
        let mut items = Vec::with_capacity(alloc, 2)?;
        items.push_reserved(JsonValue::Null);
        if index != 0 {
            items.push_reserved(JsonValue::Null);
        }
        *self = JsonValue::Array(items);
        Ok(())
    }

    fn array_items(&mut self) -> &mut Vec<JsonValue> {
        match self {
            JsonValue::Array(items) => items,
            _ => unreachable!(),
        }
    }
}

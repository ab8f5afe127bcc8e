//! Writes into a value, for callers whose proof needs what the value is afterwards. Each has its body
//! in a function `.._in` over the trait `Tree`, as the proof needs nodes of another type.
#![tactic(auto, using(crate::proofs::Values::WriteViews::written))]

ghost use Rattle.std.specs.Prelude.{◌≡◌, ◌≤◌, length, slice_set, IfSome, OnOk, OnErr, IsOkUnless, MatchOption, is_some, None, Some, true, false};
ghost use Rattle.jzon_base.specs.PairList.{find, put};
ghost use Rattle.jzon_tree.specs.Lent.{with_place, place_in, items_of};
ghost use Rattle.jzon_tree.specs.Readers.{entries};
ghost use Rattle.jzon_tree.specs.Value.{null, array, object, values_of, pairs_of};
ghost use Rattle.jzon_tree.specs.View.{view};

use super::tree::Tree;
use crate::value::JsonValue;
use jzon_base::error::{Error, Result};
use std::alloc::Global;

/// Writes `item` as the value of an object's key, and returns whether the key is present. If it
/// isn't, nothing changes, and `item` is dropped.
pub fn write_present(value: &mut JsonValue, key: &str, item: JsonValue) -> bool
    ensures found { result ≡ is_some (find key.now (entries (view value.old))) }
    ensures written { result ≡ true → view value.new ≡
        object (pairs_of (put key.now (view item) (entries (view value.old)))) }
    ensures kept { result ≡ false → value.new ≡ value.old }
{
    write_present_in(value, key, item)
}

/// Writes `item` as the value of an object's key. A value that isn't an object first becomes an empty
/// one, and a missing key is put last. Fails with `OutOfMemory` only, and then nothing has changed; a
/// present key needs no allocation.
pub fn write_at(value: &mut JsonValue, alloc: Global, key: &str, item: JsonValue) -> Result<()>
    ensures ok { OnOk result (view value.new ≡
        object (pairs_of (put key.now (view item) (entries (view value.old))))) }
    ensures err { OnErr result (value.new ≡ value.old) }
    ensures present { OnErr result (find key.now (entries (view value.old)) ≡ None) }
    ensures memory { IsOkUnless result Error.OutOfMemory }
{
    write_at_in(value, alloc, key, item)
}

/// Writes `item` as the element of an array at an index; past the end, it is appended. A value that
/// isn't an array becomes `[item]` for index 0, else `[null,item]`. Fails with `OutOfMemory` only,
/// and then the value means what it meant; an index in range needs no allocation.
pub fn write_at_index(
    value: &mut JsonValue,
    alloc: Global,
    index: usize,
    item: JsonValue,
) -> Result<()>
    ensures ok { OnOk result (view value.new ≡
        array (values_of (slice_set (with_place null (items_of (view value.old)) index)
        (place_in (items_of (view value.old)) index) (view item)))) }
    ensures err { OnErr result (view value.new ≡ view value.old) }
    ensures present { OnErr result (IfSome (items_of (view value.old))
        (λ items. length items ≤ index)) }
    ensures memory { IsOkUnless result Error.OutOfMemory }
{
    write_at_index_in(value, alloc, index, item)
}

/// `write_present` for any `Tree`.
fn write_present_in<T: Tree>(tree: &mut T, key: &str, value: T::Node) -> bool
where
    T::Node: Drop,
    ensures found { result ≡ is_some (find key.now (T.pairs tree.old)) }
    ensures after { MatchOption (find key.now (T.pairs tree.old)) (tree.new ≡ tree.old)
        (λ _. tree.new ≡ T.object (put key.now value (T.pairs tree.old))) }
{
    match tree.get_in(key) {
        Some(place) => {
            *place = value;
            true
        }
        None => false,
    }
}

/// `write_at` for any `Tree`.
fn write_at_in<T: Tree>(tree: &mut T, alloc: Global, key: &str, value: T::Node) -> Result<()>
where
    T::Node: Drop,
    ensures ok { OnOk result (tree.new ≡ T.object (put key.now value (T.pairs tree.old))) }
    ensures err { OnErr result (tree.new ≡ tree.old) }
    ensures present { OnErr result (find key.now (T.pairs tree.old) ≡ None) }
    ensures memory { IsOkUnless result Error.OutOfMemory }
{
    *tree.at_in(alloc, key)? = value;
    Ok(())
}

/// `write_at_index` for any `Tree`.
fn write_at_index_in<T: Tree>(
    tree: &mut T,
    alloc: Global,
    index: usize,
    value: T::Node,
) -> Result<()>
where
    T::Node: Drop,
    ensures ok { OnOk result (T.items tree.new
        ≡ Some (slice_set (with_place T.null (T.items tree.old) index)
        (place_in (T.items tree.old) index) value)) }
    ensures err { OnErr result (T.meaning tree.new ≡ T.meaning tree.old) }
    ensures present { OnErr result (IfSome (T.items tree.old) (λ items. length items ≤ index)) }
    ensures memory { IsOkUnless result Error.OutOfMemory }
{
    *tree.at_index_in(alloc, index)? = value;
    Ok(())
}

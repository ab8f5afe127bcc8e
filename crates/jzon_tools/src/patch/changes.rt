//! The patch that turns one value into another.
//!
//! `value`, `members`, `member`, `elements`, `change` and `element` call one another;
//! proofs/patch/changes/Changes/+diff says what gets smaller: the size of the old value.
//!
//! A method that turns, changes, removes or adds something appends the operations that do so.
//! `compared` says that both values are parts of ones that were compared as a whole, and differ.
//!
//! `AddsElements` has two pairs, from which state of an array to which: `(n, i)` has `n` elements
//! equal to the new ones, and then the old ones from index `i` on. `cut` and `extend` take both
//! arrays for the clauses: only if these aren't equal is anything removed or added.

ghost use Rattle.std.specs.Prelude.{◌≡◌, ◌≤◌, ◌+◌, ◌-◌, ◌<◌, ◌++◌, ◌∷◌, [], ℕ, IfOk, OnOk, IsOkUnless, drop, is_some, length, map, string_bytes, take, true};
ghost use Rattle.std.specs.Fmt.{decimal};
ghost use Rattle.std.specs.Option.{option_copied};
ghost use Rattle.jzon.specs.Entries.{entries_of};
ghost use Rattle.jzon.specs.PairList.{find};
ghost use Rattle.jzon.specs.Same.{same};
ghost use Rattle.jzon.specs.Value.{Value, array, no_values, values_of};
ghost use Rattle.jzon.specs.View.{view, viewed, view_object};
ghost use Rattle.jzon_tools.specs.Diff.{AddsChanges, AddsElements, AddsMember, Adds, AllSame, IsBelow, Removes, Replaces, TurnsInto, operations_of};

use jzon::object::Object;
use jzon::{Error, JsonValue, Result};
use jzon_pointer::push_token;
use std::alloc::Global;

/// A patch (RFC 6902) that turns the old value into one that is equal to the new one; `[]` if they
/// are equal. Objects are compared key by key, and arrays index by index, at each depth; of arrays of
/// different lengths the equal elements at the beginning and at the end are left as they are, and
/// what is between is changed, and then cut or added to. Anything else that differs is replaced, as
/// are values at a path of more than 512 bytes, and an array or an object of which so many parts are
/// removed, or inserted before others, that `apply` would shift more than 2^24 in it.
///
/// Takes time in proportion to both values, and memory for the patch: at most about 1,500 bytes for
/// each operation, beside the new values and the keys that it has. Goes at most 513 levels deep;
/// below, it only compares and clones.
///
/// ```rust
/// let patch = patch::diff(alloc, &old, &new)?;
/// patch::apply(alloc, &mut old, &patch)?; // old == new
/// ```
pub fn diff(alloc: Global, old: &JsonValue, new: &JsonValue) -> Result<JsonValue>
    ensures patch { IfOk result (λ p. TurnsInto (view old.now) (view new.now) (view p)) }
    ensures none { same (view old.now) (view new.now) ≡ true
        → IfOk result (λ p. view p ≡ array no_values) }
    ensures memory { IsOkUnless result Error.OutOfMemory }
{
    let mut changes = Changes {
        alloc,
        path: String::new(alloc),
        operations: Vec::new(alloc),
    };
    changes.value(old, new, false)?;
    Ok(JsonValue::Array(changes.operations))
}

/// In bytes. Values at a longer path are replaced as a whole: else a patch could be as large as a
/// long key times the changes below it.
const LONGEST_PATH: usize = 512;

/// In objects with more entries each value is a small part, and is first compared as a whole.
const SMALL_OBJECT: usize = 16;

/// How many elements or entries `apply` may shift for removals from one container, or insertions
/// into it: 2^24, a quarter of what `Limits::USUAL` allows for a patch.
const MOST_SHIFTED: usize = 16_777_216;

/// The operations so far, and the path of the values that are compared.
#[derive(Drop)]
struct Changes {
    alloc: Global,
    path: String,
    operations: Vec<JsonValue>,
}

impl Changes {
    /// Turns the value at the path into the new one. Elements of arrays, and members of objects of
    /// more than `SMALL_OBJECT`, are compared as a whole first, if not `compared`.
    #[cycle(diff)]
    fn value(&mut self, old: &JsonValue, new: &JsonValue, compared: bool) -> Result<()>
        ensures ok { OnOk result (AddsChanges (string_bytes self.old.path) (view old.now)
            (view new.now) (operations_of self.old) (operations_of self.new)) }
        ensures path { OnOk result (string_bytes self.new.path ≡ string_bytes self.old.path) }
        ensures memory { IsOkUnless result Error.OutOfMemory }
    {
        if self.path.len() > LONGEST_PATH || shifts_much(old, new) {
            return self.whole(old, new);
        }
        match (old, new) {
            (JsonValue::Object(from), JsonValue::Object(to)) => self.members(from, to, compared),
            (JsonValue::Array(from), JsonValue::Array(to)) => self.elements(from, to, compared),
            _ => self.whole(old, new),
        }
    }

    /// Replaces a value as a whole, if the new one differs.
    fn whole(&mut self, old: &JsonValue, new: &JsonValue) -> Result<()>
        ensures ok { OnOk result (AddsChanges (string_bytes self.old.path) (view old.now)
            (view new.now) (operations_of self.old) (operations_of self.new)) }
        ensures path { OnOk result (string_bytes self.new.path ≡ string_bytes self.old.path) }
        ensures memory { IsOkUnless result Error.OutOfMemory }
    {
        if old != new {
            let operation = replacing(self.alloc, self.path.as_str(), new)?;
            self.operations.push(operation)?;
        }
        Ok(())
    }

    /// Changes the entries of one object to those of another.
    #[cycle(diff)]
    fn members(&mut self, from: &Object, to: &Object, compared: bool) -> Result<()>
        ensures ok { OnOk result (AddsChanges (string_bytes self.old.path) (view_object from.now)
            (view_object to.now) (operations_of self.old) (operations_of self.new)) }
        ensures path { OnOk result (string_bytes self.new.path ≡ string_bytes self.old.path) }
        ensures memory { IsOkUnless result Error.OutOfMemory }
    {
        // Also for the proof: the contract of `len` says that no key repeats.
        if from.len().max(to.len()) == 0 {
            return Ok(());
        }
        // Where both look first for a key: only the time depends on it.
        let mut at = 0usize;
        for key in from.keys() {
            self.member(key, at, from, to, compared)?;
            at = at.wrapping_add(1);
        }
        at = 0;
        for added in to.keys() {
            let here = at;
            at = at.wrapping_add(1);
            if !has(from, here, added) {
                self.member(added, here, from, to, compared)?;
            }
        }
        Ok(())
    }

    /// Changes the entry of a key, which is first looked for at an index.
    #[cycle(diff)]
    fn member(
        &mut self,
        key: &str,
        at: usize,
        from: &Object,
        to: &Object,
        compared: bool,
    ) -> Result<()>
        ensures ok { OnOk result (AddsMember (string_bytes self.old.path) key.now
            (viewed (entries_of from.now)) (viewed (entries_of to.now))
            (operations_of self.old) (operations_of self.new)) }
        ensures path { OnOk result (string_bytes self.new.path ≡ string_bytes self.old.path) }
        ensures memory { IsOkUnless result Error.OutOfMemory }
    {
        let (old, new) = (look(from, at, key), look(to, at, key));
        let compares = !compared && from.len() > SMALL_OBJECT;
        if let (Some(old), Some(new)) = (old, new) {
            if (compares || is_primitive(new)) && old == new {
                return Ok(());
            }
        }
        let length = self.path.len();
        push_token(&mut self.path, key)?;
        match (old, new) {
            (Some(old), Some(new)) => self.value(old, new, compared || compares)?,
            (None, Some(new)) => self.add(new)?,
            (Some(_old), None) => self.remove()?,
            (None, None) => {}
        }
        self.path.truncate(length);
        Ok(())
    }

    /// Changes the elements of one array to those of another: between the equal elements at both
    /// ends those that both arrays have are changed, and the others cut or added.
    #[cycle(diff)]
    fn elements(&mut self, from: &[JsonValue], to: &[JsonValue], compared: bool) -> Result<()>
        ensures ok { OnOk result (AddsChanges (string_bytes self.old.path)
            (array (values_of (map view from.now))) (array (values_of (map view to.now)))
            (operations_of self.old) (operations_of self.new)) }
        ensures path { OnOk result (string_bytes self.new.path ≡ string_bytes self.old.path) }
        ensures memory { IsOkUnless result Error.OutOfMemory }
    {
        let (start, kept) = common(from, to);
        let both = from.len().min(to.len()) - kept;
        self.change(from, to, start, both, compared)?;
        self.cut(from, to, both, from.len() - kept)?;
        self.extend(from, to, both, to.len() - kept)
    }

    /// Changes the elements from index `start` to before `end`.
    #[cycle(diff)]
    fn change(
        &mut self,
        from: &[JsonValue],
        to: &[JsonValue],
        start: usize,
        end: usize,
        compared: bool,
    ) -> Result<()>
        requires range { (start ≤ end) × (end ≤ length from.now) × (end ≤ length to.now) }
        ensures ok { OnOk result (AddsElements (string_bytes self.old.path) (map view from.now)
            (map view to.now) (start, start) (end, end) (operations_of self.old)
            (operations_of self.new)) }
        ensures path { OnOk result (string_bytes self.new.path ≡ string_bytes self.old.path) }
        ensures memory { IsOkUnless result Error.OutOfMemory }
    {
        for index in start..end {
            self.element(from, to, index, compared)?;
        }
        Ok(())
    }

    /// Changes the element at an index, which both arrays have.
    #[cycle(diff)]
    fn element(
        &mut self,
        from: &[JsonValue],
        to: &[JsonValue],
        index: usize,
        compared: bool,
    ) -> Result<()>
        requires index { (index < length from.now) × (index < length to.now) }
        ensures ok { OnOk result (AddsElements (string_bytes self.old.path) (map view from.now)
            (map view to.now) (index, index) (index + 1, index + 1) (operations_of self.old)
            (operations_of self.new)) }
        ensures path { OnOk result (string_bytes self.new.path ≡ string_bytes self.old.path) }
        ensures memory { IsOkUnless result Error.OutOfMemory }
    {
        let (old, new) = (&from[index], &to[index]);
        if (!compared || is_primitive(new)) && old == new {
            return Ok(());
        }
        let length = self.path.len();
        push_index(&mut self.path, index)?;
        self.value(old, new, true)?;
        self.path.truncate(length);
        Ok(())
    }

    /// Removes the elements from one index to another: each at `start`, where the next one then is.
    fn cut(&mut self, from: &[JsonValue], to: &[JsonValue], start: usize, end: usize) -> Result<()>
        requires range { (start ≤ end) × (end ≤ length from.now) × (start ≤ length to.now) }
        requires shorter { start < end → length to.now < length from.now }
        ensures ok { OnOk result (AddsElements (string_bytes self.old.path) (map view from.now)
            (map view to.now) (start, start) (start, end) (operations_of self.old)
            (operations_of self.new)) }
        ensures path { OnOk result (string_bytes self.new.path ≡ string_bytes self.old.path) }
        ensures memory { IsOkUnless result Error.OutOfMemory }
    {
        let length = self.path.len();
        for index in start..end {
            push_index(&mut self.path, start)?;
            self.remove()?;
            self.path.truncate(length);
        }
        Ok(())
    }

    /// Adds the new elements from one index to another, each at its index, before the old ones from
    /// any index `rest` on.
    fn extend(
        &mut self,
        from: &[JsonValue],
        to: &[JsonValue],
        start: usize,
        end: usize,
    ) -> Result<()>
        requires range { (start ≤ end) × (end ≤ length to.now) }
        requires longer { start < end → length from.now < length to.now }
        ensures ok { OnOk result ((rest : ℕ) → rest ≤ length from.now
            → AddsElements (string_bytes self.old.path) (map view from.now) (map view to.now)
            (start, rest) (end, rest) (operations_of self.old) (operations_of self.new)) }
        ensures path { OnOk result (string_bytes self.new.path ≡ string_bytes self.old.path) }
        ensures memory { IsOkUnless result Error.OutOfMemory }
    {
        let length = self.path.len();
        for index in start..end {
            push_index(&mut self.path, index)?;
            self.add(&to[index])?;
            self.path.truncate(length);
        }
        Ok(())
    }

    /// Adds the new value at the path.
    fn add(&mut self, new: &JsonValue) -> Result<()>
        ensures ok { OnOk result ((op : Value) × Adds (string_bytes self.old.path) (view new.now) op
            × (operations_of self.new ≡ operations_of self.old ++ op ∷ [])) }
        ensures path { OnOk result (self.new.path ≡ self.old.path) }
        ensures memory { IsOkUnless result Error.OutOfMemory }
    {
        let operation = adding(self.alloc, self.path.as_str(), new)?;
        self.operations.push(operation)?;
        Ok(())
    }

    /// Removes what is at the path.
    fn remove(&mut self) -> Result<()>
        ensures ok { OnOk result ((op : Value) × Removes (string_bytes self.old.path) op
            × (operations_of self.new ≡ operations_of self.old ++ op ∷ [])) }
        ensures path { OnOk result (self.new.path ≡ self.old.path) }
        ensures memory { IsOkUnless result Error.OutOfMemory }
    {
        let operation = removing(self.alloc, self.path.as_str())?;
        self.operations.push(operation)?;
        Ok(())
    }
}

/// Whether a patch from one value to the other that changes its parts would be slow to apply: each
/// removal and each insertion shifts what stands behind. Only the form of the patch depends on it.
fn shifts_much(old: &JsonValue, new: &JsonValue) -> bool {
    match (old, new) {
        (JsonValue::Object(from), JsonValue::Object(to)) => members_shift_much(from, to),
        (JsonValue::Array(from), JsonValue::Array(to)) => elements_shift_much(from, to),
        _ => false,
    }
}

/// Whether entries of objects would be shifted too much: only a removal shifts any, and goes over all.
/// Ends as soon as enough keys are found that stay; those that both objects have are mostly in one
/// order.
fn members_shift_much(from: &Object, to: &Object) -> bool {
    let all = from.len();
    let mut removed = all;
    for key in from.keys() {
        if !is_much(removed, all) {
            return false;
        }
        if has(to, all.wrapping_sub(removed), key) {
            removed = removed.wrapping_sub(1);
        }
    }
    is_much(removed, all)
}

/// Whether elements of arrays would be shifted too much: behind those that are removed or inserted
/// are the equal ones at the end, and behind one that is removed those that will be, too.
fn elements_shift_much(from: &[JsonValue], to: &[JsonValue]) -> bool {
    let count = from.len().abs_diff(to.len());
    if !is_much(count, from.len()) {
        return false;
    }
    let (_start, kept) = common(from, to);
    is_much(
        count,
        from.len().saturating_sub(to.len()).saturating_add(kept),
    )
}

/// Whether so many removals or insertions, each of which shifts so many elements or entries, shift
/// too many.
fn is_much(count: usize, shifted: usize) -> bool {
    count.saturating_mul(shifted) > MOST_SHIFTED
}

/// The value of a key. It is first looked for at an index: objects mostly have their keys in one
/// order.
fn look<'a>(object: &'a Object, index: usize, key: &str) -> Option<&'a JsonValue>
    ensures { option_copied result ≡ find key.now (entries_of object.now) }
{
    // For the proof: the contract of `len` says that no key repeats.
    let _known = object.len();
    if let Some((there, value)) = object.get_index(index) {
        if there == key {
            return Some(value);
        }
    }
    object.get(key)
}

/// Whether the object has the key, which is first looked for at an index.
fn has(object: &Object, index: usize, key: &str) -> bool
    ensures { result ≡ is_some (find key.now (entries_of object.now)) }
{
    look(object, index, key).is_some()
}

/// How many elements at the beginning, and after them at the end, are equal. None are looked for in
/// arrays of one length, whose elements have the same indexes: so no element is compared twice.
fn common(from: &[JsonValue], to: &[JsonValue]) -> (usize, usize)
    ensures room { (result.0 + result.1 ≤ length from.now) × (result.0 + result.1 ≤ length to.now) }
    ensures start { AllSame (take result.0 (map view from.now)) (take result.0 (map view to.now)) }
    ensures end { AllSame (drop (length from.now - result.1) (map view from.now))
        (drop (length to.now - result.1) (map view to.now)) }
{
    if from.len() == to.len() {
        return (0, 0);
    }
    let start = common_start(from, to);
    (
        start,
        common_end(from, to, from.len().min(to.len()) - start),
    )
}

fn common_start(from: &[JsonValue], to: &[JsonValue]) -> usize
    ensures room { (result ≤ length from.now) × (result ≤ length to.now) }
    ensures same { AllSame (take result (map view from.now)) (take result (map view to.now)) }
{
    let most = from.len().min(to.len());
    for index in 0..most {
        if from[index] != to[index] {
            return index;
        }
    }
    most
}

/// How many elements at the end are equal, up to `most`, which leaves out those at the beginning.
fn common_end(from: &[JsonValue], to: &[JsonValue], most: usize) -> usize
    requires most { (most ≤ length from.now) × (most ≤ length to.now) }
    ensures room { result ≤ most }
    ensures same { AllSame (drop (length from.now - result) (map view from.now))
        (drop (length to.now - result) (map view to.now)) }
{
    for count in 0..most {
        if from[from.len() - count - 1] != to[to.len() - count - 1] {
            return count;
        }
    }
    most
}

/// No object and no array. Such are compared before their path is made, which mostly costs more.
fn is_primitive(value: &JsonValue) -> bool {
    !value.is_object() && !value.is_array()
}

/// Appends `/` and an index.
fn push_index(path: &mut String, index: usize) -> Result<()>
    ensures below { OnOk result (IsBelow (string_bytes path.old) (decimal index)
        (string_bytes path.new)) }
    ensures memory { IsOkUnless result Error.OutOfMemory }
{
    let token = format!(in *path.allocator(); "/{index}")?;
    path.push_str(token.as_str())?;
    Ok(())
}

fn replacing(alloc: Global, path: &str, new: &JsonValue) -> Result<JsonValue>
    ensures ok { IfOk result (λ op. Replaces path.now (view new.now) (view op)) }
    ensures memory { IsOkUnless result Error.OutOfMemory }
{
    let value = new.clone(alloc)?;
    Ok(jzon::object! {alloc; op: "replace", path: path, value: value})
}

fn adding(alloc: Global, path: &str, new: &JsonValue) -> Result<JsonValue>
    ensures ok { IfOk result (λ op. Adds path.now (view new.now) (view op)) }
    ensures memory { IsOkUnless result Error.OutOfMemory }
{
    let value = new.clone(alloc)?;
    Ok(jzon::object! {alloc; op: "add", path: path, value: value})
}

fn removing(alloc: Global, path: &str) -> Result<JsonValue>
    ensures ok { IfOk result (λ op. Removes path.now (view op)) }
    ensures memory { IsOkUnless result Error.OutOfMemory }
{
    Ok(jzon::object! {alloc; op: "remove", path: path})
}

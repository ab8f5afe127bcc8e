//! Pairs, and pairs that are made of entries.

ghost use Rattle.std.specs.Prelude.{OnOk};
ghost use Rattle.jzon_base.specs.Private.KnownKeys.{Knows};

use crate::common::{expect, expect_eq};
use jzon_base::key::Key;
use jzon_base::keys::KnownKeys;
use jzon_base::pairs::{IterMut, Pairs};
use jzon_test_support::{RUNS_MAX, Refusals, digits_below, joined, keys_by_hash};
use std::alloc::{AllocError, Global};
use std::process::Abort;
use std::test::Fail;

fn of_pairs(alloc: Global, pairs: &[(&str, usize)]) -> Result<Pairs<usize>, AllocError> {
    let mut made = Pairs::new(alloc);
    for (name, value) in pairs {
        made.insert(alloc, name, *value)?;
    }
    Ok(made)
}

/// The pairs as `a1 b2 `.
fn shown(alloc: Global, pairs: &Pairs<usize>) -> Result<String, AllocError> {
    let mut text = String::new(alloc);
    for (name, value) in pairs.iter() {
        write!(text, "{name}{value} ")?;
    }
    Ok(text)
}

fn expect_shown(
    rt: &impl Abort,
    alloc: Global,
    pairs: &Pairs<usize>,
    want: &str,
) -> Result<(), AllocError> {
    let text = shown(alloc, pairs)?;
    expect_eq(rt, want, text.as_str(), want);
    Ok(())
}

/// Sets the first and the last value to 0: `next` and `next_back` require nothing of who borrows
/// the iterator.
fn clear_ends(lent: &mut IterMut<'_, usize>) {
    if let Some((_, first)) = lent.next() {
        *first = 0;
    }
    if let Some((_, last)) = lent.next_back() {
        *last = 0;
    }
}

#[test]
fn lends_its_iterator(rt: HostRuntime) -> Result<(), AllocError> {
    let mut pairs = of_pairs(rt.alloc(), &[("a", 1), ("b", 2), ("c", 3)])?;
    clear_ends(&mut pairs.iter_mut());
    expect_shown(&rt, rt.alloc(), &pairs, "a0 b2 c0 ")
}

#[test]
fn writes_through_its_iterator(rt: HostRuntime) -> Result<(), AllocError> {
    let mut pairs = of_pairs(rt.alloc(), &[("a", 1), ("b", 2), ("c", 3)])?;
    for (name, value) in pairs.iter_mut() {
        if name != "b" {
            *value = 7;
        }
    }
    expect_shown(&rt, rt.alloc(), &pairs, "a7 b2 c7 ")
}

/// Sets the first of two values to 6. Whether the other pair is `b` and 3.
fn set_first(pairs: &mut Pairs<usize>) -> bool {
    if pairs.len() != 2 {
        return false;
    }
    let is_there = pairs.get_at(1) == ("b", &3);
    *pairs.value_mut(0) = 6;
    is_there
}

#[test]
fn lends_values(rt: HostRuntime) -> Result<(), AllocError> {
    let mut pairs = of_pairs(rt.alloc(), &[("a", 5), ("b", 2)])?;
    if let Some(value) = pairs.get_mut("b") {
        *value = 3;
    }
    expect(&rt, "no c", pairs.get("c").is_none());
    expect(&rt, "the second pair", set_first(&mut pairs));
    expect_shown(&rt, rt.alloc(), &pairs, "a6 b3 ")
}

#[test]
fn finds_and_removes(rt: HostRuntime) -> Result<(), AllocError> {
    let mut pairs = of_pairs(rt.alloc(), &[("a", 6), ("b", 3)])?;
    expect(&rt, "the values", pairs.values() == [6, 3].as_slice());
    expect_eq(&rt, "the position", pairs.position("b"), Some(1));
    expect_eq(&rt, "what is removed", pairs.remove("a"), Some(6));
    expect_shown(&rt, rt.alloc(), &pairs, "b3 ")
}

/// How pairs are made of keys, each with its number in the list as value: put one by one, or made of
/// all entries at once. Of a repeated key the last value is kept.
#[derive(Clone, Copy)]
enum Made {
    Insert,
    Place,
    AtMut,
    Reserve,
    Entries,
    RepeatEach,
    RepeatAll,
}

const MADE: [Made; 7] = [
    Made::Insert,
    Made::Place,
    Made::AtMut,
    Made::Reserve,
    Made::Entries,
    Made::RepeatEach,
    Made::RepeatAll,
];

impl Made {
    /// One by one.
    fn put_each(
        self,
        alloc: Global,
        pairs: &mut Pairs<usize>,
        keys: &[String],
    ) -> Result<(), AllocError> {
        for (number, key) in keys.iter().enumerate() {
            match self {
                Made::Place => {
                    let index = pairs.place(alloc, key.as_str(), number)?;
                    if index < pairs.len() {
                        *pairs.value_mut(index) = number;
                    }
                }
                Made::AtMut => *pairs.at_mut(alloc, key.as_str(), 0)? = number,
                _ => pairs.insert(alloc, key.as_str(), number)?,
            }
        }
        Ok(())
    }

    /// An entry of each key.
    fn push_each(
        self,
        alloc: Global,
        names: &mut Vec<Key>,
        values: &mut Vec<usize>,
        keys: &[String],
    ) -> Result<(), AllocError> {
        for (number, key) in keys.iter().enumerate() {
            if matches!(self, Made::RepeatEach) {
                names.push(Key::new(alloc, key.as_str())?)?;
                values.push(0)?;
            }
            names.push(Key::new(alloc, key.as_str())?)?;
            values.push(number)?;
        }
        Ok(())
    }

    fn make(self, alloc: Global, keys: &[String]) -> Result<Pairs<usize>, AllocError> {
        if matches!(
            self,
            Made::Insert | Made::Place | Made::AtMut | Made::Reserve
        ) {
            let mut pairs = match self {
                Made::Reserve => Pairs::with_capacity(alloc, keys.len())?,
                _ => Pairs::new(alloc),
            };
            self.put_each(alloc, &mut pairs, keys)?;
            return Ok(pairs);
        }
        let mut names = Vec::new(alloc);
        let mut values = Vec::new(alloc);
        self.push_each(alloc, &mut names, &mut values, keys)?;
        if matches!(self, Made::RepeatAll) {
            self.push_each(alloc, &mut names, &mut values, keys)?;
        }
        if values.len() != names.len() {
            return Err(AllocError);
        }
        Pairs::from_entries(alloc, names, values)
    }
}

/// 40 names, of which each comes once in 40 numbers, in one order and in the next 40 in another; after
/// them 300 names once each, and one of them again.
fn shuffled(alloc: Global) -> Result<Vec<String>, AllocError> {
    let mut names = Vec::new(alloc);
    for number in 0..2_000 {
        let step = if number / 40 % 2 == 0 { 7 } else { 11 };
        let name = number % 40 * step % 40;
        names.push(format!(in alloc; "k{name}")?)?;
    }
    for number in (0..300).chain([0]) {
        names.push(format!(in alloc; "n{number}")?)?;
    }
    Ok(names)
}

/// A name has the position of its first number and the value of its last.
#[test]
fn makes_pairs_of_repeated_keys(rt: HostRuntime) -> Result<(), AllocError> {
    let names = shuffled(rt.alloc())?;
    for made in MADE {
        let pairs = made.make(rt.alloc(), names.as_slice())?;
        for (number, name) in names.iter().enumerate() {
            let name = name.as_str();
            if number < 40 {
                expect_eq(&rt, name, pairs.position(name), Some(number));
            }
            if (1_960..2_000).contains(&number) {
                expect_eq(&rt, name, pairs.get(name).copied(), Some(number));
            }
        }
        expect_eq(&rt, "n299", pairs.position("n299"), Some(339));
        expect_eq(&rt, "n0", pairs.get("n0").copied(), Some(2_300));
        expect_eq(&rt, "the number of pairs", pairs.len(), 340);
    }
    Ok(())
}

/// Three names a thousand times each, and then a fourth twice.
#[test]
fn makes_pairs_of_few_keys(rt: HostRuntime) -> Result<(), AllocError> {
    let mut names = Vec::new(rt.alloc());
    for letter in joined(rt.alloc(), &[("cab", 1000), ("dad", 1)])?.chars() {
        names.push(format!(in rt.alloc(); "{letter}")?)?;
    }
    for made in MADE {
        let pairs = made.make(rt.alloc(), names.as_slice())?;
        let text = "c2997 a3001 b2999 d3002 ";
        expect_shown(&rt, rt.alloc(), &pairs, text)?;
    }
    Ok(())
}

/// Pairs that are made of all keys but the last have these at their positions, and not the last.
fn expect_made(
    rt: &impl Abort,
    alloc: Global,
    made: Made,
    keys: &[String],
) -> Result<(), AllocError> {
    let Some((missing, keys)) = keys.split_last() else {
        return Ok(());
    };
    let pairs = made.make(alloc, keys)?;
    expect_eq(rt, "the number of pairs", pairs.len(), keys.len());
    for (index, (key, value)) in keys.iter().zip(pairs.values()).enumerate() {
        let position = pairs.position(key.as_str());
        expect_eq(rt, "a key", position, Some(index));
        expect_eq(rt, "a value", *value, index);
    }
    expect_eq(rt, "no key", pairs.position(missing.as_str()), None);
    Ok(())
}

/// More keys than 16 bits can count.
#[test]
fn makes_many_pairs(rt: HostRuntime) -> Result<(), AllocError> {
    let keys = digits_below(rt.alloc(), 70_001)?;
    for made in MADE {
        expect_made(&rt, rt.alloc(), made, keys.as_slice())?;
    }
    Ok(())
}

/// `count` distinct texts and the one of the number `last`. They differ only in the middle, so one bit
/// is that of all.
fn names_of_one_bit(alloc: Global, count: usize, last: usize) -> Result<Vec<String>, AllocError> {
    let mut names = Vec::new(alloc);
    for number in (0..count).chain([last]) {
        let number = number.saturating_add(10);
        names.push(format!(in alloc; "k{number}yz")?)?;
    }
    Ok(names)
}

/// Pairs that are made of distinct keys and of one of them again have its last value.
fn expect_again(
    rt: &impl Abort,
    alloc: Global,
    count: usize,
    again: usize,
) -> Result<(), AllocError> {
    let keys = names_of_one_bit(alloc, count, again)?;
    let pairs = Made::Entries.make(alloc, keys.as_slice())?;
    expect_eq(rt, "the number of pairs", pairs.len(), count);
    for (index, key) in keys.iter().take(count).enumerate() {
        let value = if index == again { count } else { index };
        let position = pairs.position(key.as_str());
        expect_eq(rt, "a key", position, Some(index));
        expect_eq(rt, "a value", pairs.get(key.as_str()).copied(), Some(value));
    }
    Ok(())
}

/// Numbers of keys between which a repeated one is found in another way.
#[test]
fn makes_pairs_of_one_bit(rt: HostRuntime) -> Result<(), AllocError> {
    for count in [1, 2, 8, 9, 15, 16, 17, 31, 32, 33] {
        let keys = names_of_one_bit(rt.alloc(), count, count)?;
        for made in MADE {
            expect_made(&rt, rt.alloc(), made, keys.as_slice())?;
        }
        expect_again(&rt, rt.alloc(), count, 0)?;
        expect_again(&rt, rt.alloc(), count, count - 1)?;
    }
    Ok(())
}

/// A text of the hash 0. What comes after it keeps the hash: zero bytes, and `BLOCK` among them.
const ZERO: &str = "77kepQFQ8Kl";

const BLOCK: &str = "GhL ,\u{8}\u{1b}s\u{5}\u{18}";

/// Distinct texts of one hash, at most 20,100 of them.
fn names_of_one_hash(alloc: Global, count: usize) -> Result<Vec<String>, AllocError> {
    let mut names = Vec::new(alloc);
    for number in 0..count {
        let before = ("\0", number / 150);
        let after = ("\0", number % 150);
        names.push(joined(alloc, &[(ZERO, 1), before, (BLOCK, 1), after])?)?;
    }
    Ok(names)
}

#[test]
fn makes_many_pairs_of_one_hash(rt: HostRuntime) -> Result<(), AllocError> {
    let keys = names_of_one_hash(rt.alloc(), 20_001)?;
    for made in [Made::Entries, Made::Insert] {
        expect_made(&rt, rt.alloc(), made, keys.as_slice())?;
    }
    Ok(())
}

/// Adds a key unless it is known. Whether it was known.
fn push_new(
    alloc: Global,
    known: &mut KnownKeys,
    keys: &mut Vec<Key>,
    name: &str,
) -> Result<bool, AllocError>
    requires { Knows keys.old.items known.old }
    ensures { OnOk result (Knows keys.new.items known.new) }
{
    let is_known = known.has_or_notes(alloc, keys.as_slice(), name)?;
    if !is_known {
        keys.push(Key::new(alloc, name)?)?;
    }
    Ok(is_known)
}

/// The numbers below a count.
fn numbers_below(alloc: Global, count: usize) -> Result<Vec<usize>, AllocError> {
    let mut numbers = Vec::new(alloc);
    for number in 0..count {
        numbers.push(number)?;
    }
    Ok(numbers)
}

/// Pairs of known keys, each with its number as value.
fn of_known(alloc: Global, keys: Vec<Key>, known: KnownKeys) -> Result<Pairs<usize>, AllocError>
    requires { Knows keys.items known }
{
    let values = numbers_below(alloc, keys.len())?;
    if values.len() != keys.len() {
        return Err(AllocError);
    }
    Pairs::from_known(alloc, keys, known, values)
}

/// Pairs of these keys, each of which comes twice: it is new at first, and then it is known. `None` if
/// an answer was wrong.
fn known_of(alloc: Global, names: &[String]) -> Result<Option<Pairs<usize>>, AllocError> {
    let mut known = KnownKeys::new();
    let mut keys = Vec::new(alloc);
    for name in names.iter().chain(names.iter()) {
        let has_all = keys.len() == names.len();
        let is_known = push_new(alloc, &mut known, &mut keys, name.as_str())?;
        if is_known != has_all {
            return Ok(None);
        }
    }
    Ok(Some(of_known(alloc, keys, known)?))
}

fn expect_numbered(rt: &impl Abort, pairs: &Pairs<usize>, names: &[String]) {
    expect_eq(rt, "the number of keys", pairs.len(), names.len());
    for (number, name) in names.iter().enumerate() {
        let position = pairs.position(name.as_str());
        expect_eq(rt, "a key", position, Some(number));
    }
}

/// Few keys with a filter, and more with an index.
#[test]
fn knows_the_keys_of_one_hash(rt: HostRuntime) -> Result<(), Fail> {
    for count in [9, 32, 33, 300] {
        let names = names_of_one_hash(rt.alloc(), count)?;
        let pairs = known_of(rt.alloc(), names.as_slice())?.ok_or("a known key")?;
        expect_numbered(&rt, &pairs, names.as_slice());
    }
    Ok(())
}

/// An index of several runs.
#[test]
fn knows_many_keys(rt: HostRuntime) -> Result<(), Fail> {
    let names = digits_below(rt.alloc(), 3_000)?;
    let pairs = known_of(rt.alloc(), names.as_slice())?.ok_or("a known key")?;
    expect_numbered(&rt, &pairs, names.as_slice());
    Ok(())
}

/// How many pairs there is room for, and the number of allocations of one more. Keys and values grow,
/// and so does the index, which begins after 32 keys and has room for up to 1,024.
const ROOMS: [(u32, usize); 3] = [(32, 3), (100, 2), (1024, 3)];

/// Pairs of these keys, in room that they got by `with_capacity`, and then in the room that `clear`
/// kept. No memory is requested: the first allocation would fail.
fn in_room(
    rt: &impl Abort,
    refusals: &mut Refusals,
    made: Made,
    alloc: Global,
    keys: &[String],
) -> Result<Pairs<usize>, AllocError> {
    let mut pairs = Pairs::with_capacity(alloc, keys.len())?;
    for is_cleared in [false, true] {
        if is_cleared {
            pairs.clear();
        }
        refusals.begin();
        let outcome = made.put_each(alloc, &mut pairs, keys);
        let has_failed = refusals.has_failed();
        expect(rt, "no allocation", !has_failed && outcome.is_ok());
        expect_eq(rt, "the number of pairs", pairs.len(), keys.len());
    }
    Ok(pairs)
}

/// Keys, values and index have their room. One key more takes memory.
fn expect_capacity(rt: &impl Abort, alloc: Global, count: u32) -> Result<Refusals, Fail> {
    let keys = keys_by_hash(alloc, count)?;
    let keys = keys.as_slice();
    let mut refusals = Refusals::new(alloc);
    drop(in_room(rt, &mut refusals, Made::Place, alloc, keys)?);
    let mut pairs = in_room(rt, &mut refusals, Made::Insert, alloc, keys)?;
    for _ in 0..RUNS_MAX {
        refusals.begin();
        let inserted = pairs.insert(alloc, "one more", 0);
        let has_failed = refusals.has_failed();
        expect(rt, "the result", inserted.is_err() == has_failed);
        if !has_failed {
            break;
        }
        expect_eq(rt, "the number of pairs", pairs.len(), keys.len());
    }
    Ok(refusals)
}

#[test]
fn room_for_pairs_under_refusals(rt: HostRuntime) -> Result<(), Fail> {
    for (count, allocations) in ROOMS {
        let refusals = expect_capacity(&rt, rt.alloc(), count)?;
        refusals.report(&rt, "Pairs::insert past the room", allocations)?;
    }
    Ok(())
}

/// How many pairs there is room for, after how many inserted keys the index has begun a run, and to
/// how many that run has room.
const BEGUN: [(usize, usize, usize); 2] = [(32, 33, 64), (1152, 1025, 1152)];

/// A run that the index has begun takes entries without an allocation.
#[test]
fn room_of_runs_counted(rt: HostRuntime) -> Result<(), Fail> {
    let alloc = rt.alloc();
    let keys = keys_by_hash(alloc, 1152)?;
    for (capacity, begun, full) in BEGUN {
        let mut pairs = Pairs::with_capacity(alloc, capacity)?;
        let mut refusals = Refusals::new(alloc);
        let first = keys.as_slice().get(..begun).unwrap_or(&[]);
        Made::Insert.put_each(alloc, &mut pairs, first)?;
        let first = keys.as_slice().get(..full).unwrap_or(&[]);
        refusals.open();
        Made::Insert.put_each(alloc, &mut pairs, first)?;
        refusals.expect_within(&rt, "Pairs::insert into a run's room", 0)?;
        expect_eq(&rt, "the number of pairs", pairs.len(), full);
    }
    Ok(())
}

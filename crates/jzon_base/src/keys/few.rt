//! Few keys, without an index. To find repeated ones, each sets a bit that depends on its text, and
//! is compared with those before it only if the bit was set.
ghost use Rattle.std.specs.Prelude.{◌≡◌, ◌<◌, ◌≤◌, ◌-◌, ◌&&◌, not, length, IsTrue, ◌↔◌, slice_index};
ghost use Rattle.std.specs.List.{list_any, position, IsDistinct};
ghost use Rattle.std.specs.Str.{bytes_eq};
ghost use Rattle.jzon_base.specs.Private.Filter.{word_bit_of};

use super::filter::Filter;
use crate::key::Key;

/// Up to this many keys have no index.
pub const LINEAR_MAX: usize = 32;

/// Up to this many keys are compared pair by pair, without bits.
const PAIRS_MAX: usize = 4;

/// Up to this many keys, one 64-bit word has bits enough.
const ONE_WORD_MAX: usize = 16;

/// Whether texts are equal, by a call, which `are_equal` seldom needs.
#[inline(never)]
fn have_same_bytes(a: &str, b: &str) -> bool
    ensures { result ≡ bytes_eq a.now b.now }
{
    a == b
}

/// The last byte of a text, and 0 for the empty text.
#[inline(always)]
pub fn last_byte(text: &str) -> u8
    ensures { result ≡ slice_index text.now (length text.now - 1) }
{
    text.as_bytes().last().copied().unwrap_or(0)
}

/// Whether texts are equal. Most unequal ones differ in length or last byte.
#[inline(always)]
#[tactic(auto, using(crate::proofs::KeyIndex::Indexes::other_last))]
fn are_equal(a: &str, b: &str) -> bool
    ensures { result ≡ bytes_eq a.now b.now }
{
    a.len() == b.len() && last_byte(a) == last_byte(b) && have_same_bytes(a, b)
}

/// The position of the key with this name, or `None`.
#[inline(always)]
pub fn position(keys: &[Key], name: &str) -> Option<usize>
    ensures { result ≡ position (λ k. bytes_eq k name.now) keys.now }
{
    keys.iter().position(|key| are_equal(key.as_str(), name))
}

/// Whether a key has this name. Not inlined, because it is called only if the name's bit was set.
#[inline(never)]
pub fn has_name(keys: &[Key], name: &str) -> bool
    ensures { result ≡ list_any (λ k. bytes_eq k name.now) keys.now }
{
    keys.iter().any(|key| are_equal(key.as_str(), name))
}

#[inline(always)]
fn differ(a: &Key, b: &Key) -> bool
    ensures { result ≡ not (bytes_eq a.now b.now) }
{
    !are_equal(a.as_str(), b.as_str())
}

#[inline(always)]
fn three_differ(a: &Key, b: &Key, c: &Key) -> bool
    ensures { result ≡ ((not (bytes_eq a.now b.now) && not (bytes_eq a.now c.now))
        && not (bytes_eq b.now c.now)) }
{
    differ(a, b) && differ(a, c) && differ(b, c)
}

#[inline(always)]
fn differs_from_three(d: &Key, a: &Key, b: &Key, c: &Key) -> bool
    ensures { result ≡ ((not (bytes_eq a.now d.now) && not (bytes_eq b.now d.now))
        && not (bytes_eq c.now d.now)) }
{
    differ(a, d) && differ(b, d) && differ(c, d)
}

#[inline(always)]
fn four_differ(a: &Key, b: &Key, c: &Key, d: &Key) -> bool
    ensures { result ≡ (((not (bytes_eq a.now b.now) && not (bytes_eq a.now c.now))
        && not (bytes_eq b.now c.now))
        && ((not (bytes_eq a.now d.now) && not (bytes_eq b.now d.now))
        && not (bytes_eq c.now d.now))) }
{
    three_differ(a, b, c) && differs_from_three(d, a, b, c)
}

/// Whether none of up to `PAIRS_MAX` keys repeats: all pairs take fewer steps than bits do.
#[inline(always)]
fn are_few_distinct(keys: &[Key]) -> bool
    requires { length keys.now ≤ PAIRS_MAX }
    ensures { IsTrue result ↔ IsDistinct bytes_eq keys.now }
{
    match keys {
        [a, b] => differ(a, b),
        [a, b, c] => three_differ(a, b, c),
        [a, b, c, d] => four_differ(a, b, c, d),
        _ => true,
    }
}

/// Whether no key repeats, by the bits of a `Filter`.
#[inline(never)]
fn are_distinct_by_filter(keys: &[Key]) -> bool
    ensures { IsTrue result ↔ IsDistinct bytes_eq keys.now }
{
    let mut filter = Filter::new();
    for at in 0..keys.len() {
        if filter.has_or_notes(&keys[..at], keys[at].as_str()) {
            return false;
        }
    }
    true
}

/// Which bit of a word a key sets, by its length, its first byte and its last; any other would do.
#[inline(always)]
#[tactic(auto, unfolding(crate::specs::Private::Filter::word_bit_of))]
fn bit_of(name: &str) -> usize
    ensures bit { result ≡ word_bit_of name.now }
    ensures within { result < 64 }
{
    let bytes = name.as_bytes();
    let len = bytes.len();
    if len == 0 {
        return 0;
    }
    (len % 4 * 16 + usize::from(bytes[0]) + usize::from(bytes[len - 1]) * 2) % 64
}

/// Whether no key repeats, by pairs, by the bits of one word, or by a filter.
#[inline(always)]
pub fn are_distinct(keys: &[Key]) -> bool
    ensures { IsTrue result ↔ IsDistinct bytes_eq keys.now }
{
    if ONE_WORD_MAX < keys.len() {
        return are_distinct_by_filter(keys);
    }
    if keys.len() <= PAIRS_MAX {
        return are_few_distinct(keys);
    }
    let mut word = 0u64;
    for at in 0..keys.len() {
        let name = keys[at].as_str();
        let bit = bit_of(name);
        if word >> bit & 1 == 1 && has_name(&keys[..at], name) {
            return false;
        }
        word |= 1 << bit;
    }
    true
}

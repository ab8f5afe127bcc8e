//! The reference tokens of a pointer's text (RFC 6901, sections 3 and 4).
//!
//! A token is kept as it is written. `position_of` and those below it find the entry that it names.
//! Where it has no `~`, it is the key itself, and the object's index finds it. A token with an
//! escape is compared with each key of an object of at most `FEW`; for a larger one it is decoded:
//! on the stack, so that nothing is allocated, or, to a key of more than `DECODED_MAX` bytes, in
//! memory of the object's allocator.

ghost use Rattle.std.specs.Prelude.{◌≡◌, ◌&&◌, ◌==◌, ◌<◌, ◌≤◌, ◌+◌, ◌∷◌, ◌++◌, nat_lt, suc, true, false, if◌then◌else◌, MatchOption, OnOk, OnErr, length, drop, slice_index, option_map, option_and_then, IfOk, IfErr, IfSome, string_bytes, None, Some};
ghost use Rattle.std.specs.Char.{is_ascii_digit};
ghost use Rattle.std.specs.List.{list_all, position};
ghost use Rattle.std.specs.Option.{is_some, option_copied};
ghost use Rattle.jzon.specs.Entries.{entries_of};
ghost use Rattle.jzon.specs.PairList.{find, keys_of};
ghost use Rattle.jzon.specs.View.{view, view_object};
ghost use Rattle.jzon_pointer.specs.Escaped.{escaped, slashed};
ghost use Rattle.jzon_pointer.specs.Pointer.{is_index, index_named, names, tokens_in, tokens_left, tokens_of, token_key};
ghost use Rattle.jzon_pointer.specs.declared.pointer.PointerError.TheVariants.{NoSlash};

use crate::PointerError;
use arrayvec::ArrayString;
use jzon::JsonValue;
use jzon::object::Object;
use std::alloc::{AllocError, Global};

/// Comparing with so few keys takes less than decoding.
const FEW: usize = 16;

/// The longest key, in bytes, to which a token is decoded on the stack.
const DECODED_MAX: usize = 512;

/// The text after a pointer's first slash: `None` of the empty pointer, which has no token.
pub fn after_slash(path: &str) -> Result<Option<&str>, PointerError>
    ensures tokens { IfOk result (λ left. tokens_of path.now
        ≡ Some (tokens_left (option_copied left))) }
    ensures rest { IfOk result (λ left. IfSome left (λ text. suc (length text.now)
        ≡ length path.now)) }
    ensures none { IfErr result (λ e. (e ≡ NoSlash) × (tokens_of path.now ≡ None)) }
{
    if path.is_empty() {
        return Ok(None);
    }
    match path.strip_prefix('/') {
        Some(text) => Ok(Some(text)),
        None => Err(PointerError::NoSlash),
    }
}

/// The first token of a text, and the text of the others, if there are any.
pub fn first_token(text: &str) -> (&str, Option<&str>)
    ensures tokens { tokens_in text.now ≡ result.0.now ∷ tokens_left (option_copied result.1) }
    ensures rest { MatchOption result.1 (length result.0.now ≡ length text.now)
        (λ rest. suc (length result.0.now + length rest.now) ≡ length text.now) }
{
    match text.split_once('/') {
        Some((token, rest)) => (token, Some(rest)),
        None => (text, None),
    }
}

/// The index that a token names: digits, with no zero before others, that fit a `usize`.
#[tactic(auto, using(crate::proofs::PointerSteps::index_read))]
pub fn index_of(token: &str) -> Option<usize>
    ensures { result ≡ index_named token.now }
{
    if !has_index_form(token) {
        return None;
    }
    token.parse().ok()
}

/// Whether a token is an index (RFC 6901, section 4), maybe too large for a `usize`: digits, with
/// no zero before others.
pub fn has_index_form(token: &str) -> bool
    ensures { result ≡ is_index token.now }
{
    let bytes = token.as_bytes();
    !bytes.is_empty() && all_digits(bytes) && !has_leading_zero(bytes)
}

fn all_digits(token: &[u8]) -> bool
    ensures { result ≡ list_all is_ascii_digit token.now }
{
    token.iter().all(|byte| byte.is_ascii_digit())
}

/// Whether a zero is before other bytes.
fn has_leading_zero(token: &[u8]) -> bool
    ensures { result ≡ (nat_lt 1 (length token.now) && (slice_index token.now 0 == 48)) }
{
    token.len() > 1 && token[0] == b'0'
}

/// The value of the entry that a token names.
pub fn member<'a>(object: &'a Object, token: &str) -> Option<&'a JsonValue>
    ensures { option_copied result
        ≡ option_and_then (λ k. find k (entries_of object.now)) (token_key token.now) }
{
    let (_key, value) = object.get_index(position_of(object, token)?)?;
    Some(value)
}

/// The position of the entry that a token names.
pub fn position_of(object: &Object, token: &str) -> Option<usize>
    ensures { result ≡ position (names token.now) (keys_of (entries_of object.now)) }
{
    if is_plain(token) {
        return object.get_index_of(token);
    }
    if object.len() <= FEW {
        return position_compared(object, token);
    }
    position_decoded(object, token)
}

/// `position_of`, by a comparison with each key.
fn position_compared(object: &Object, token: &str) -> Option<usize>
    ensures { result ≡ position (names token.now) (keys_of (entries_of object.now)) }
{
    object.keys().position(|key| is_name(token, key))
}

/// `position_of`, of a token with an escape in a larger object. Not inlined, so that only it has
/// room for the key.
#[inline(never)]
fn position_decoded(object: &Object, token: &str) -> Option<usize>
    ensures { result ≡ position (names token.now) (keys_of (entries_of object.now)) }
{
    match decoded(token) {
        Some(Some(key)) => object.get_index_of(key.as_str()),
        Some(None) => None,
        None => position_of_long(object, token),
    }
}

/// `position_of`, of a token whose key is longer than `DECODED_MAX`. If memory for it is refused,
/// it is compared with each key.
fn position_of_long(object: &Object, token: &str) -> Option<usize>
    ensures { result ≡ position (names token.now) (keys_of (entries_of object.now)) }
{
    match key_of(object.allocator(), token) {
        Ok(Some(key)) => object.get_index_of(key.as_str()),
        Ok(None) => None,
        Err(_refused) => position_compared(object, token),
    }
}

/// The key that a token names. The outer `None`: it is longer than `DECODED_MAX`; the inner: a
/// wrong escape.
fn decoded(token: &str) -> Option<Option<ArrayString<DECODED_MAX>>>
    ensures { IfSome result (λ key. option_map (λ k. k.bytes) key ≡ token_key token.now) }
{
    let mut key = ArrayString::new();
    let mut rest = token;
    'escapes: while let Some((plain, after)) = rest.split_once('~') {
        if !push(&mut key, plain) {
            return None;
        }
        if let Some(more) = after.strip_prefix('0') {
            if !push(&mut key, "~") {
                return None;
            }
            rest = more;
        } else if let Some(more) = after.strip_prefix('1') {
            if !push(&mut key, "/") {
                return None;
            }
            rest = more;
        } else {
            return Some(None);
        }
    }
    if !push(&mut key, rest) {
        return None;
    }
    Some(Some(key))
}

/// Appends a text; false if it doesn't fit.
fn push(key: &mut ArrayString<DECODED_MAX>, text: &str) -> bool
    ensures { result ≡ true → key.new.bytes ≡ key.old.bytes ++ text.now }
{
    key.try_push_str(text).is_ok()
}

/// Whether a token is the key itself, since it has no `~`.
pub fn is_plain(token: &str) -> bool
    ensures { result ≡ true → token_key token.now ≡ Some token.now }
{
    !token.contains('~')
}

/// Whether a token names this key, byte by byte. One with a wrong escape names none.
pub fn is_name(token: &str, key: &str) -> bool
    ensures { result ≡ names token.now key.now }
{
    let token = token.as_bytes();
    let key = key.as_bytes();
    let mut at = 0;
    let mut matched = 0;
    while at < token.len() {
        let Some((byte, next)) = unescaped_at(token, at) else {
            return false;
        };
        if matched >= key.len() || key[matched] != byte {
            return false;
        }
        at = next;
        matched += 1;
    }
    matched == key.len()
}

/// Whether each `~` of a token is followed by `0` or `1`.
pub fn is_well_escaped(token: &str) -> bool
    ensures { result ≡ is_some (token_key token.now) }
{
    let token = token.as_bytes();
    let mut at = 0;
    while at < token.len() {
        let Some((_byte, next)) = unescaped_at(token, at) else {
            return false;
        };
        at = next;
    }
    true
}

/// The byte that stands at a position of a token, by itself or by an escape, and the next position;
/// `None` at a wrong escape.
fn unescaped_at(token: &[u8], at: usize) -> Option<(u8, usize)>
    requires { at < length token.now }
    ensures bad { result ≡ None → token_key (drop at token.now) ≡ None }
    ensures good { IfSome result (λ r. token_key (drop at token.now)
        ≡ option_map (λ bs. r.0 ∷ bs) (token_key (drop r.1 token.now))) }
    ensures next { IfSome result (λ r. (at < r.1) × (r.1 ≤ length token.now)) }
{
    if token[at] != b'~' {
        return Some((token[at], at + 1));
    }
    if at + 1 == token.len() {
        return None;
    }
    match token[at + 1] {
        b'0' => Some((b'~', at + 2)),
        b'1' => Some((b'/', at + 2)),
        _ => None,
    }
}

/// The key that a token names, or `None` for a bad escape.
pub fn key_of(alloc: Global, token: &str) -> Result<Option<String>, AllocError>
    ensures { IfOk result (λ key. option_map string_bytes key ≡ token_key token.now) }
{
    let mut key = String::new(alloc);
    let mut rest = token;
    'escapes: while let Some((plain, after)) = rest.split_once('~') {
        key.push_str(plain)?;
        if let Some(more) = after.strip_prefix('0') {
            key.push('~')?;
            rest = more;
        } else if let Some(more) = after.strip_prefix('1') {
            key.push('/')?;
            rest = more;
        } else {
            return Ok(None);
        }
    }
    key.push_str(rest)?;
    Ok(Some(key))
}

/// Appends the token of a key: `~0` for each `~`, and `~1` for each `/`. After an error, maybe a
/// part.
pub fn push_escaped(text: &mut String, key: &str) -> Result<(), AllocError>
    ensures { OnOk result (string_bytes text.new ≡ string_bytes text.old ++ escaped key.now) }
{
    let mut rest = key;
    'escapes: while let Some((plain, after)) = rest.split_once('~') {
        push_slashed(text, plain)?;
        text.push_str("~0")?;
        rest = after;
    }
    push_slashed(text, rest)
}

/// Appends a key without `~`, with `~1` for each `/`.
fn push_slashed(text: &mut String, key: &str) -> Result<(), AllocError>
    ensures { OnOk result (string_bytes text.new ≡ string_bytes text.old ++ slashed key.now) }
{
    let mut rest = key;
    'escapes: while let Some((plain, after)) = rest.split_once('/') {
        text.push_str(plain)?;
        text.push_str("~1")?;
        rest = after;
    }
    text.push_str(rest)?;
    Ok(())
}

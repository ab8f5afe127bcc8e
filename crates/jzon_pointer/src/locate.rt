//! Where in a text the value stands that a JSON pointer names.
//!
//! The text is walked once, without a tree: what the pointer passes by is skipped by its brackets
//! and quotes alone. `pointed` of specs/Locate.antt says which value that is; of a text that the
//! reading rejects, any offset is right. An *item* is an element, or an entry's value. Tokens and
//! levels count from 0.
//!
//! The methods of the cycle `walk` call one another; proofs/locate/Walk/+walk says what gets
//! smaller: the number of tokens left.

ghost use Rattle.std.specs.Prelude.{◌≡◌, ◌<◌, ◌≤◌, ◌+◌, ◌∷◌, ◌++◌, [], List, ℕ, drop, length, chars, false, true, IfErr, IfOk, IfSome, IsOk, Ok, map, None, option_map, Some, slice_index, take};
ghost use Rattle.std.specs.List.{prefix_len};
ghost use Rattle.jzon_base.specs.declared.error.Error.TheVariants.{OutOfMemory};
ghost use Rattle.jzon.specs.Fault.{Parses};
ghost use Rattle.jzon.specs.Grammar.{Document};
ghost use Rattle.jzon.specs.Private.Lines.{is_below};
ghost use Rattle.jzon_pointer.specs.Locate.{has_slash, IsMeant, IsPlaceIn, IsPlaceOf, pointed, value_text};
ghost use Rattle.jzon_pointer.specs.Private.Walk.{EndsAfter, Finds, IsSpotOf, NamesQuoted, Passes, ReadsElement, ReadsEntry, ReadsKey, after_string, after_whitespace, is_memory, Outside, skim, string_rest};
ghost use Rattle.jzon_pointer.specs.Pointer.{index_named, names, tokens_of};

use crate::token::{first_token, index_of, is_name};
use jzon::{Error, Place, Reading, parse};
use jzon_base::util::plain::plain_len;
use std::alloc::{AllocError, Global};
use std::simd::prelude::*;

/// How many bytes are compared at once.
const LANES: usize = 16;

/// A `usize` has no more digits.
const INDEX_DIGITS: usize = 20;

/// Where a value stands, as byte offsets.
#[derive(Clone, Copy)]
struct Spot {
    /// That of the opening quote of its key, or of the value itself if it has none.
    name: usize,
    value: usize,
}

/// What a walk over a value has come to.
#[derive(Clone, Copy)]
struct Passed {
    /// The value inside it that the tokens name.
    found: Option<Spot>,
    /// The offset of the comma or bracket after the value, or `None` after a named one if keys are
    /// unique.
    end: Option<usize>,
}

/// An entry of an object, whose key's opening quote is known.
#[derive(Clone, Copy)]
struct Entry {
    /// The offset after the closing quote of the key.
    key_end: usize,
    /// The offset of the value.
    value: usize,
}

/// A walk over a text to the value that tokens name.
#[derive(Drop)]
struct Walk<'a> {
    alloc: Global,
    text: &'a str,
    tokens: Vec<&'a str>,
    /// How many containers that aren't empty the reading allows to be open.
    depth: usize,
    /// Whether no object has a key twice.
    unique: bool,
}

/// The place of the value that a pointer names in a text that the reading accepts: of a repeated
/// key the last one counts. `None` if it names none. Of a text that the reading rejects, it may be
/// any place or none.
///
/// Takes time in proportion to text and pointer; a strict reading, which accepts no repeated key,
/// ends at the place. Memory is taken for the pointer's tokens, and for one key with an escape at a
/// time: the only error is `OutOfMemory`, and none if the pointer is empty or begins with no slash.
/// By `meant` the value is the one that `jzon_pointer::find` returns.
///
/// `/a/1` in `{"a": [1, true]}` is at offset 10, in line 1 and column 11.
#[tactic(auto, using(crate::proofs::LocateMeaning::is_meant))]
pub fn value_in(
    alloc: Global,
    text: &str,
    pointer: &str,
    reading: &Reading,
) -> jzon::Result<Option<Place>>
    ensures place { IfOk result (λ found. IfSome found (IsPlaceIn text.now)) }
    ensures named { IfOk result (λ found. (d : Document) → Parses reading.now (chars text.now) d
        → IsPlaceOf text.now value_text found (pointed d pointer.now)) }
    ensures memory { IfErr result (λ e. e ≡ OutOfMemory) }
    ensures free { has_slash pointer.now ≡ false → IsOk result }
    ensures meant { IsMeant pointer.now }
{
    match spot_in(alloc, text, pointer, reading)? {
        Some(spot) => Ok(Place::at(text, spot.value)),
        None => Ok(None),
    }
}

/// The place of the opening quote of the key of the entry that a pointer names, of a repeated key
/// the last one; of an element or the whole value, its own. `None`, time and errors are as with
/// `value_in`.
pub fn key_in(
    alloc: Global,
    text: &str,
    pointer: &str,
    reading: &Reading,
) -> jzon::Result<Option<Place>>
    ensures place { IfOk result (λ found. IfSome found (IsPlaceIn text.now)) }
    ensures named { IfOk result (λ found. (d : Document) → Parses reading.now (chars text.now) d
        → IsPlaceOf text.now (λ p. p.from) found (pointed d pointer.now)) }
    ensures memory { IfErr result (λ e. e ≡ OutOfMemory) }
    ensures free { has_slash pointer.now ≡ false → IsOk result }
{
    match spot_in(alloc, text, pointer, reading)? {
        Some(spot) => Ok(Place::at(text, spot.name)),
        None => Ok(None),
    }
}

/// Where the value and its key stand that a pointer names, or `None` if it names none.
fn spot_in(
    alloc: Global,
    text: &str,
    pointer: &str,
    reading: &Reading,
) -> jzon::Result<Option<Spot>>
    ensures named { IfOk result (λ found. (d : Document) → Parses reading.now (chars text.now) d
        → IsSpotOf text.now found (pointed d pointer.now)) }
    ensures memory { IfErr result (λ e. e ≡ OutOfMemory) }
    ensures free { has_slash pointer.now ≡ false → IsOk result }
{
    let Some(tokens) = tokens_in(alloc, pointer)? else {
        return Ok(None);
    };
    let start = whitespace_end(text.as_bytes(), 0);
    let walk = Walk {
        alloc,
        text,
        tokens,
        depth: usize::from(reading.depth()),
        unique: reading.strict(),
    };
    let whole = Spot {
        name: start,
        value: start,
    };
    Ok(walk.find(whole, 0)?.found)
}

/// The tokens of a pointer, or `None` if its text isn't empty and begins with no slash.
fn tokens_in<'a>(alloc: Global, pointer: &'a str) -> Result<Option<Vec<&'a str>>, AllocError>
    ensures tokens { IfOk result (λ tokens. option_map (λ ts. map (λ t. t.now) ts.items) tokens
        ≡ tokens_of pointer.now) }
    ensures free { has_slash pointer.now ≡ false → IsOk result }
{
    let mut tokens = Vec::new(alloc);
    if pointer.is_empty() {
        return Ok(Some(tokens));
    }
    let after_slash = match pointer.strip_prefix('/') {
        Some(path) => path,
        None => return Ok(None),
    };
    let mut left = Some(after_slash);
    'tokens: while let Some(path) = left {
        let (token, others) = first_token(path);
        tokens.push(token)?;
        left = others;
    }
    Ok(Some(tokens))
}

impl Walk<'_> {
    /// Walks over the value at a spot to what the tokens from number `level` on name in it. `level`
    /// containers are around it; if no more may be open, it has nothing inside, and isn't entered.
    #[cycle(walk)]
    fn find(&self, spot: Spot, level: usize) -> jzon::Result<Passed>
        requires { spot.value ≤ length self.now.text.now }
        ensures free { length self.now.tokens.items ≤ level → IsOk result }
        ensures found { IfOk result (Finds self.now.text.now self.now.unique self.now.depth
            (drop level (map (λ t. t.now) self.now.tokens.items)) level spot) }
        ensures within { IfOk result (λ w. IfSome w.end (λ e. (spot.value ≤ e) × (e ≤ length self.now.text.now))) }
        ensures memory { IfErr result (λ e. e ≡ OutOfMemory) }
    {
        if level >= self.tokens.len() {
            return Ok(Passed {
                found: Some(spot),
                end: self.end_after(spot.value, 0),
            });
        }
        if level < self.depth {
            match byte_at(self.text.as_bytes(), spot.value) {
                b'[' => return self.find_element(spot, level),
                b'{' => return self.find_member(spot, level),
                _ => {}
            }
        }
        Ok(Passed {
            found: None,
            end: self.end_after(spot.value, 0),
        })
    }

    /// Walks over the array at a spot, by the tokens from number `level` on.
    #[cycle(walk)]
    fn find_element(&self, spot: Spot, level: usize) -> jzon::Result<Passed>
        requires level { level < length self.now.tokens.items }
        requires bracket { slice_index self.now.text.now spot.value ≡ 91 }
        requires within { spot.value < length self.now.text.now }
        ensures found { IfOk result (Finds self.now.text.now self.now.unique self.now.depth
            (drop level (map (λ t. t.now) self.now.tokens.items)) level spot) }
        ensures within { IfOk result (λ w. IfSome w.end (λ e. (spot.value ≤ e) × (e ≤ length self.now.text.now))) }
        ensures memory { IfErr result (λ e. e ≡ OutOfMemory) }
    {
        let start = spot.value + 1;
        let Some(at) = element_at(self.text.as_bytes(), start, self.tokens[level]) else {
            return Ok(Passed {
                found: None,
                end: self.end_after(start, 1),
            });
        };
        let element = self.find(
            Spot {
                name: at,
                value: at,
            },
            level + 1,
        )?;
        let Some(end) = element.end else {
            return Ok(element);
        };
        Ok(Passed {
            found: element.found,
            end: self.end_after(end, 1),
        })
    }

    /// Walks over the object at a spot, by the tokens from number `level` on: into the last of its
    /// entries whose key the first of them names.
    #[cycle(walk)]
    fn find_member(&self, spot: Spot, level: usize) -> jzon::Result<Passed>
        requires level { level < length self.now.tokens.items }
        requires bracket { slice_index self.now.text.now spot.value ≡ 123 }
        requires within { spot.value < length self.now.text.now }
        ensures found { IfOk result (Finds self.now.text.now self.now.unique self.now.depth
            (drop level (map (λ t. t.now) self.now.tokens.items)) level spot) }
        ensures within { IfOk result (λ w. IfSome w.end (λ e. (spot.value ≤ e) × (e ≤ length self.now.text.now))) }
        ensures memory { IfErr result (λ e. e ≡ OutOfMemory) }
    {
        let bytes = self.text.as_bytes();
        let mut found = None;
        let mut name = whitespace_end(bytes, spot.value + 1);
        'entries: while let Some(entry) = entry_at(bytes, name) {
            let passed = self.pass_entry(name, entry, level, found)?;
            let Some(end) = passed.end else {
                return Ok(passed);
            };
            found = passed.found;
            if byte_at(bytes, end) != b',' {
                return Ok(Passed {
                    found,
                    end: self.end_after(end, 1),
                });
            }
            name = whitespace_end(bytes, end + 1);
        }
        Ok(Passed {
            found,
            end: self.end_after(name, 1),
        })
    }

    /// Walks over the entry whose key's quote is at `name`. What was `found` before stays, unless
    /// token `level` names the key: then what is inside the value counts, even if that is nothing.
    #[cycle(walk)]
    fn pass_entry(
        &self,
        name: usize,
        entry: Entry,
        level: usize,
        found: Option<Spot>,
    ) -> jzon::Result<Passed>
        requires level { level < length self.now.tokens.items }
        requires within { (name < entry.value) × (entry.value ≤ length self.now.text.now) }
        ensures passed { IfOk result (Passes self.now.text.now self.now.unique self.now.depth
            (drop level (map (λ t. t.now) self.now.tokens.items)) level name entry found) }
        ensures within { IfOk result (λ w. IfSome w.end (λ e. (name < e) × (e ≤ length self.now.text.now))) }
        ensures memory { IfErr result (λ e. e ≡ OutOfMemory) }
    {
        if is_key(
            self.alloc,
            self.text,
            name,
            entry.key_end,
            self.tokens[level],
        )? {
            let spot = Spot {
                name,
                value: entry.value,
            };
            return self.find(spot, level + 1);
        }
        Ok(Passed {
            found,
            end: Some(item_end(self.text.as_bytes(), entry.value, 0)),
        })
    }

    /// The offset of the comma or the closing bracket after an item of which `brackets` are open at
    /// `start` (`item_end`). `None` where keys are unique: no later key can be the same, so nothing
    /// after the value is looked for.
    fn end_after(&self, start: usize, brackets: usize) -> Option<usize>
        requires within { start ≤ length self.now.text.now }
        requires one { brackets ≤ 1 }
        ensures { EndsAfter self.now.text.now self.now.unique start brackets result }
    {
        if self.unique {
            return None;
        }
        Some(item_end(self.text.as_bytes(), start, brackets))
    }
}

/// The offset of the element that a token names, of the array whose bracket is before `start`.
/// `None` if the token is no index, or the array or the text ends before. (`byte_at` is 0 at the
/// text's end. The 0 of `item_end`: none of an element's brackets is open at its start.)
fn element_at(bytes: &[u8], start: usize, token: &str) -> Option<usize>
    requires { start ≤ length bytes.now }
    ensures element { ReadsElement bytes.now start token.now result }
    ensures within { IfSome result (λ at. (start ≤ at) × (at < length bytes.now)) }
{
    let index = index_in(token)?;
    let mut at = whitespace_end(bytes, start);
    for _passed in 0..index {
        let comma = item_end(bytes, at, 0);
        if byte_at(bytes, comma) != b',' {
            return None;
        }
        at = whitespace_end(bytes, comma + 1);
    }
    match byte_at(bytes, at) {
        0 | b']' => None,
        _ => Some(at),
    }
}

/// The index that a token names. One of more than `INDEX_DIGITS` bytes names none, and isn't read:
/// under a repeated key many arrays may be tested for the same token.
#[tactic(auto, using(crate::proofs::LocateIndex::long_token))]
fn index_in(token: &str) -> Option<usize>
    ensures { result ≡ index_named token.now }
{
    if token.len() > INDEX_DIGITS {
        return None;
    }
    index_of(token)
}

/// The entry whose key begins at an offset, or `None` if none does, as in `{}`.
fn entry_at(bytes: &[u8], name: usize) -> Option<Entry>
    requires { name ≤ length bytes.now }
    ensures entry { ReadsEntry bytes.now name result }
    ensures quote { IfSome result (λ _. slice_index bytes.now name ≡ 34) }
    ensures within { IfSome result (λ e. (name < e.value) × (e.value ≤ length bytes.now)) }
{
    if byte_at(bytes, name) != b'"' {
        return None;
    }
    let key_end = string_end(bytes, name + 1);
    let colon = whitespace_end(bytes, key_end);
    if byte_at(bytes, colon) != b':' {
        return None;
    }
    Some(Entry {
        key_end,
        value: whitespace_end(bytes, colon + 1),
    })
}

/// Whether a token names the key between these offsets, quotes included. Only one with an escape is
/// read into memory.
fn is_key(alloc: Global, text: &str, start: usize, end: usize, token: &str) -> jzon::Result<bool>
    ensures names { IfOk result (ReadsKey text.now start end token.now) }
    ensures memory { IfErr result (λ e. e ≡ OutOfMemory) }
{
    let Some(quoted) = text.get(start..end) else {
        return Ok(false);
    };
    if quoted.contains('\\') {
        return is_escaped_key(alloc, quoted, token);
    }
    Ok(is_plain_key(quoted, token))
}

/// Whether a token names the key in these quotes, which has no backslash.
fn is_plain_key(quoted: &str, token: &str) -> bool
    ensures { (key : List ℕ) → quoted.now ≡ 34 ∷ (key ++ 34 ∷ []) → result ≡ names token.now key }
{
    let Some(opened) = quoted.strip_prefix('"') else {
        return false;
    };
    match opened.strip_suffix('"') {
        Some(key) => is_name(token, key),
        None => false,
    }
}

/// Whether a token names the key that a string of JSON means. Each reading reads a string as
/// `parse` does. If it is no string, no reading accepts the text, and any answer is right.
fn is_escaped_key(alloc: Global, quoted: &str, token: &str) -> jzon::Result<bool>
    ensures names { IfOk result (NamesQuoted quoted.now token.now) }
    ensures memory { IfErr result (λ e. e ≡ OutOfMemory) }
{
    match parse(alloc, quoted) {
        Ok(string) => match string.as_str() {
            Some(key) => Ok(is_name(token, key)),
            None => Ok(false),
        },
        Err(error) => {
            if is_memory(&error) {
                return Err(error);
            }
            Ok(false)
        }
    }
}

fn is_memory(error: &Error) -> bool
    ensures test { result ≡ is_memory error.now }
    ensures error { result ≡ true → error.now ≡ OutOfMemory }
{
    matches!(error, Error::OutOfMemory)
}

/// The byte at an offset, or 0 at the end.
fn byte_at(bytes: &[u8], at: usize) -> u8
    ensures byte { result ≡ slice_index bytes.now at }
    ensures within { 0 < result → at < length bytes.now }
{
    match bytes.get(at) {
        Some(byte) => *byte,
        None => 0,
    }
}

/// The offset after the whitespace at an offset. Most often there is none, so that is tested first.
fn whitespace_end(bytes: &[u8], start: usize) -> usize
    requires { start ≤ length bytes.now }
    ensures rest { drop result bytes.now ≡ after_whitespace (drop start bytes.now) }
    ensures skims { (d : ℕ) → skim (Outside d) (drop result bytes.now) ≡ skim (Outside d) (drop start bytes.now) }
    ensures after { start ≤ result }
    ensures within { result ≤ length bytes.now }
{
    if start < bytes.len() && bytes[start] > b' ' {
        return start;
    }
    // In a text that a reading accepts, a byte up to the space, outside of strings, is whitespace.
    run_end(bytes, start, 0, b' ' + 1)
}

/// The offset after the digits at an offset. Numbers may be long, and have no quote, comma or
/// bracket.
fn digits_end(bytes: &[u8], start: usize) -> usize
    requires { start ≤ length bytes.now }
    ensures skims { (d : ℕ) → skim (Outside d) (drop result bytes.now) ≡ skim (Outside d) (drop start bytes.now) }
    ensures after { start ≤ result }
    ensures within { result ≤ length bytes.now }
{
    // `^ b'0'` makes the digits 0 to 9, and no other byte.
    run_end(bytes, start, b'0', 10)
}

/// The offset after the bytes from `start` on whose xor with `turn` is below `bound`. Many are
/// compared at once.
#[inline(never)]
fn run_end(bytes: &[u8], start: usize, turn: u8, bound: u8) -> usize
    requires { start ≤ length bytes.now }
    ensures { result ≡ start + prefix_len (is_below turn bound) (drop start bytes.now) }
{
    let mut at = start;
    while bytes.len() - at >= LANES {
        let run = run_in_lanes(bytes, at, turn, bound);
        if run < LANES {
            return at + run;
        }
        at += LANES;
    }
    at + run_by_bytes(&bytes[at..], turn, bound)
}

/// How many bytes at the start have an xor with `turn` below `bound`, byte by byte.
fn run_by_bytes(bytes: &[u8], turn: u8, bound: u8) -> usize
    ensures { result ≡ prefix_len (is_below turn bound) bytes.now }
{
    bytes
        .iter()
        .take_while(|byte| (**byte ^ turn) < bound)
        .count()
}

/// How many of the `LANES` bytes at `start`, up to the first other, have an xor with `turn` below
/// `bound`. Bit `i` of the mask is of byte `i`.
#[inline(always)]
fn run_in_lanes(bytes: &[u8], start: usize, turn: u8, bound: u8) -> usize
    requires { start + LANES ≤ length bytes.now }
    ensures { result ≡ prefix_len (is_below turn bound) (take LANES (drop start bytes.now)) }
{
    let lanes = Simd::<u8, 16>::from_slice(&bytes[start..]);
    let others = (lanes ^ Simd::splat(turn)).simd_ge(Simd::splat(bound));
    let mask = others.to_bitmask();
    if mask == 0 {
        LANES
    } else {
        mask.trailing_zeros() as usize
    }
}

/// The offset after the string whose opening quote is before `start`, or that of the text's end.
fn string_end(bytes: &[u8], start: usize) -> usize
    requires { start ≤ length bytes.now }
    ensures rest { drop result bytes.now ≡ after_string (drop start bytes.now) }
    ensures after { start ≤ result }
    ensures within { result ≤ length bytes.now }
{
    let mut escaped = false;
    let mut at = plain_end(bytes, start);
    while at < bytes.len() {
        let byte = bytes[at];
        at += 1;
        if !escaped && byte == b'"' {
            return at;
        }
        escaped = !escaped && byte == b'\\';
        if !escaped {
            at = plain_end(bytes, at);
        }
    }
    at
}

/// The offset after the bytes of a string from an offset on that need no escape.
fn plain_end(bytes: &[u8], at: usize) -> usize
    requires { at ≤ length bytes.now }
    ensures string { string_rest false (drop result bytes.now) ≡ string_rest false (drop at bytes.now) }
    ensures after { at ≤ result }
    ensures within { result ≤ length bytes.now }
{
    at + plain_len(&bytes[at..])
}

/// The offset of the comma or the closing bracket after an item of which `brackets` are open at
/// `start`, or that of the text's end.
fn item_end(bytes: &[u8], start: usize, brackets: usize) -> usize
    requires within { start ≤ length bytes.now }
    requires one { brackets ≤ 1 }
    ensures rest { drop result bytes.now ≡ skim (Outside brackets) (drop start bytes.now) }
    ensures after { start ≤ result }
    ensures within { result ≤ length bytes.now }
{
    let mut depth = brackets;
    let mut at = start;
    while at < bytes.len() {
        match bytes[at] {
            b'"' => at = string_end(bytes, at + 1),
            b'[' | b'{' => {
                depth += 1;
                at += 1;
            }
            b']' | b'}' | b',' if depth == 0 => return at,
            b']' | b'}' => {
                depth -= 1;
                at += 1;
            }
            0..=b' ' => at = whitespace_end(bytes, at + 1),
            b'0'..=b'9' => at = digits_end(bytes, at + 1),
            _ => at += 1,
        }
    }
    at
}

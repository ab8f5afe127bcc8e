//! A filter of few keys: most absent names are rejected without comparing keys.
ghost use Rattle.std.specs.Prelude.{◌≡◌, ◌<◌, ◌++◌, ◌∷◌, [], true, List, ℕ};
ghost use Rattle.std.specs.List.{list_any};
ghost use Rattle.std.specs.Str.{bytes_eq};
ghost use Rattle.jzon_base.specs.Private.Filter.{bit_of, HasBit, HaveBits};

use super::few::has_name;
use crate::key::Key;

/// How many bits the filter has, in words of 64.
const BITS: usize = 256;

/// Each key sets one of `BITS` bits, equal keys the same: a name whose bit isn't set is no key.
#[derive(Drop)]
pub struct Filter {
    words: [u64; 4],
}

/// The number of a key's bit, by its length, its first byte and its last two (of a key of one byte,
/// this byte). Other factors would change only how many keys are compared.
#[inline(always)]
#[tactic(auto, unfolding(crate::specs::Private::Filter::bit_of))]
fn bit_of(name: &str) -> usize
    ensures bit { result ≡ bit_of name.now }
    ensures within { result < 256 }
{
    let bytes = name.as_bytes();
    let len = bytes.len();
    if len == 0 {
        return 0;
    }
    let last = usize::from(bytes[len - 1]);
    let before = usize::from(bytes[len.saturating_sub(2)]);
    (len % 16 * 16 + usize::from(bytes[0]) + last * 2 + before * 21) % BITS
}

impl Filter {
    /// A filter of no names.
    pub fn new() -> Filter
        ensures { HaveBits [] result.words }
    {
        Filter { words: [0; 4] }
    }

    /// Sets the bit of a name. Returns whether it was set before, by any name.
    #[inline(always)]
    fn set_bit(&mut self, name: &str) -> bool
        ensures known { HasBit self.old.words name.now → result ≡ true }
        ensures own { HasBit self.new.words name.now }
        ensures kept { (k : List ℕ) → HasBit self.old.words k → HasBit self.new.words k }
    {
        let bit = bit_of(name);
        let word = self.words[bit / 64];
        self.words[bit / 64] = word | 1 << (bit % 64);
        word >> (bit % 64) & 1 == 1
    }

    /// Whether a key has this name. The bits of the keys must be set; that of the name is set now.
    /// Keys are compared only if it was set before.
    #[inline(always)]
    pub fn has_or_notes(&mut self, keys: &[Key], name: &str) -> bool
        requires { HaveBits keys.now self.old.words }
        ensures known { result ≡ list_any (λ k. bytes_eq k name.now) keys.now }
        ensures bits { HaveBits (keys.now ++ name.now ∷ []) self.new.words }
    {
        self.set_bit(name) && has_name(keys, name)
    }
}

//! One token before a JSON pointer (RFC 6901, sections 3 and 4).

ghost use Rattle.std.specs.Prelude.{◌≡◌, ◌∷◌, ◌++◌, IfOk, string_bytes};
ghost use Rattle.std.specs.Fmt.{decimal};
ghost use Rattle.jzon_pointer.specs.Escaped.{escaped};

use crate::token::push_escaped;
use std::alloc::{AllocError, Global};

/// `/`, the key with `~0` for `~` and `~1` for `/`, and the pointer.
pub fn below_key(alloc: Global, key: &str, pointer: &str) -> Result<String, AllocError>
    ensures { IfOk result (λ t. string_bytes t ≡ 47 ∷ escaped key.now ++ pointer.now) }
{
    let room = key.len().saturating_add(pointer.len()).saturating_add(1);
    let mut text = String::with_capacity(alloc, room)?;
    text.push_str("/")?;
    push_escaped(&mut text, key)?;
    text.push_str(pointer)?;
    Ok(text)
}

/// `/`, the index in decimal, and the pointer.
pub fn below_index(alloc: Global, index: usize, pointer: &str) -> Result<String, AllocError>
    ensures { IfOk result (λ t. string_bytes t ≡ 47 ∷ decimal index ++ pointer.now) }
{
    format!(in alloc; "/{index}{pointer}")
}

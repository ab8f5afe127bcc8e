//! Keeps the 88 bytes of an `io::Error` out of return values: it is stored in a variable, the
//! *slot*, and `Failed` is returned. In clauses `Sends (Just bytes)` says that a writer received
//! these bytes, or after an error a prefix.
#![tactic(auto, using(crate::proofs::Printing::Appends::sent))]

ghost use Rattle.std.specs.Prelude.{◌≡◌, ◌≤◌, Some, Ok, IfErr, IsErr, IsSome, OnOk, OnErr, MatchResult, length, drop};
ghost use Rattle.jzon_tree.specs.Generator.{Sends, Just};

use jzon_base::util::write_bytes;
use std::io::{self, ErrorKind, Write};

/// The error of a failed call, or `None`.
pub type ErrorSlot = Option<io::Error>;

/// A call failed; its error is in the slot.
#[derive(Drop)]
pub struct Failed;

/// The result of a call whose error is stored.
pub type SlotResult<T> = Result<T, Failed>;

/// Moves an error into the slot, and returns `Failed`.
#[inline]
pub(super) fn store<T>(answer: io::Result<T>, slot: &mut ErrorSlot) -> SlotResult<T>
    ensures answer { MatchResult answer (λ x. result ≡ Ok x) (λ _. IsErr result) }
    ensures slot { MatchResult answer (λ _. slot.new ≡ slot.old)
        (λ error. slot.new ≡ Some error) }
{
    match answer {
        Ok(value) => Ok(value),
        Err(error) => {
            *slot = Some(error);
            Err(Failed)
        }
    }
}

/// The result with the slot's error in place of `Failed`.
#[inline]
pub(super) fn take_result(step: SlotResult<()>, slot: ErrorSlot) -> io::Result<()>
    requires { OnErr step (IsSome slot) }
    ensures answer { MatchResult step (λ x. result ≡ Ok x) (λ _. IsErr result) }
    ensures error { IfErr result (λ error. slot ≡ Some error) }
{
    match step {
        Ok(()) => Ok(()),
        Err(Failed) => Err(slot.unwrap()),
    }
}

/// Writes the bytes, or a prefix if the writer fails; its error is then in the slot. For no bytes,
/// such as an empty run of a string, the writer isn't called.
#[inline(always)]
pub(super) fn send<W: Write>(writer: &mut W, bytes: &[u8], slot: &mut ErrorSlot) -> SlotResult<()>
    ensures bytes { Sends (Just bytes.now) (W.contents writer.old) (W.contents writer.new) result }
    ensures kept { OnOk result (slot.new ≡ slot.old) }
    ensures slot { OnErr result (IsSome slot.new) }
{
    if bytes.is_empty() {
        return Ok(());
    }
    let count = store(writer.write(bytes), slot)?;
    if count < bytes.len() {
        return send_rest(writer, bytes, count, slot);
    }
    Ok(())
}

/// Writes the bytes after the first `count`, which the writer took; if it took none, the error is
/// `WriteZero`. Cold, because most writers take all at once.
#[cold]
#[inline(never)]
fn send_rest<W: Write>(
    writer: &mut W,
    bytes: &[u8],
    count: usize,
    slot: &mut ErrorSlot,
) -> SlotResult<()>
    requires { count ≤ length bytes.now }
    ensures bytes { Sends (Just (drop count bytes.now)) (W.contents writer.old)
        (W.contents writer.new) result }
    ensures kept { OnOk result (slot.new ≡ slot.old) }
    ensures slot { OnErr result (IsSome slot.new) }
{
    if count == 0 {
        *slot = Some(io::Error::from(ErrorKind::WriteZero));
        return Err(Failed);
    }
    let (_taken, rest) = bytes.split_at(count);
    store(write_bytes(writer, rest), slot)
}

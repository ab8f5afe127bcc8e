//! What the crates share: the write loop, numbers as text, escapes, and bytes that need none.

ghost use Rattle.std.specs.Prelude.{OnOk, OnErr};
ghost use Rattle.std.specs.Io.KnownBytes.{Appends};
ghost use Rattle.jzon_base.specs.PartialWrites.{AppendsBeginning};

use std::io::{self, Write};

pub mod escapes;
pub mod plain;
pub mod print_dec;

/// Writes all bytes, and doesn't flush. Any error of the writer is returned, even `Interrupted`, at
/// which std's `write_all` goes on, and `WriteZero` if it takes 0 bytes. Then a prefix of the bytes
/// has been written.
pub fn write_bytes<W: Write>(writer: &mut W, bytes: &[u8]) -> io::Result<()>
    ensures ok { OnOk result (Appends (W.contents writer.old) (W.contents writer.new) bytes.now) }
    ensures err { OnErr result
        (AppendsBeginning (W.contents writer.old) (W.contents writer.new) bytes.now) }
{
    let mut written = 0;
    while written < bytes.len() {
        let count = writer.write(&bytes[written..])?;
        if count == 0 {
            return Err(io::Error::from(io::ErrorKind::WriteZero));
        }
        written += count;
    }
    Ok(())
}

//! A writer that accepts one byte per call, and fails at one call.

use std::alloc::{AllocError, Global};
use std::io;
use std::io::{ErrorKind, Write};

/// The words of the errors of a writer or a reader that fails with a kind.
pub const WORDS: &str = "words of its own";

/// The number of the failing call, for a writer that never fails: calls are counted from 1.
pub const NO_FAILING_CALL: usize = 0;

/// What a writer does at the failing call.
#[derive(Clone, Copy, Debug, PartialEq, Eq)]
pub enum Trouble {
    TakesNothing,
    /// Fails with this kind, and with `WORDS`.
    Fails(ErrorKind),
    /// Fails with this error of the system.
    FailsBySystem(i32),
}

impl Trouble {
    /// The error at the failing call. A writer that takes nothing has none of its own; a caller
    /// then makes one of the kind `WriteZero`.
    pub fn error(self) -> io::Error {
        match self {
            Trouble::TakesNothing => io::Error::from(ErrorKind::WriteZero),
            Trouble::Fails(kind) => io::Error::new(kind, WORDS),
            Trouble::FailsBySystem(code) => io::Error::from_raw_os_error(code),
        }
    }

    /// Whether it is the error that a caller should return: the writer's own, by its kind, its code
    /// and its words, or any error of the kind `WriteZero`.
    pub fn is_returned(self, alloc: Global, error: &io::Error) -> Result<bool, AllocError> {
        match self {
            Trouble::TakesNothing => Ok(error.kind() == ErrorKind::WriteZero),
            _ => is_same_error(alloc, error, &self.error()),
        }
    }
}

/// Every kind of error that a reader or a writer may have, and some errors of the system: of input
/// and output, an interruption, a full device and a broken pipe.
pub const FAILURES: &[Trouble] = &[
    Trouble::Fails(ErrorKind::NotFound),
    Trouble::Fails(ErrorKind::PermissionDenied),
    Trouble::Fails(ErrorKind::ConnectionRefused),
    Trouble::Fails(ErrorKind::ConnectionReset),
    Trouble::Fails(ErrorKind::HostUnreachable),
    Trouble::Fails(ErrorKind::NetworkUnreachable),
    Trouble::Fails(ErrorKind::ConnectionAborted),
    Trouble::Fails(ErrorKind::NotConnected),
    Trouble::Fails(ErrorKind::AddrInUse),
    Trouble::Fails(ErrorKind::AddrNotAvailable),
    Trouble::Fails(ErrorKind::NetworkDown),
    Trouble::Fails(ErrorKind::BrokenPipe),
    Trouble::Fails(ErrorKind::AlreadyExists),
    Trouble::Fails(ErrorKind::WouldBlock),
    Trouble::Fails(ErrorKind::NotADirectory),
    Trouble::Fails(ErrorKind::IsADirectory),
    Trouble::Fails(ErrorKind::DirectoryNotEmpty),
    Trouble::Fails(ErrorKind::ReadOnlyFilesystem),
    Trouble::Fails(ErrorKind::FilesystemLoop),
    Trouble::Fails(ErrorKind::StaleNetworkFileHandle),
    Trouble::Fails(ErrorKind::InvalidInput),
    Trouble::Fails(ErrorKind::InvalidData),
    Trouble::Fails(ErrorKind::TimedOut),
    Trouble::Fails(ErrorKind::WriteZero),
    Trouble::Fails(ErrorKind::StorageFull),
    Trouble::Fails(ErrorKind::NotSeekable),
    Trouble::Fails(ErrorKind::QuotaExceeded),
    Trouble::Fails(ErrorKind::FileTooLarge),
    Trouble::Fails(ErrorKind::ResourceBusy),
    Trouble::Fails(ErrorKind::ExecutableFileBusy),
    Trouble::Fails(ErrorKind::Deadlock),
    Trouble::Fails(ErrorKind::CrossesDevices),
    Trouble::Fails(ErrorKind::TooManyLinks),
    Trouble::Fails(ErrorKind::InvalidFilename),
    Trouble::Fails(ErrorKind::ArgumentListTooLong),
    Trouble::Fails(ErrorKind::Interrupted),
    Trouble::Fails(ErrorKind::Unsupported),
    Trouble::Fails(ErrorKind::UnexpectedEof),
    Trouble::Fails(ErrorKind::OutOfMemory),
    Trouble::Fails(ErrorKind::Other),
    Trouble::FailsBySystem(4),
    Trouble::FailsBySystem(5),
    Trouble::FailsBySystem(28),
    Trouble::FailsBySystem(32),
];

/// Whether both errors have the same kind, the same code and the same words.
pub fn is_same_error(
    alloc: Global,
    one: &io::Error,
    other: &io::Error,
) -> Result<bool, AllocError> {
    let words = format!(in alloc; "{one}")?;
    let same_words = format!(in alloc; "{other}")?;
    Ok(
        one.kind() == other.kind()
            && one.raw_os_error() == other.raw_os_error()
            && words == same_words,
    )
}

/// Accepts one byte per call, except at one call, where it fails or accepts nothing. A flush may
/// fail too.
#[derive(Drop)]
pub struct SlowWriter {
    /// The bytes accepted so far.
    pub bytes: Vec<u8>,
    /// How often `write` was called.
    pub calls: usize,
    /// How often `flush` was called.
    pub flushes: usize,
    /// What the first flush does, if it fails.
    pub flush_trouble: Option<Trouble>,
    trouble_at: usize,
    trouble: Trouble,
}

impl SlowWriter {
    /// A writer that fails in this way at this call; the first call is 1.
    pub fn new(alloc: Global, trouble_at: usize, trouble: Trouble) -> SlowWriter {
        SlowWriter {
            bytes: Vec::new(alloc),
            calls: 0,
            flushes: 0,
            flush_trouble: None,
            trouble_at,
            trouble,
        }
    }
}

impl Write for SlowWriter {
    ghost use Rattle.std.specs.Prelude.{Some};

    ghost contents = { λ writer. Some writer.bytes.items };

    fn write(&mut self, buf: &[u8]) -> io::Result<usize> {
        self.calls = self.calls.saturating_add(1);
        if self.calls == self.trouble_at {
            return match self.trouble {
                Trouble::TakesNothing => Ok(0),
                trouble => Err(trouble.error()),
            };
        }
        let Some(first) = buf.first() else {
            return Ok(0);
        };
        self.bytes.push(*first)?;
        Ok(1)
    }

    fn flush(&mut self) -> io::Result<()> {
        self.flushes = self.flushes.saturating_add(1);
        match self.flush_trouble {
            Some(trouble) if self.flushes == 1 => Err(trouble.error()),
            _ => Ok(()),
        }
    }
}

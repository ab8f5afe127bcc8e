//! What the program does, over any reader and any writers (docs/JZONFMT.md).

ghost use Rattle.std.specs.Prelude.{◌≡◌, ℕ, List, [], IfOk, IfErr, OnOk, map, option_map, string_bytes, vec_len};
ghost use Rattle.std.specs.Io.KnownBytes.{Consumes, Keeps};
ghost use Rattle.jzon.specs.View.{view};
ghost use Rattle.jzonfmt.specs.Run.{Answers, IsReadFault, ReadsInput, Runs, WritesWhole, output_line, text};
ghost use Rattle.jzonfmt.specs.Drive.{Drives, asked_layout, asked_options, asked_spaces, asking, fault_status};

use jzon::{Error, JsonValue, Reading, util};
use std::alloc::{AllocError, Global};
use std::io::{Read, Write};
use std::{fmt, io, mem};

/// The layouts of the arguments.
#[derive(Clone, Copy, Debug, PartialEq, Eq)]
pub enum Layout {
    /// Without whitespace.
    Compact,
    /// On lines, indented by this many spaces a level, as by `JsonValue::pretty`.
    Pretty(u16),
}

#[derive(Clone, Copy, Debug)]
pub struct Options {
    pub reading: Reading,
    pub layout: Layout,
}

/// Why a text was not printed, or only in part.
#[derive(Debug, Drop)]
pub enum RunFault {
    /// The reader failed, an interruption included; or the arguments couldn't be read.
    Read(io::Error),
    NotUtf8,
    /// The text was rejected.
    Json(Error),
    /// The writer failed.
    Write(io::Error),
    /// An allocation failed.
    Memory,
}

impl RunFault {
    /// The exit status (docs/JZONFMT.md): 1 for the input, 3 for the system.
    pub fn status(&self) -> u8
        ensures { result ≡ fault_status self.now }
    {
        match self {
            RunFault::NotUtf8 | RunFault::Json(_) => 1,
            RunFault::Read(_) | RunFault::Write(_) | RunFault::Memory => 3,
        }
    }
}

/// The message, without a newline.
impl fmt::Display for RunFault {
    ghost use Rattle.std.specs.Prelude.{Some};
    ghost use Rattle.jzonfmt.specs.Drive.{fault_text};

    ghost output = { λ fault. Some (fault_text fault) };

    fn fmt<W: fmt::Write>(&self, f: &mut fmt::Formatter<W>) -> fmt::Result {
        match self {
            RunFault::Read(_) => f.write_str("reading failed"),
            RunFault::NotUtf8 => f.write_str("input is not UTF-8"),
            RunFault::Json(error) => write!(f, "{error}"),
            RunFault::Write(_) => f.write_str("writing failed"),
            RunFault::Memory => f.write_str("Out of memory"),
        }
    }
}

impl From<AllocError> for RunFault {
    ghost use Rattle.jzonfmt.specs.declared.engine.RunFault.TheVariants.{Memory};

    ghost from_gives = { λ _ fault. fault ≡ Memory };

    fn from(_error: AllocError) -> RunFault {
        RunFault::Memory
    }
}

/// A failed allocation becomes `Memory`: its status isn't that of a rejected text.
impl From<Error> for RunFault {
    ghost use Rattle.std.specs.Prelude.{◌≡◌};
    ghost use Rattle.jzonfmt.specs.Run.{fault_of};

    ghost from_gives = { λ error fault. fault ≡ fault_of error };

    fn from(error: Error) -> RunFault {
        match error {
            Error::OutOfMemory => RunFault::Memory,
            error => RunFault::Json(error),
        }
    }
}

/// How many bytes are read at once.
const CHUNK_SIZE: usize = 65536;

/// Reads one text to the end, and then writes its value in `layout` and a newline. The reader's
/// first error ends the run.
pub fn run<R: Read, W: Write>(
    alloc: Global,
    reader: &mut R,
    writer: &mut W,
    reading: &Reading,
    layout: Layout,
) -> Result<(), RunFault>
    ensures { Runs reading.now layout result
        (record { unread = R.remaining reader.old; written = W.contents writer.old })
        (record { unread = R.remaining reader.new; written = W.contents writer.new }) }
{
    let input = read_input(alloc, reader)?;
    print_input(alloc, input.as_slice(), writer, reading, layout)
}

/// All bytes of the reader, not by `read_to_end`, which reads on after an interruption, an error here.
fn read_input<R: Read>(alloc: Global, reader: &mut R) -> Result<Vec<u8>, RunFault>
    ensures all { IfOk result
        (λ input. ReadsInput result (R.remaining reader.old) (R.remaining reader.new) input.items) }
    ensures fault { IfErr result IsReadFault }
    ensures some { (input : List ℕ) × Consumes (R.remaining reader.old)
        (R.remaining reader.new) input }
{
    let mut input = Vec::new(alloc);
    let mut chunk = zeros(alloc, CHUNK_SIZE)?;
    loop {
        let count = reader.read(&mut chunk).map_err(RunFault::Read)?;
        if count == 0 {
            return Ok(input);
        }
        input.extend_from_slice(&chunk[..count])?;
    }
}

/// `count` zero bytes, apart so that a proof sees only their number.
fn zeros(alloc: Global, count: usize) -> Result<Vec<u8>, AllocError>
    ensures { IfOk result (λ bytes. vec_len bytes ≡ count) }
{
    vec![in alloc; 0u8; count]
}

/// Prints the value of the JSON text in `input`. All memory is allocated before the first write, so
/// only a failed write leaves a part of the output.
fn print_input<W: Write>(
    alloc: Global,
    input: &[u8],
    writer: &mut W,
    reading: &Reading,
    layout: Layout,
) -> Result<(), RunFault>
    ensures { Answers reading.now layout input.now result (W.contents writer.old)
        (W.contents writer.new) }
{
    let Ok(source) = str::from_utf8(input) else {
        return Err(RunFault::NotUtf8);
    };
    let value = jzon::parse_as(alloc, source, reading)?;
    let answer = write_line(writer, &value, layout);
    // The program ends now: dropping the value would only cost time.
    mem::forget(value);
    answer.map_err(RunFault::Write)
}

/// Writes the text of the value in the layout and a newline; after an error, a prefix of them.
fn write_line<W: Write>(writer: &mut W, value: &JsonValue, layout: Layout) -> io::Result<()>
    ensures { WritesWhole (output_line layout (view value.now)) result (W.contents writer.old)
        (W.contents writer.new) }
{
    write_text(writer, value, layout)?;
    util::write_bytes(writer, b"\n")
}

/// Writes the text of the value in the layout; after an error, a prefix of it.
fn write_text<W: Write>(writer: &mut W, value: &JsonValue, layout: Layout) -> io::Result<()>
    ensures { WritesWhole (text layout (view value.now)) result (W.contents writer.old)
        (W.contents writer.new) }
{
    match layout {
        Layout::Compact => value.write(writer),
        Layout::Pretty(spaces) => value.write_pretty(writer, spaces),
    }
}

/// The program, apart from where its arguments (`words`) and streams come from. Flushes the writer
/// if `run` succeeds; else writes a message to `faults`, if that can be written. Returns the exit
/// status: 0, 2 for wrong arguments, or that of the `RunFault`.
pub fn drive<R: Read, W: Write, F: Write>(
    alloc: Global,
    words: &[String],
    reader: &mut R,
    writer: &mut W,
    faults: &mut F,
) -> u8
    ensures status { Drives (map string_bytes words.now) result
        (record { unread = R.remaining reader.old; written = W.contents writer.old })
        (record { unread = R.remaining reader.new; written = W.contents writer.new }) }
    ensures silent { result ≡ 0 → Keeps (F.contents faults.old) (F.contents faults.new) }
{
    let Some(options) = options_of(words) else {
        let _ = writeln!(faults, "jzonfmt: usage: jzonfmt [--strict] [--pretty N]");
        return 2;
    };
    match run(alloc, reader, writer, &options.reading, options.layout) {
        Ok(()) => match writer.flush() {
            Ok(()) => 0,
            Err(error) => report(faults, &RunFault::Write(error)),
        },
        Err(fault) => report(faults, &fault),
    }
}

/// The options that these arguments ask for; `None` if they are wrong.
fn options_of(words: &[String]) -> Option<Options>
    ensures { result ≡ asked_options (map string_bytes words.now) }
{
    let (strict, words) = split_strict(words);
    let layout = layout_of(words)?;
    let reading = if strict {
        Reading::STRICT
    } else {
        Reading::USUAL
    };
    Some(Options { reading, layout })
}

/// Whether `--strict` is the first argument, or the last of three (after `--pretty N`); and the
/// others.
fn split_strict(words: &[String]) -> (bool, &[String])
    ensures { asked_options (map string_bytes words.now)
        ≡ option_map (asking result.0) (asked_layout (map string_bytes result.1.now)) }
{
    match words {
        [option, rest @ ..] if option.as_str() == "--strict" => (true, rest),
        [_, _, option] if option.as_str() == "--strict" => (true, &words[..2]),
        _ => (false, words),
    }
}

/// The layout that the arguments but `--strict` ask for; `None` if they are wrong.
fn layout_of(words: &[String]) -> Option<Layout>
    ensures { result ≡ asked_layout (map string_bytes words.now) }
{
    match words {
        [] => Some(Layout::Compact),
        [option, spaces] if option.as_str() == "--pretty" => {
            Some(Layout::Pretty(spaces_of(spaces.as_str())?))
        }
        _ => None,
    }
}

/// The number of spaces, of at most five digits and below 65536; else `None`.
fn spaces_of(word: &str) -> Option<u16>
    ensures { result ≡ asked_spaces word.now }
{
    // `parse` alone would accept a plus.
    if word.len() > 5 || word.as_bytes().first().copied() == Some(b'+') {
        return None;
    }
    word.parse().ok()
}

/// Writes the fault's message, if that can be written, and returns its exit status.
pub fn report<F: Write>(faults: &mut F, fault: &RunFault) -> u8
    ensures { result ≡ fault_status fault.now }
{
    let _ = writeln!(faults, "jzonfmt: {fault}");
    fault.status()
}

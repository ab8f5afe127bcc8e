//! The program's output and statuses, and readers and writers that fail.

ghost use Rattle.std.specs.Prelude.{Some};

use crate::engine;
use crate::engine::{Layout, RunFault};
use jzon::Reading;
use jzon_test_support::{
    DOCUMENT, FAILURES, Long, NO_FAILING_CALL, SlowWriter, Trouble, joined, keys_by_hash,
    keys_of_one_hash, object_text, spelled,
};
use std::alloc::Global;
use std::io;
use std::io::{ErrorKind, Read, Write};
use std::process::Abort;
use std::test::Fail;

const TEXT: &[u8] = b"-12.50e3";

const PRINTED: &[u8] = b"-12500\n";

/// Gives one byte a call; the call `fails_at`, counted from 1, fails with `trouble`.
#[derive(Drop)]
struct FailingReader<'a> {
    rest: &'a [u8],
    calls: usize,
    fails_at: usize,
    trouble: Trouble,
}

impl<'a> FailingReader<'a> {
    fn new(rest: &'a [u8], fails_at: usize, trouble: Trouble) -> FailingReader<'a> {
        FailingReader {
            rest,
            calls: 0,
            fails_at,
            trouble,
        }
    }
}

impl Read for FailingReader<'_> {
    ghost remaining = { λ reader. Some reader.rest.now };

    fn read(&mut self, buf: &mut [u8]) -> io::Result<usize> {
        self.calls = self.calls.saturating_add(1);
        if self.calls == self.fails_at {
            return Err(self.trouble.error());
        }
        if buf.is_empty() {
            return Ok(0);
        }
        self.rest.read(&mut buf[..1])
    }
}

/// Takes all bytes, and counts the calls.
#[derive(Drop)]
struct CountingWriter {
    bytes: Vec<u8>,
    calls: usize,
}

impl io::Write for CountingWriter {
    ghost contents = { λ writer. Some writer.bytes.items };

    fn write(&mut self, buf: &[u8]) -> io::Result<usize> {
        self.calls = self.calls.saturating_add(1);
        self.bytes.extend_from_slice(buf)?;
        Ok(buf.len())
    }

    fn flush(&mut self) -> io::Result<()> {
        Ok(())
    }
}

/// The arguments with commas between them, the input, the status, the output and the message.
type Row<'a> = (Option<&'a str>, &'a [u8], u8, &'a str, &'a str);

macro_rules! done {
    ($input:expr, $output:expr $(,)?) => {
        (None, $input, 0, $output, "")
    };
}

macro_rules! rejected {
    ($input:expr, $message:expr $(,)?) => {
        (None, $input, 1, "", $message)
    };
}

macro_rules! done_with {
    ($words:expr, $input:expr, $output:expr $(,)?) => {
        (Some($words), $input, 0, $output, "")
    };
}

macro_rules! misused {
    ($words:expr) => {
        (Some($words), TEXT, 2, "", "jzonfmt: usage: jzonfmt [--strict] [--pretty N]\n")
    };
}

/// The arguments of a row.
fn words_of(alloc: Global, words: Option<&str>) -> Result<Vec<String>, Fail> {
    let mut all = Vec::new(alloc);
    if let Some(words) = words {
        for word in words.split(',') {
            all.push(String::from_str(alloc, word)?)?;
        }
    }
    Ok(all)
}

/// Asserts `holds`, with the message `row`. A call is proved much faster than an assertion.
pub(crate) fn expect(rt: &impl Abort, row: &str, holds: bool) {
    assert!(rt; holds, "{row}");
}

/// The reading of `parse`.
fn usual() -> Reading {
    Reading::new(false, 512).unwrap()
}

/// A writer that accepts one byte a call, and never fails.
fn slow(alloc: Global) -> SlowWriter {
    SlowWriter::new(alloc, NO_FAILING_CALL, Trouble::TakesNothing)
}

/// The program gives the row's status, output and message.
fn expect_driven(rt: &impl Abort, alloc: Global, row: &Row<'_>) -> Result<(), Fail> {
    let (words, input, status, output, message) = *row;
    let words = words_of(alloc, words)?;
    let (mut reader, mut writer, mut faults) = (input, slow(alloc), slow(alloc));
    let found = engine::drive(alloc, &words, &mut reader, &mut writer, &mut faults);
    expect(rt, message, faults.bytes.as_slice() == message.as_bytes());
    expect(rt, message, found == status);
    expect(rt, output, writer.bytes.as_slice() == output.as_bytes());
    // Only what was written whole is flushed.
    expect(rt, output, writer.flushes == usize::from(status == 0));
    // Arguments are tested before anything is read.
    let left = if status == 2 { input.len() } else { 0 };
    expect(rt, message, reader.len() == left);
    Ok(())
}

fn expect_rows(rt: &impl Abort, alloc: Global, rows: &[Row<'_>]) -> Result<(), Fail> {
    for row in rows {
        expect_driven(rt, alloc, row)?;
    }
    Ok(())
}

/// Inputs and arguments of the statuses 0, 1 and 2; for 3 a reader or a writer must fail.
const LINES_AND_STATUSES: &[Row<'static>] = &[
    done!(TEXT, "-12500\n"),
    done!(b" \t\r\n\x0b\x0cnull \n", "null\n"),
    done!(b"true", "true\n"),
    done!(b"false\n", "false\n"),
    done!(
        b" [1,[2,{\"b\":[]}],\"three\"] ",
        "[1,[2,{\"b\":[]}],\"three\"]\n",
    ),
    done!(b"18446744073709551615.5", "18446744073709551615\n"),
    rejected!(b"", "jzonfmt: Unexpected end of JSON\n"),
    rejected!(b"  ", "jzonfmt: Unexpected end of JSON\n"),
    rejected!(b"tru", "jzonfmt: Unexpected end of JSON\n"),
    rejected!(b"01", "jzonfmt: Unexpected character: 1 at (1:2)\n"),
    rejected!(b"\n\nnulX\n", "jzonfmt: Unexpected character: X at (3:4)\n"),
    rejected!(b"\xff", "jzonfmt: input is not UTF-8\n"),
    rejected!(b"x\xc3", "jzonfmt: input is not UTF-8\n"),
    rejected!(b"null\xed\xa0\x80", "jzonfmt: input is not UTF-8\n"),
    rejected!(b"[\n}", "jzonfmt: Unexpected character: } at (2:1)\n"),
    // Control characters are printed as they are.
    rejected!(b"[\x1b", "jzonfmt: Unexpected character: \u{1b} at (1:2)\n"),
    rejected!(b"\"a\n\"", "jzonfmt: Unexpected character: \n at (1:3)\n"),
    rejected!(
        b"\n\nnul\xf0\x9f\xa6\x84\n",
        "jzonfmt: Unexpected character: 🦄 at (3:4)\n",
    ),
    rejected!(
        b"[\"\\uDC00\\uDC00\"}",
        "jzonfmt: Failed to parse UTF-8 bytes\n",
    ),
    misused!(""),
    misused!("-"),
    misused!("--compact"),
    misused!("--strict=1"),
];

#[test]
fn lines_and_statuses(rt: HostRuntime) -> Result<(), Fail> {
    expect_rows(&rt, rt.alloc(), LINES_AND_STATUSES)
}

/// The forms of `--pretty`.
const ON_LINES: &[Row<'static>] = &[
    done_with!(
        "--pretty,2",
        b"{\"a\":[1,{}]}",
        "{\n  \"a\": [\n    1,\n    {}\n  ]\n}\n",
    ),
    done_with!("--pretty,007", b"[1]", "[\n       1\n]\n"),
    done_with!("--pretty,0", b"[1]", "[\n1\n]\n"),
    done_with!("--pretty,00001", b"[[],1]", "[\n [],\n 1\n]\n"),
    done_with!("--pretty,65535", TEXT, "-12500\n"),
    misused!("--pretty"),
    misused!("--pretty,65536"),
    misused!("--pretty,000001"),
    misused!("--pretty,"),
    misused!("--pretty,+2"),
    misused!("--pretty,-2"),
    misused!("--pretty,2x"),
    misused!("--pretty,2,2"),
    misused!("--pretty,2,--pretty,2"),
    misused!("2,--pretty"),
    misused!("-pretty,2"),
];

#[test]
fn prints_on_lines(rt: HostRuntime) -> Result<(), Fail> {
    expect_rows(&rt, rt.alloc(), ON_LINES)
}

const REPEATED: &str = "jzonfmt: Duplicate key at (1:8)\n";

const TWICE: &[u8] = b"{\"a\":1,\"a\":2}";

const STRICT: &[Row<'static>] = &[
    (Some("--strict"), TWICE, 1, "", REPEATED),
    done!(TWICE, "{\"a\":2}\n"),
    done_with!("--strict", b"{\"a\": 1,\"b\":1}", "{\"a\":1,\"b\":1}\n"),
    done_with!("--pretty,2,--strict", b"[1]", "[\n  1\n]\n"),
    done_with!("--strict,--pretty,2", b"[1]", "[\n  1\n]\n"),
    misused!("--strict,--strict"),
    misused!("--strict,--pretty"),
    misused!("--pretty,--strict"),
    misused!("--strict,--pretty,2,--strict"),
    misused!("--pretty,--strict,2"),
    misused!("--strict,--strict,--strict"),
];

#[test]
fn reads_strictly(rt: HostRuntime) -> Result<(), Fail> {
    expect_rows(&rt, rt.alloc(), STRICT)
}

/// Reads as `parse` does, and prints compactly.
pub(crate) fn run<R: Read, W: Write>(
    alloc: Global,
    reader: &mut R,
    writer: &mut W,
) -> Result<(), RunFault> {
    engine::run(alloc, reader, writer, &usual(), Layout::Compact)
}

/// `run` rejects the text with this message, and writes nothing.
fn expect_fault(rt: &impl Abort, alloc: Global, input: &[u8], message: &str) -> Result<(), Fail> {
    let (mut reader, mut writer) = (input, slow(alloc));
    match run(alloc, &mut reader, &mut writer) {
        Err(RunFault::Json(error)) => {
            let words = error.to_string(alloc)?;
            expect(rt, message, words.as_str() == message);
        }
        _ => expect(rt, message, false),
    }
    expect(rt, message, writer.calls == 0);
    Ok(())
}

/// The whole input is read, and this text and a newline are printed. Returns the number of writes.
fn expect_printed(
    rt: &impl Abort,
    alloc: Global,
    layout: Layout,
    input: &str,
    text: &str,
) -> Result<usize, Fail> {
    let mut reader = input.as_bytes();
    let mut writer = CountingWriter {
        bytes: Vec::new(alloc),
        calls: 0,
    };
    let outcome = engine::run(alloc, &mut reader, &mut writer, &usual(), layout);
    expect(rt, "the outcome", outcome.is_ok() && reader.is_empty());
    let written = str::from_utf8(&writer.bytes)?.strip_suffix('\n');
    expect(rt, "the text", written == Some(text));
    Ok(writer.calls)
}

fn expect_itself(rt: &impl Abort, alloc: Global, text: &str) -> Result<(), Fail> {
    expect_printed(rt, alloc, Layout::Compact, text, text)?;
    Ok(())
}

#[test]
fn every_prefix_of_a_document_ends_early(rt: HostRuntime) -> Result<(), Fail> {
    let document = DOCUMENT.as_bytes();
    expect(&rt, "the length", document.len() == 48);
    for length in 0..document.len() {
        let input = &document[..length];
        expect_fault(&rt, rt.alloc(), input, "Unexpected end of JSON")?;
    }
    Ok(())
}

/// The start of a number, what is repeated how often, the end, and what is printed. Of 32,785 zeros
/// after an 8, 18 are kept and 32,767 dropped, the limit.
const LONG_NUMBERS: &[(&str, &str, usize, &str, &str)] = &[
    ("1e", "9", 1000000, "", "1e32767"),
    ("1e-", "9", 1000000, "", "1e-32768"),
    ("8", "0", 32785, "e-32767", "8000000000000000000"),
    ("8", "0", 32785, "e1", "8.000000000000000000e32785"),
    ("0.", "0", 32767, "1", "1e-32768"),
    ("0.", "0", 32768, "e32768", "0"),
    ("9.", "9", 40000, "", "9.999999999999999999"),
];

#[test]
fn prints_long_numbers(rt: HostRuntime) -> Result<(), Fail> {
    let alloc = rt.alloc();
    for (prefix, repeated, count, back, printed) in LONG_NUMBERS {
        let text = joined(alloc, &[(prefix, 1), (repeated, *count), (back, 1)])?;
        expect_printed(&rt, alloc, Layout::Compact, text.as_str(), printed)?;
    }
    Ok(())
}

#[test]
fn prints_512_open_containers(rt: HostRuntime) -> Result<(), Fail> {
    let text = joined(rt.alloc(), &[("[", 512), ("{}", 1), ("]", 512)])?;
    expect_itself(&rt, rt.alloc(), text.as_str())
}

/// Keys in the order of their hashes, then keys of one hash.
#[test]
fn prints_hostile_keys(rt: HostRuntime) -> Result<(), Fail> {
    let alloc = rt.alloc();
    let text = object_text(alloc, &keys_by_hash(alloc, 100000)?)?;
    expect_itself(&rt, alloc, text.as_str())?;
    let text = object_text(alloc, &keys_of_one_hash(alloc, 2000)?)?;
    expect_itself(&rt, alloc, text.as_str())
}

/// The start of a text, what is repeated how often, what comes next, and how many brackets close.
const OVER_A_LIMIT: &[(&str, &str, usize, &str, usize)] = &[
    ("8", "0", 32786, "", 0),
    ("0.", "0", 40000, "", 0),
    ("", "[", 100000, "", 0),
    ("", "[", 512, "{\"a\":1}", 512),
];

/// The text exceeds a limit, in `run` and in `drive`.
fn expect_over_a_limit(rt: &impl Abort, alloc: Global, text: &str) -> Result<(), Fail> {
    expect_fault(rt, alloc, text.as_bytes(), "Exceeded depth limit")?;
    let message = "jzonfmt: Exceeded depth limit\n";
    expect_driven(rt, alloc, &(None, text.as_bytes(), 1, "", message))
}

#[test]
fn rejects_what_exceeds_the_limits(rt: HostRuntime) -> Result<(), Fail> {
    let alloc = rt.alloc();
    for (prefix, repeated, count, back, closing) in OVER_A_LIMIT {
        let parts = [
            (*prefix, 1),
            (*repeated, *count),
            (*back, 1),
            ("]", *closing),
        ];
        expect_over_a_limit(&rt, alloc, joined(alloc, &parts)?.as_str())?;
    }
    Ok(())
}

/// The first three end before, at and after the end of a chunk of 65,536 bytes.
#[test]
fn reads_inputs_round_a_chunk(rt: HostRuntime) -> Result<(), Fail> {
    for spaces in [65531, 65532, 65533, 131072, 200000] {
        let text = joined(rt.alloc(), &[(" ", spaces), ("null", 1)])?;
        expect_printed(&rt, rt.alloc(), Layout::Compact, text.as_str(), "null")?;
    }
    Ok(())
}

/// The reader fails at this call: its own error is returned, it isn't called again, and nothing is
/// written.
fn expect_read_error(
    rt: &impl Abort,
    alloc: Global,
    input: &[u8],
    call: usize,
    trouble: Trouble,
) -> Result<(), Fail> {
    let mut reader = FailingReader::new(input, call, trouble);
    let mut writer = slow(alloc);
    match run(alloc, &mut reader, &mut writer) {
        Err(RunFault::Read(error)) => expect(rt, "the error", trouble.is_returned(alloc, &error)?),
        _ => expect(rt, "no error of the reader", false),
    }
    expect(rt, "the calls", reader.calls == call && writer.calls == 0);
    Ok(())
}

/// Input read byte by byte is printed as this text, and its end is found once.
fn expect_read_by_bytes(
    rt: &impl Abort,
    alloc: Global,
    input: &[u8],
    text: &str,
) -> Result<(), Fail> {
    let mut reader = FailingReader::new(input, NO_FAILING_CALL, Trouble::TakesNothing);
    let mut writer: Vec<u8> = Vec::new(alloc);
    let outcome = run(alloc, &mut reader, &mut writer);
    expect(rt, "the calls", reader.calls == input.len() + 1);
    let written = str::from_utf8(&writer)?.strip_suffix('\n');
    expect(rt, "the text", outcome.is_ok() && written == Some(text));
    Ok(())
}

#[test]
fn a_reader_fails_at_each_call(rt: HostRuntime) -> Result<(), Fail> {
    for trouble in FAILURES {
        // The last call finds the end.
        for call in 1..=TEXT.len() + 1 {
            expect_read_error(&rt, rt.alloc(), TEXT, call, *trouble)?;
        }
    }
    expect_read_by_bytes(&rt, rt.alloc(), TEXT, "-12500")
}

/// More bytes than 16 bits can count, also by a reader that fails late.
#[test]
fn reads_long_inputs_byte_by_byte(rt: HostRuntime) -> Result<(), Fail> {
    let alloc = rt.alloc();
    let text = joined(alloc, &[("[0", 1), (",0", 70000), ("]", 1)])?;
    for call in [65536, 65537, text.len(), text.len() + 1] {
        let trouble = Trouble::Fails(ErrorKind::Interrupted);
        expect_read_error(&rt, alloc, text.as_bytes(), call, trouble)?;
        expect_read_error(&rt, alloc, text.as_bytes(), call, Trouble::FailsBySystem(5))?;
    }
    expect_read_by_bytes(&rt, alloc, text.as_bytes(), text.as_str())
}

/// The writer fails at this call: its own error is returned, it isn't called again, and it has the
/// bytes before.
fn expect_write_error(
    rt: &impl Abort,
    alloc: Global,
    input: &[u8],
    printed: &[u8],
    call: usize,
    trouble: Trouble,
) -> Result<(), Fail> {
    let mut reader = input;
    let mut writer = SlowWriter::new(alloc, call, trouble);
    match run(alloc, &mut reader, &mut writer) {
        Err(RunFault::Write(error)) => expect(rt, "the error", trouble.is_returned(alloc, &error)?),
        _ => expect(rt, "no error of the writer", false),
    }
    expect(rt, "the calls", writer.calls == call);
    let before = printed.get(..call.saturating_sub(1));
    expect(rt, "the output", before == Some(writer.bytes.as_slice()));
    Ok(())
}

#[test]
fn a_writer_fails_at_each_call(rt: HostRuntime) -> Result<(), Fail> {
    let alloc = rt.alloc();
    for call in 1..=PRINTED.len() {
        for trouble in FAILURES {
            expect_write_error(&rt, alloc, TEXT, PRINTED, call, *trouble)?;
        }
        expect_write_error(&rt, alloc, TEXT, PRINTED, call, Trouble::TakesNothing)?;
    }
    let (mut reader, mut writer) = (TEXT, slow(alloc));
    let is_ok = run(alloc, &mut reader, &mut writer).is_ok();
    expect(&rt, "all", is_ok && writer.bytes.as_slice() == PRINTED);
    Ok(())
}

/// The start of a text, what is repeated how often, and the end. `write` collects 1,024 bytes: the
/// first three texts have one fewer, as many, and one more, and 1,022 bytes with their quotes fill
/// the buffer.
const ROUND_A_BUFFER: &[(&str, &str, usize, &str)] = &[
    ("[", "1234567,", 127, "76543]"),
    ("[", "1234567,", 127, "765432]"),
    ("[", "1234567,", 127, "7654321]"),
    ("[", "1234567,", 2500, "76543]"),
    ("\"", "p", 1021, "\""),
    ("\"", "p", 1022, "\""),
    ("\"", "p", 1023, "\""),
    ("\"", "p", 5000, "\""),
    ("[1,\"\\n", "p", 1022, "\",2]"),
    ("{\"a\":[\"", "p", 5000, "\\u0001\",true]}"),
];

/// The first call, that for the last byte of a full buffer, two after it, and the last.
const LATE_CALLS: &[usize] = &[1, 1024, 1025, 1026, usize::MAX];

/// The writer fails at each of `LATE_CALLS`, or at its last.
fn expect_late_errors(rt: &impl Abort, alloc: Global, text: &[u8]) -> Result<(), Fail> {
    for call in LATE_CALLS {
        let call = (*call).min(text.len() + 1);
        expect_write_error(rt, alloc, text, text, call, Trouble::TakesNothing)?;
        let trouble = Trouble::Fails(ErrorKind::BrokenPipe);
        expect_write_error(rt, alloc, text, text, call, trouble)?;
    }
    Ok(())
}

#[test]
fn writes_texts_round_a_full_buffer(rt: HostRuntime) -> Result<(), Fail> {
    let alloc = rt.alloc();
    for (before, piece, count, after) in ROUND_A_BUFFER {
        let text = joined(alloc, &[(before, 1), (piece, *count), (after, 1)])?;
        expect_itself(&rt, alloc, text.as_str())?;
        expect_late_errors(&rt, alloc, text.as_bytes())?;
    }
    Ok(())
}

/// Lines of 15 bytes, of which each part is at the end of a full buffer in some run.
#[test]
fn prints_more_lines_than_the_buffer_holds(rt: HostRuntime) -> Result<(), Fail> {
    let alloc = rt.alloc();
    for spaces in 0..16 {
        let first = joined(alloc, &[("[\n  \"", 1), ("p", spaces), ("\"", 1)])?;
        let parts = [(first.as_str(), 1), (",\n  12345678901", 200), ("\n]", 1)];
        let text = joined(alloc, &parts)?;
        expect_printed(&rt, alloc, Layout::Pretty(2), text.as_str(), text.as_str())?;
    }
    Ok(())
}

/// A layout, the start of a text, what is repeated 100,000 times, the end, and the writes: of
/// 200,003 or 400,006 bytes by 1,024, and the newline. A string of more than 1,024 bytes is passed
/// on whole.
const SELDOM: &[(Layout, &str, &str, &str, usize)] = &[
    (Layout::Compact, "[1", ",1", "]", 197),
    (Layout::Pretty(1), "[\n 1", ",\n 1", "\n]", 392),
    (Layout::Compact, "[\"", "p", "\"]", 4),
];

#[test]
fn writes_seldom(rt: HostRuntime) -> Result<(), Fail> {
    let alloc = rt.alloc();
    for (layout, open, next, close, calls) in SELDOM {
        let text = joined(alloc, &[(open, 1), (next, 100000), (close, 1)])?;
        let found = expect_printed(&rt, alloc, *layout, text.as_str(), text.as_str())?;
        expect(&rt, "the calls", found == *calls);
    }
    Ok(())
}

pub(crate) const NOT_WRITTEN: &str = "jzonfmt: writing failed\n";

/// Without arguments `drive` returns this status, and writes this message.
pub(crate) fn expect_status<R: Read, W: Write>(
    rt: &impl Abort,
    alloc: Global,
    reader: &mut R,
    writer: &mut W,
    status: u8,
    message: &str,
) {
    let mut faults: Vec<u8> = Vec::new(alloc);
    let found = engine::drive(alloc, &[], reader, writer, &mut faults);
    expect(rt, message, found == status);
    expect(rt, message, faults.as_slice() == message.as_bytes());
}

#[test]
fn drive_reports_a_reader_that_fails(rt: HostRuntime) {
    let mut reader = FailingReader::new(TEXT, 3, Trouble::Fails(ErrorKind::IsADirectory));
    let mut writer = slow(rt.alloc());
    let message = "jzonfmt: reading failed\n";
    expect_status(&rt, rt.alloc(), &mut reader, &mut writer, 3, message);
    expect(&rt, "the calls", (writer.calls, writer.flushes) == (0, 0));
}

#[test]
fn drive_reports_a_writer_that_fails(rt: HostRuntime) {
    let mut reader = TEXT;
    let mut writer = SlowWriter::new(rt.alloc(), 3, Trouble::Fails(ErrorKind::StorageFull));
    expect_status(&rt, rt.alloc(), &mut reader, &mut writer, 3, NOT_WRITTEN);
    let taken = b"-1".as_slice();
    expect(&rt, "the output", writer.bytes.as_slice() == taken);
    expect(&rt, "the calls", (writer.calls, writer.flushes) == (3, 0));
}

/// `drive` flushes once, with this trouble, if any.
fn expect_one_flush(
    rt: &impl Abort,
    alloc: Global,
    trouble: Option<Trouble>,
    status: u8,
    message: &str,
) {
    let (mut reader, mut writer) = (TEXT, slow(alloc));
    writer.flush_trouble = trouble;
    expect_status(rt, alloc, &mut reader, &mut writer, status, message);
    expect(rt, "the output", writer.bytes.as_slice() == PRINTED);
    expect(rt, "the flushes", writer.flushes == 1);
}

/// A flush that fails is a failed write, whatever its error.
#[test]
fn drive_flushes_once(rt: HostRuntime) {
    expect_one_flush(&rt, rt.alloc(), None, 0, "");
    for trouble in FAILURES {
        expect_one_flush(&rt, rt.alloc(), Some(*trouble), 3, NOT_WRITTEN);
    }
}

/// The message fails at its fourth byte.
#[test]
fn a_failed_message_is_ignored(rt: HostRuntime) -> Result<(), Fail> {
    let alloc = rt.alloc();
    for (words, input, status) in [
        (None, b"tru", 1),
        (None, b"\xff\xff\xff", 1),
        (Some("-"), b"1  ", 2),
    ] {
        let words = words_of(alloc, words)?;
        let (mut reader, mut writer) = (input.as_slice(), slow(alloc));
        let mut faults = SlowWriter::new(alloc, 4, Trouble::Fails(ErrorKind::BrokenPipe));
        let found = engine::drive(alloc, &words, &mut reader, &mut writer, &mut faults);
        expect(&rt, "the status", found == status);
        expect(&rt, "the message", str::from_utf8(&faults.bytes)? == "jzo");
        expect(&rt, "the output", writer.calls == 0);
    }
    Ok(())
}

/// The arguments, the input, and the output: a start, then pieces, how often each comes, and what
/// follows it.
const LARGE: &[(&str, Long, Long)] = &[
    (
        "--strict",
        ("[0", &[(" ,0", 70000, "]")]),
        ("[0", &[(",0", 70000, "]\n")]),
    ),
    (
        "--pretty,65535",
        ("[[0]]", &[]),
        (
            "[\n",
            &[
                (" ", 65535, "[\n"),
                (" ", 131070, "0\n"),
                (" ", 65535, "]\n]\n"),
            ],
        ),
    ),
    (
        "--pretty,0,--strict",
        ("", &[("[", 512, "{}"), ("]", 512, "")]),
        ("", &[("[\n", 512, "{}"), ("\n]", 512, "\n")]),
    ),
    (
        "--pretty,9",
        ("{\"\\u0001", &[("\\\"", 70000, "\":[]}")]),
        ("{\n         \"\\u0001", &[("\\\"", 70000, "\": []\n}\n")]),
    ),
];

#[test]
fn drives_large_texts(rt: HostRuntime) -> Result<(), Fail> {
    let alloc = rt.alloc();
    for (words, input, output) in LARGE {
        let (input, output) = (spelled(alloc, input)?, spelled(alloc, output)?);
        let row = (Some(*words), input.as_bytes(), 0, output.as_str(), "");
        expect_driven(&rt, alloc, &row)?;
    }
    let input = joined(alloc, &[("[\n", 1), ("1,\n", 70000), ("x", 1)])?;
    let message = "jzonfmt: Unexpected character: x at (70002:1)\n";
    let row = (Some("--pretty,1"), input.as_bytes(), 1, "", message);
    expect_driven(&rt, alloc, &row)?;
    let mut input = joined(alloc, &[("[\"", 1), ("p", 200000)])?.into_bytes();
    input.extend_from_slice(b"\xff\"]")?;
    let message = "jzonfmt: input is not UTF-8\n";
    expect_driven(&rt, alloc, &(Some("--strict"), &input, 1, "", message))
}

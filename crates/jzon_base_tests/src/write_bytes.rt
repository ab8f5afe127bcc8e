//! The write loop, with writers that fail.

use crate::common::{expect, expect_eq};
use jzon_base::util::{print_dec, write_bytes};
use jzon_test_support::{FAILURES, NO_FAILING_CALL, SlowWriter, Trouble, joined};
use std::alloc::Global;
use std::process::Abort;
use std::test::Fail;

/// It took these bytes, one for each call but a failed one, and wasn't flushed.
fn expect_taken(rt: &impl Abort, writer: &SlowWriter, bytes: &[u8], calls: usize) {
    expect(rt, "the bytes", writer.bytes.as_slice() == bytes);
    expect_eq(rt, "the calls", writer.calls, calls);
    expect_eq(rt, "the flushes", writer.flushes, 0);
}

/// The text of the longest number, to a writer that fails at each call in turn: the bytes before it
/// are written, no byte follows, and the error is returned.
fn expect_returned(rt: &impl Abort, alloc: Global, trouble: Trouble) -> Result<(), Fail> {
    let text = b"-1.8446744073709551615e-32749";
    for call in 1..=text.len() {
        let mut writer = SlowWriter::new(alloc, call, trouble);
        let outcome = print_dec::write(&mut writer, false, 18446744073709551615, -32768);
        let is_returned = match outcome {
            Ok(()) => false,
            Err(error) => trouble.is_returned(alloc, &error)?,
        };
        expect(rt, "the error", is_returned);
        expect_taken(rt, &writer, &text[..call - 1], call);
    }
    Ok(())
}

#[test]
fn returns_each_error(rt: HostRuntime) -> Result<(), Fail> {
    for trouble in FAILURES {
        expect_returned(&rt, rt.alloc(), *trouble)?;
    }
    expect_returned(&rt, rt.alloc(), Trouble::TakesNothing)
}

#[test]
fn writes_all_bytes(rt: HostRuntime) -> Result<(), Fail> {
    let long = joined(rt.alloc(), &[("a longer text\n", 10_000)])?;
    for text in ["", "a", "\0\u{1F984}", "a longer text\n", long.as_str()] {
        let mut writer = SlowWriter::new(rt.alloc(), NO_FAILING_CALL, Trouble::TakesNothing);
        write_bytes(&mut writer, text.as_bytes())?;
        expect_taken(&rt, &writer, text.as_bytes(), text.len());
    }
    Ok(())
}

/// The text of a number is appended, and the writer isn't flushed.
#[test]
fn writes_a_number(rt: HostRuntime) -> Result<(), Fail> {
    let mut writer = SlowWriter::new(rt.alloc(), NO_FAILING_CALL, Trouble::TakesNothing);
    print_dec::write(&mut writer, false, 125, -1)?;
    expect_taken(&rt, &writer, b"-12.5", 5);
    Ok(())
}

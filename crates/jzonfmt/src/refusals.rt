//! The program with each of its allocations failing in turn, by ci/refuse.c, which also counts
//! blocks. bin/test runs these tests once more with it; without it no allocation fails. `Refusals`
//! marks where a run begins and ends.

use crate::engine;
use crate::engine::RunFault;
use crate::tests::{NOT_WRITTEN, expect, expect_status, run};
use jzon_test_support::{DOCUMENT, DUMP, RUNS_MAX, Refusals, SlowWriter, Trouble};
use std::alloc::Global;
use std::io::ErrorKind;
use std::process::Abort;
use std::test::Fail;

/// Each of the 8 allocations of `run` fails once. Its value isn't dropped, so blocks aren't
/// counted.
#[test]
fn run_under_refusals(rt: HostRuntime) -> Result<(), Fail> {
    let alloc = rt.alloc();
    let mut refusals = Refusals::new(alloc);
    for _ in 0..RUNS_MAX {
        let mut reader = DOCUMENT.as_bytes();
        let mut writer: Vec<u8> = Vec::with_capacity(alloc, 256)?;
        refusals.begin();
        let result = run(alloc, &mut reader, &mut writer);
        if !refusals.has_failed() {
            let written = str::from_utf8(&writer)?.strip_suffix('\n');
            expect(&rt, "the output", result.is_ok() && written == Some(DUMP));
            break;
        }
        expect(&rt, "the error", matches!(result, Err(RunFault::Memory)));
        expect(&rt, "no output", writer.is_empty());
    }
    refusals.report(&rt, "run_under_refusals", 8)?;
    Ok(())
}

/// An input whose value takes no memory, or that is rejected; the status, the output, the message,
/// and the number of allocations.
type Driven = (&'static [u8], u8, &'static [u8], &'static [u8], usize);

const DRIVEN: &[Driven] = &[
    (b"-12.50e3", 0, b"-12500\n", b"", 2),
    (
        b"[\"a text of more than thirty bytes\",{\"a\":[1,]}]",
        1,
        b"",
        b"jzonfmt: Unexpected character: ] at (1:45)\n",
        6,
    ),
    (b"[\"\xff\"]", 1, b"", b"jzonfmt: input is not UTF-8\n", 2),
];

/// One run of `engine::drive`; whether an allocation failed.
fn drive(
    rt: &impl Abort,
    alloc: Global,
    refusals: &mut Refusals,
    row: &Driven,
) -> Result<bool, Fail> {
    let (mut reader, mut status, mut output, mut message, _) = *row;
    let mut writer: Vec<u8> = Vec::with_capacity(alloc, 64)?;
    let mut faults: Vec<u8> = Vec::with_capacity(alloc, 64)?;
    refusals.begin();
    let found = engine::drive(alloc, &[], &mut reader, &mut writer, &mut faults);
    let has_failed = refusals.has_failed();
    if has_failed {
        (status, output, message) = (3, b"", b"jzonfmt: Out of memory\n");
    }
    expect(rt, "the status", found == status);
    expect(rt, "the message", faults.as_slice() == message);
    expect(rt, "the output", writer.as_slice() == output);
    Ok(has_failed)
}

/// Runs `drive` with the first allocation failing, then the second, until none fails; each run
/// drops all that it allocates.
fn drive_each(rt: &(impl Eprint + Abort), alloc: Global, row: &Driven) -> Result<(), Fail> {
    let mut refusals = Refusals::new(alloc);
    for _ in 0..RUNS_MAX {
        refusals.open();
        let has_failed = drive(rt, alloc, &mut refusals, row)?;
        refusals.close();
        if !has_failed {
            break;
        }
    }
    refusals.report(rt, "drive", row.4)?;
    Ok(())
}

/// Each allocation of each row fails once.
#[test]
fn drive_under_refusals(rt: HostRuntime) -> Result<(), Fail> {
    for row in DRIVEN {
        drive_each(&rt, rt.alloc(), row)?;
    }
    Ok(())
}

/// In bytes: more than the input and the chunk of a run take.
const MOST_OF_FAILED: usize = 1 << 20;

/// A run whose writer fails at this call, counted from 1.
fn fail_at(rt: &impl Abort, alloc: Global, call: usize) {
    let mut reader: &[u8] = b"-12.50e3";
    let mut writer = SlowWriter::new(alloc, call, Trouble::Fails(ErrorKind::BrokenPipe));
    expect_status(rt, alloc, &mut reader, &mut writer, 3, NOT_WRITTEN);
    expect(rt, "the calls", writer.calls == call);
}

/// A run whose writer fails drops all that it allocates.
#[test]
fn failed_writes_counted(rt: HostRuntime) -> Result<(), Fail> {
    // A call for each byte of the output.
    for call in 1..8 {
        let mut refusals = Refusals::new(rt.alloc());
        refusals.open();
        fail_at(&rt, rt.alloc(), call);
        refusals.close();
        refusals.expect_within(&rt, "a run whose writer fails", MOST_OF_FAILED)?;
        refusals.expect_even()?;
    }
    Ok(())
}

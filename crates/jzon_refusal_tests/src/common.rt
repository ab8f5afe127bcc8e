//! What the tests share: a call that is run with each of its allocations failing in turn. Each run
//! must free all that it allocates, the argument of a call that fails too.

pub use jzon::{Error, JsonValue, Result, parse};
pub use jzon_test_support::{RUNS_MAX, Refusals, Tested, rows};
pub use std::alloc::Global;
pub use std::process::Abort;
pub use std::test::Fail;

/// A text with a key and a string that are too long to be kept inline.
pub const LONG_DOCUMENT: &str =
    "{\"0123456789abcdef0123456789abcdef!\":[{\"b\":\"a text of more than thirty bytes\"},[true,{}]]}";

/// A key of 40 bytes and a string of 31, each of which is allocated.
pub const LONG_KEY: &str = "0123456789abcdef0123456789abcdef01234567";

pub const LONG_TEXT: &str = "abcdefghijklmnopqrstuvwxyz01234";

/// An object of this key, with null.
pub const KEYED: &str = "{\"0123456789abcdef0123456789abcdef01234567\":null}";

/// A call on a value. What it returns becomes the value.
pub trait Call: Copy {
    fn call(self, value: &mut JsonValue, alloc: Global) -> Result<()>;
}

/// A call, its name, the text of the value before it, the compact text after it, and the number of
/// its allocations.
pub type Row<C> = (C, &'static str, &'static str, &'static str, usize);

/// What a call made becomes the value.
pub fn set(value: &mut JsonValue, made: Result<JsonValue>) -> Result<()> {
    *value = made?;
    Ok(())
}

/// The reference isn't used.
pub fn borrow_at(value: &mut JsonValue, alloc: Global, key: &str) -> Result<()> {
    value.at_mut(alloc, key)?;
    Ok(())
}

pub fn borrow_at_index(value: &mut JsonValue, alloc: Global, index: usize) -> Result<()> {
    value.at_index_mut(alloc, index)?;
    Ok(())
}

/// It holds of this row. To prove an assertion takes seconds, and a call of this hardly any time.
pub fn expect(rt: &impl Abort, row: &str, holds: bool) {
    assert!(rt; holds, "{row}");
}

/// The value dumps this text.
pub fn expect_dump(rt: &impl Abort, alloc: Global, value: &JsonValue, text: &str) -> Tested {
    let dump = value.dump(alloc)?;
    expect(rt, text, dump.as_str() == text);
    Ok(())
}

/// What a call is named, the compact text of its value after it, and the number of its allocations.
pub type Expected<'a> = (&'a str, &'a str, usize);

/// One run of the call, on a copy of `before`, which has no room to spare. Whether an allocation
/// failed: then the call returned `OutOfMemory`, and its value is as it was. Otherwise it succeeded,
/// and its value dumps what is expected.
pub fn run<C: Call>(
    rt: &impl Abort,
    alloc: Global,
    call: C,
    expected: Expected<'_>,
    before: &JsonValue,
    refusals: &mut Refusals,
) -> std::result::Result<bool, Fail> {
    let mut value = before.clone(alloc)?;
    refusals.begin();
    let outcome = call.call(&mut value, alloc);
    let has_failed = refusals.has_failed();
    if has_failed {
        expect(rt, expected.0, matches!(outcome, Err(Error::OutOfMemory)));
        let text = before.dump(alloc)?;
        expect_dump(rt, alloc, &value, text.as_str())?;
        expect(rt, expected.0, value == *before);
    } else {
        expect(rt, expected.0, outcome.is_ok());
        expect_dump(rt, alloc, &value, expected.1)?;
    }
    Ok(has_failed)
}

/// Runs the call with its first allocation failing, then with its second, and so on, until a run
/// has no failed allocation. Each run frees all that it allocates.
pub fn fail_each_on<C: Call>(
    rt: &(impl Eprint + Abort),
    alloc: Global,
    call: C,
    expected: Expected<'_>,
    before: &JsonValue,
) -> Tested {
    let mut refusals = Refusals::new(alloc);
    for _ in 0..RUNS_MAX {
        refusals.open();
        let has_failed = run(rt, alloc, call, expected, before, &mut refusals)?;
        refusals.close();
        if !has_failed {
            break;
        }
    }
    refusals.report(rt, expected.0, expected.2)?;
    Ok(())
}

/// The same for each row of a table, on the value of the row's text.
pub fn fail_each<C: Call>(rt: &(impl Eprint + Abort), alloc: Global, rows: &[Row<C>]) -> Tested {
    for row in rows {
        let before = parse(alloc, row.2)?;
        fail_each_on(rt, alloc, row.0, (row.1, row.3, row.4), &before)?;
    }
    Ok(())
}

/// A call fails because of the value's kind. If an allocation failed, this is reported instead.
pub fn passed_over(answer: Result<()>) -> Result<()> {
    match answer {
        Err(Error::WrongType(_)) => Ok(()),
        Err(error) => Err(error),
        Ok(()) => Err(Error::UnexpectedEndOfJson),
    }
}

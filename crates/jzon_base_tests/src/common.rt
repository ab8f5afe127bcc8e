//! What the tests share. To prove an assertion takes seconds, and a call of `expect` or `expect_eq`
//! hardly any time.

use jzon_base::number::Number;
use jzon_test_support::{NO_FAILING_CALL, show_failing};
use std::alloc::Global;
use std::fmt;
use std::fmt::Debug;
use std::process::Abort;
use std::test::Fail;

/// Whether a number is positive, its mantissa and its exponent.
pub type Parts = (bool, u64, i16);

/// The number that has these parts.
pub fn number((positive, mantissa, exponent): Parts) -> Number {
    Number::from_parts_unchecked(positive, mantissa, exponent)
}

/// It holds of this row.
pub fn expect(rt: &impl Abort, row: &str, holds: bool) {
    assert!(rt; holds, "{row}");
}

/// Both are equal, in this row.
pub fn expect_eq<T: Copy + PartialEq + Debug>(rt: &impl Abort, row: &str, found: T, want: T) {
    assert_eq!(rt; found, want, "{row}");
}

/// `Display` shows this text; flags, a width, a fill and a precision change nothing. Where the
/// formatter fails, at each call in turn, a prefix was shown, and nothing is shown after it. Returns
/// the number of calls of the formatter.
pub fn expect_display<T: fmt::Display>(
    rt: &impl Abort,
    alloc: Global,
    shown: &T,
    text: &str,
) -> Result<usize, Fail> {
    let flagged = format!(in alloc; "{shown:*>+80.1}")?;
    expect(rt, text, flagged.as_str() == text);
    let (is_shown, whole) = show_failing(alloc, shown, NO_FAILING_CALL);
    expect(rt, text, is_shown && whole.text.as_str() == text);
    for call in 1..=whole.calls {
        let (is_shown, stopped) = show_failing(alloc, shown, call);
        expect(rt, text, !is_shown && stopped.calls == call);
        expect(rt, text, text.starts_with(stopped.text.as_str()));
    }
    Ok(whole.calls)
}

//! A formatter that fails.

use std::alloc::Global;
use std::fmt;
use std::fmt::Write;

/// Takes one piece a call, and fails at one call.
#[derive(Drop)]
pub struct FailingFormatter {
    pub text: String,
    pub calls: usize,
    fails_at: usize,
}

impl fmt::Write for FailingFormatter {
    fn write_str(&mut self, piece: &str) -> fmt::Result {
        self.calls = self.calls.saturating_add(1);
        if self.calls == self.fails_at {
            return Err(fmt::Error);
        }
        match self.text.push_str(piece) {
            Ok(()) => Ok(()),
            Err(_) => Err(fmt::Error),
        }
    }
}

/// Shows something to a formatter that fails at this call: whether that succeeds, and the
/// formatter.
pub fn show_failing<T: fmt::Display>(
    alloc: Global,
    shown: &T,
    fails_at: usize,
) -> (bool, FailingFormatter) {
    let mut formatter = FailingFormatter {
        text: String::new(alloc),
        calls: 0,
        fails_at,
    };
    let is_shown = write!(formatter, "{shown}").is_ok();
    (is_shown, formatter)
}

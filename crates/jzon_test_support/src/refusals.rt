//! Repeats a call with its allocations failing in turn, and checks that each block it allocates is
//! freed. ci/refuse.c makes allocations fail and counts them: bin/test runs these tests once more
//! with it. Without it each test runs its call once, with enough memory.

use std::alloc::Global;

/// An allocation of this size or more is a signal to ci/refuse.c, and fails without it.
const MARK: usize = 1 << 62;

/// Begins to count blocks and bytes.
const COUNT: usize = (1 << 62) + (1 << 40);

/// Fails unless as many blocks were freed as allocated.
const IS_EVEN: usize = (1 << 62) + (2 << 40);

/// With a number of bytes added, fails if more were requested.
const IS_WITHIN: usize = (1 << 62) + (3 << 40);

/// With a number of bytes added, fails if the blocks that are left have more.
const IS_HELD: usize = (1 << 62) + (4 << 40);

/// With a number of bytes added, fails if the blocks that were there at one time had more.
const IS_AT_MOST: usize = (1 << 62) + (5 << 40);

/// The largest number of runs of one call. Only a call of `jzon_serde_tests` needs more.
pub const RUNS_MAX: usize = 200;

/// Runs of one call. In the first run the first allocation fails, in the next run the second, and
/// so on, until in a run no allocation fails.
#[derive(Drop)]
pub struct Refusals {
    alloc: Global,
    count: usize,
    opened: usize,
    evened: usize,
    is_able: bool,
    is_done: bool,
}

impl Refusals {
    /// To be called before the first run.
    pub fn new(alloc: Global) -> Refusals {
        Refusals {
            alloc,
            count: 0,
            opened: 0,
            evened: 0,
            is_able: false,
            is_done: false,
        }
    }

    /// To be called before a run, when nothing of it is allocated. `close` ends the run.
    pub fn open(&mut self) {
        self.opened = self.opened.saturating_add(1);
        self.is_able = is_granted(self.alloc, COUNT);
    }

    /// To be called after a run, when all that it allocated is dropped. If a block is left, `report`
    /// returns an error.
    pub fn close(&mut self) {
        if !self.is_able || is_granted(self.alloc, IS_EVEN) {
            self.evened = self.evened.saturating_add(1);
        }
    }

    /// To be called right before the call.
    pub fn begin(&mut self) {
        let next = self.count.saturating_add(1);
        self.is_able = is_granted(self.alloc, MARK.saturating_add(next));
    }

    /// To be called right after the call: whether an allocation failed in it.
    pub fn has_failed(&mut self) -> bool {
        let has_failed = self.is_able && !is_granted(self.alloc, MARK);
        if has_failed {
            self.count = self.count.saturating_add(1);
        }
        self.is_done = !has_failed;
        has_failed
    }

    /// To be called after the last run, in which no allocation may have failed. Prints how many
    /// runs had a failed allocation, in a line that bin/test reads, and returns an error if
    /// ci/refuse.c is loaded and there weren't `count` of them, as many as the call has
    /// allocations, or a run left a block.
    pub fn report(&self, rt: &impl Eprint, test: &str, count: usize) -> Result<(), &'static str> {
        let _ = eprintln!(rt; "{test}: {} refusals", self.count);
        if !self.is_done {
            return Err("an allocation failed in each run");
        }
        if self.is_able && self.count != count {
            return Err("another number of allocations failed");
        }
        self.expect_even()
    }

    /// An error if a run left a block.
    pub fn expect_even(&self) -> Result<(), &'static str> {
        if self.opened != self.evened {
            return Err("a run left a block, or freed one too many");
        }
        Ok(())
    }

    /// To be called after a call between `open` and `close`. Prints that bytes were counted, in a
    /// line that bin/test reads, and returns an error if more than `most` were requested. Without
    /// ci/refuse.c it does neither.
    pub fn expect_within(
        &self,
        rt: &impl Eprint,
        test: &str,
        most: usize,
    ) -> Result<(), &'static str> {
        if self.expect_counted(rt, test, IS_WITHIN.saturating_add(most)) {
            Ok(())
        } else {
            Err("more bytes were requested")
        }
    }

    /// The same for the blocks that are left: an error if they have more than `most` bytes, where a
    /// block has up to 24 bytes more than were requested.
    pub fn expect_held(
        &self,
        rt: &impl Eprint,
        test: &str,
        most: usize,
    ) -> Result<(), &'static str> {
        if self.expect_counted(rt, test, IS_HELD.saturating_add(most)) {
            Ok(())
        } else {
            Err("the blocks that are left have more bytes")
        }
    }

    /// The same for the blocks that were there at one time: an error if they ever had more than
    /// `most` bytes.
    pub fn expect_at_most(
        &self,
        rt: &impl Eprint,
        test: &str,
        most: usize,
    ) -> Result<(), &'static str> {
        if self.expect_counted(rt, test, IS_AT_MOST.saturating_add(most)) {
            Ok(())
        } else {
            Err("the blocks had more bytes at one time")
        }
    }

    /// Whether an allocation of this size succeeds, or nothing is counted. The line is printed
    /// after it, because printing may allocate.
    fn expect_counted(&self, rt: &impl Eprint, test: &str, signal: usize) -> bool {
        if !self.is_able {
            return true;
        }
        let is_granted = is_granted(self.alloc, signal);
        let _ = eprintln!(rt; "{test}: bytes counted");
        is_granted
    }
}

/// Whether an allocation of this size succeeds.
fn is_granted(alloc: Global, size: usize) -> bool {
    let block: Result<Vec<u8>, _> = Vec::with_capacity(alloc, size);
    block.is_ok()
}

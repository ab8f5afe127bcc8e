//! A function with a contract of its own. docs/CHECKER.md goes through its proof.

ghost use Rattle.std.specs.Prelude.{◌≡◌, codes, false, OnOk, Some};
ghost use Rattle.jzon.specs.PairList.{find};
ghost use Rattle.jzon.specs.Readers.{entries};
ghost use Rattle.jzon.specs.Value.{boolean};
ghost use Rattle.jzon.specs.View.{view};

use jzon::{JsonValue, Result};
use std::alloc::Global;

/// Turns debugging off: if it succeeds, `debug` is false.
pub fn turn_off(alloc: Global, config: &mut JsonValue) -> Result<()>
    ensures { OnOk result (find (codes "debug") (entries (view config.new))
        ≡ Some (boolean false)) }
{
    config.insert(alloc, "debug", false)
}

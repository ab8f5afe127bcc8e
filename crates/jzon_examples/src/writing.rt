//! Writes under a key.
//!
//! By the contract of `insert` the value is then `with_entry`; the laws of values say what is found
//! in it.

ghost use Rattle.std.specs.Prelude.{◌≡◌, ◌≢◌, ℕ, List, codes, Some, OnOk, OnErr, pos};
ghost use Rattle.jzon.specs.Decimal.{integer_parts};
ghost use Rattle.jzon.specs.PairList.{find};
ghost use Rattle.jzon.specs.Readers.{entries};
ghost use Rattle.jzon.specs.Value.{number};
ghost use Rattle.jzon.specs.View.{view};

use jzon::{JsonValue, Result};
use std::alloc::Global;

/// Writes the port of an object. All other members are as before, and after an error the whole
/// value is.
pub fn set_port(alloc: Global, value: &mut JsonValue, port: u16) -> Result<()>
    ensures written { OnOk result (find (codes "port") (entries (view value.new))
        ≡ Some (number (integer_parts (pos port)))) }
    ensures others { OnOk result ((k : List ℕ) → k ≢ codes "port"
        → find k (entries (view value.new)) ≡ find k (entries (view value.old))) }
    ensures err { OnErr result (view value.new ≡ view value.old) }
{
    value.insert(alloc, "port", port)
}

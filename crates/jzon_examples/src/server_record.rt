//! Builds a value by a macro, changes it, and proves what it is.
//!
//! A macro propagates an error with `?`, so it is called in a function that returns a `Result`.

ghost use Rattle.std.specs.Prelude.{◌≡◌, IfOk};
ghost use Rattle.jzon.specs.View.{view};
ghost use Rattle.jzon_examples.specs.Server.{server_value};

use jzon::{JsonValue, Result};
use std::alloc::Global;

/// A server's record: its host, its port, and an empty list of tags.
pub fn server(alloc: Global, host: &str, port: u16) -> Result<JsonValue>
    ensures { IfOk result (λ v. view v ≡ server_value host.now port) }
{
    let mut value = jzon::object! {alloc; host: host, "port": port};
    value.insert(alloc, "tags", JsonValue::new_array(alloc))?;
    Ok(value)
}

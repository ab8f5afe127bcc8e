//! A filter of lines: one JSON text a line in, the compact text of its value a line out.

ghost use Rattle.std.specs.Prelude.{◌≡◌, ◌++◌, ℕ, List, IfOk, OnOk, string_bytes};
ghost use Rattle.std.specs.Str.Lines.{lines};
ghost use Rattle.jzon_examples.specs.Filter.{IsPrinted, ArePrinted};

use jzon::Result;
use std::alloc::Global;

/// The compact text of each line's value, on a line of its own. Fails at the first line that is no
/// JSON text, with the error of its first fault.
pub fn compacted(alloc: Global, text: &str) -> Result<String>
    ensures { IfOk result (λ printed. ArePrinted (lines text.now) (string_bytes printed)) }
{
    let mut printed = String::new(alloc);
    for line in text.lines() {
        add_line(alloc, line, &mut printed)?;
    }
    Ok(printed)
}

/// Adds the text of one line.
fn add_line(alloc: Global, line: &str, printed: &mut String) -> Result<()>
    ensures { OnOk result ((bytes : List ℕ) × IsPrinted line.now bytes
        × (string_bytes printed.new ≡ string_bytes printed.old ++ bytes)) }
{
    let text = jzon::parse(alloc, line)?.dump(alloc)?;
    printed.push_str(text.as_str())?;
    printed.push('\n')?;
    Ok(())
}

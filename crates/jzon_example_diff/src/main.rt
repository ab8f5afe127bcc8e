//! Prints for each two lines of JSON the patch that turns the first value into the second, and the
//! merge patch, or an empty line where there is none: `diff < pairs`.
#![tactic(auto)]

use jzon_tools::{merge, patch};
use std::io;
use std::io::{BufRead, BufReader, BufWriter, Write};

fn main(rt: HostRuntime) -> io::Result<()> {
    let alloc = rt.alloc();
    let mut out = BufWriter::new(alloc, rt.stdout())?;
    let mut before = None;
    for line in BufReader::new(alloc, rt.stdin())?.lines(alloc) {
        let value = jzon::parse(alloc, line?.as_str())?;
        match before.take() {
            None => before = Some(value),
            Some(old) => {
                patch::diff(alloc, &old, &value)?.write(&mut out)?;
                writeln!(out)?;
                if let Some(patch) = merge::diff(alloc, &old, &value)? {
                    patch.write(&mut out)?;
                }
                writeln!(out)?;
            }
        }
    }
    out.flush()
}

//! Tests of `jzon_base` by its public items alone.
#![tactic(auto)]

#[cfg(test)]
mod common;
#[cfg(test)]
mod digits;
#[cfg(test)]
mod error;
#[cfg(test)]
mod escapes;
#[cfg(test)]
mod integers;
#[cfg(test)]
mod keys;
#[cfg(test)]
mod number;
#[cfg(test)]
mod pairs;
#[cfg(test)]
mod print_dec;
#[cfg(test)]
mod runs;
#[cfg(test)]
mod strings;
#[cfg(test)]
mod write_bytes;

//! Proved callers of `jzon`, each a page (crates/jzon/CALLING.md). Of the library's definitions they
//! name only those of `jzon`, and in `cookbook::read_back` those of `jzon_typed`.
#![tactic(auto)]

pub mod chains;
pub mod cookbook;
pub mod faults;
pub mod from_rust;
pub mod line_filter;
pub mod round_trip;
pub mod server_record;
pub mod writing;

//! Tests of the examples, in a file of the name of each. They are a crate of their own because a crate
//! that contains tests is proved twice.
#![tactic(auto)]

#[cfg(test)]
mod building;
#[cfg(test)]
mod chains;
#[cfg(test)]
mod changing;
#[cfg(test)]
mod common;
#[cfg(test)]
mod depth;
#[cfg(test)]
mod faults;
#[cfg(test)]
mod from_rust;
#[cfg(test)]
mod line_filter;
#[cfg(test)]
mod looking;
#[cfg(test)]
mod printing;
#[cfg(test)]
mod proved;
#[cfg(test)]
mod read_back;
#[cfg(test)]
mod reading;
#[cfg(test)]
mod refused;
#[cfg(test)]
mod round_trip;
#[cfg(test)]
mod server_record;
#[cfg(test)]
mod tabs;
#[cfg(test)]
mod writing;

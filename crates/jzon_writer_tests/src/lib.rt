//! Tests of what a caller's own types take part in when a value is printed, each in the file of its
//! subject:
//!
//! - `layouts`, `generators`, `sorting`, `hooks`: a user's own ones and the library's
//! - `writers`: writers that fail
#![tactic(auto)]

#[cfg(test)]
mod common;
#[cfg(test)]
mod generators;
#[cfg(test)]
mod hooks;
#[cfg(test)]
mod layouts;
#[cfg(test)]
mod sorting;
#[cfg(test)]
mod writers;

//! Tests of what is printed, each in the file of its subject:
//!
//! - `printing`: what the calls print of one value, and what generators consume
//! - `display`: what `{}` shows
//! - `memory`: what printing allocates, also where that fails
//! - `whole`, `large`: all calls that print, copy or hold a value, on each kind of value, and on
//!   values that are long, deep or have many entries
#![tactic(auto)]

#[cfg(test)]
mod common;
#[cfg(test)]
mod display;
#[cfg(test)]
mod large;
#[cfg(test)]
mod memory;
#[cfg(test)]
mod printing;
#[cfg(test)]
mod whole;

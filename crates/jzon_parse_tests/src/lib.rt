//! Tests of `parse`, `parse_as` and the macros, by public items alone.
#![tactic(auto)]

#[cfg(test)]
mod common;
#[cfg(test)]
mod exact;
#[cfg(test)]
mod large;
#[cfg(test)]
mod macros;
#[cfg(test)]
mod places;
#[cfg(test)]
mod readings;
#[cfg(test)]
mod texts;

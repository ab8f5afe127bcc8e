//! Tests of calls that allocate, with each of their allocations failing in turn.
#![tactic(auto)]

/// The object of a map of this type, with a key and a value for each of these items.
#[cfg(test)]
macro_rules! mapped {
    ($map:ident, $alloc:ident, $item:ident in $items:expr, $key:expr, $value:expr) => {{
        let mut map = $map::new($alloc);
        for $item in $items {
            map.insert($key?, $value?)?;
        }
        map.into_json($alloc)?
    }};
}

#[cfg(test)]
mod built;
#[cfg(test)]
mod changed;
#[cfg(test)]
mod common;
#[cfg(test)]
mod containers;
#[cfg(test)]
mod counted;
#[cfg(test)]
mod many_entries;
#[cfg(test)]
mod objects;
#[cfg(test)]
mod owned;
#[cfg(test)]
mod requested_bytes;

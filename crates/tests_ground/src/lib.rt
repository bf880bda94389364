//! Tests of the lowest crates by the public calls: lists and starts, shelves and sinks, numbers in LEB128, start files.
#![tactic(auto)]

#[cfg(test)]
mod files;
#[cfg(test)]
mod leb;
#[cfg(test)]
mod memory;
#[cfg(test)]
mod shelves;
#[cfg(test)]
mod sinks;
#[cfg(test)]
mod trace;
#[cfg(test)]
mod values;

//! Tests of hardening a client and a library apart: what is chosen on either side of an interface, and the images that are joined.
#![tactic(auto)]

#[cfg(test)]
mod demanded;
#[cfg(test)]
mod join;
#[cfg(test)]
mod modules;
#[cfg(test)]
mod part;
#[cfg(test)]
mod sides;
#[cfg(test)]
mod sums;

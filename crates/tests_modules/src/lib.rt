//! Tests of exports, of the validator, of labels and of linking by the public calls.
#![tactic(auto)]

#[cfg(test)]
mod alone;
#[cfg(test)]
mod labels;
#[cfg(test)]
mod link;
#[cfg(test)]
mod validate;
#[cfg(test)]
mod validate_bodies;
#[cfg(test)]
mod validate_modules;
#[cfg(test)]
mod wasm;

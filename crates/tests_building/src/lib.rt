//! Tests of commands that build: `harden`, with counted runs too, `lower` and `gen`.
#![tactic(auto)]

#[cfg(test)]
mod counts;
#[cfg(test)]
mod generated;
#[cfg(test)]
mod greatest;
#[cfg(test)]
mod harden;
#[cfg(test)]
mod harden_ends;
#[cfg(test)]
mod lower;

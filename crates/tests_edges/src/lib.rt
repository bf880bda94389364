//! Tests of what stands at the system's edge, over a system in memory that reads and writes short.
#![tactic(auto)]

#[cfg(test)]
mod disk;
#[cfg(test)]
mod faults;
#[cfg(test)]
mod files;
#[cfg(test)]
mod output;
#[cfg(test)]
mod system;

//! Tests of speculation by the public calls: the buffer machine and what it says of itself, the machine that forwards stores, comparisons of two
//! runs, and the lines of a cache.
#![tactic(auto)]

#[cfg(test)]
mod comparisons;
#[cfg(test)]
mod forward;
#[cfg(test)]
mod forward_greatest;
#[cfg(test)]
mod lines;
#[cfg(test)]
mod queries;
#[cfg(test)]
mod room;

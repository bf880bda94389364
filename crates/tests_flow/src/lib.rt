//! Tests of flows and residual networks by the public calls.
#![tactic(auto)]

#[cfg(test)]
mod flow;
#[cfg(test)]
mod networks;
#[cfg(test)]
mod residual;

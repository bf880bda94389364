//! Tests of what programs are told to be: `verify`, two runs side by side by `twin` and `forward`, chains from labels to demands, label sections that
//! break a rule, and the modules of `examples/`.
#![tactic(auto)]

#[cfg(test)]
mod chains;
#[cfg(test)]
mod demands;
#[cfg(test)]
mod examples;
#[cfg(test)]
mod forward;
#[cfg(test)]
mod modules;
#[cfg(test)]
mod refused_labels;
#[cfg(test)]
mod twin;
#[cfg(test)]
mod verify;

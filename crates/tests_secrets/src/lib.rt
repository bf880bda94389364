//! Tests of secrets by the public calls, from an image's bytes on: the check of constant time, starts that agree in public, and the verdict on two runs.
#![tactic(auto)]

#[cfg(test)]
mod agreement;
#[cfg(test)]
mod chains;
#[cfg(test)]
mod labelled;
#[cfg(test)]
mod labels;
#[cfg(test)]
mod pairs;
#[cfg(test)]
mod verdicts;

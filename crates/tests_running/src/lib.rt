//! Tests of commands that run what is built, over lists of modules and over images, also such as are cut or changed at a byte or declare
//! more than they name. Two runs side by side stand in tests_verdicts.
#![tactic(auto)]

#[cfg(test)]
mod blocks;
#[cfg(test)]
mod declared;
#[cfg(test)]
mod greatest;
#[cfg(test)]
mod interp;
#[cfg(test)]
mod lists;
#[cfg(test)]
mod predict;
#[cfg(test)]
mod run;
#[cfg(test)]
mod spec;
#[cfg(test)]
mod tampered;

//! Tests over programs by the public calls: the operators, images, plain runs, and lowering from the bytes of a module on.
#![tactic(auto)]

#[cfg(test)]
mod image;
#[cfg(test)]
mod lowered;
#[cfg(test)]
mod ops;
#[cfg(test)]
mod rows;
#[cfg(test)]
mod seq;

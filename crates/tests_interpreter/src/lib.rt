//! Tests of the interpreter by the public calls, from the bytes of a module on.
#![tactic(auto)]

#[cfg(test)]
mod machine;
#[cfg(test)]
mod memory;
#[cfg(test)]
mod table;

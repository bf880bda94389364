//! Tests of words: what they ask for, and those that ask for nothing.
#![tactic(auto)]

#[cfg(test)]
mod requests;
#[cfg(test)]
mod words;

//! Tests over programs that are laid out as instructions. The instructions and bytes were worked out by hand, from the templates and the manual.
#![tactic(auto)]

#[cfg(test)]
mod laid;

//! Two runs of a function from two starts, side by side: whether the starts agree in public, and the text on what is observed of both.
#![tactic(auto)]

mod agreement;
mod comparison;
pub mod laws;
mod runs;
mod sight;
mod text;

pub use agreement::agree;
pub use comparison::Comparison;
pub use runs::{compare_by, compare_runs};
pub use sight::Sight;
pub use text::{Compared, compare};

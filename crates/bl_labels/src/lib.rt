//! What a module declares secret, and what it demands to be public: its labels, by the section that it has them in.
#![tactic(auto)]

mod entry;
mod error;
mod judge;
mod labels;
mod marks;
mod named;
mod numbers;
mod section;
mod spaces;

pub use error::LabelError;
pub use labels::{Labels, Place};
pub use marks::Marks;
pub use section::labels_of;

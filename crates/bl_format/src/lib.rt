//! The image format: its grammar, and the writer.
#![tactic(auto)]

mod command;
mod definition;
mod header;
mod image;
pub mod laws;
mod rising;
mod write;

pub use header::{MAGIC, version_of};
pub use image::{encode, image_length};
pub use rising::Numbered;

//! The image of a program: its reader, and the laws on images.
#![tactic(auto)]

mod command;
mod decode;
mod definition;
mod error;
pub mod laws;
mod read;
mod rising;
mod value;

pub use bl_format::{encode, image_length};
pub use decode::decode_image;
pub use error::ImageError;

//! From the bytes of modules to a hardened program, and from those of images, trace files, start files, certificates and interface files to what
//! is run, judged or joined: stages, each of which passes a value on or refuses it.
#![tactic(auto)]

mod build;
mod certificate;
mod counts;
mod directives;
mod entry;
mod harden;
mod interface;
mod invocation;
mod join;
pub mod laws;
mod loading;
mod part;
mod prepared;
mod speculation;
mod start;
mod twins;

pub use build::{Built, compile};
pub use certificate::{Certified, read_certified};
pub use harden::{Hardened, compile_hardened, compile_hardened_by};
pub use invocation::{Invocation, prepare_invocation};
pub use join::{Union, join_images};
pub use loading::load;
pub use part::{Parted, compile_part};
pub use prepared::{Prepared, prepare};
pub use speculation::{Speculation, prepare_speculation};
pub use twins::{Twins, prepare_twins};

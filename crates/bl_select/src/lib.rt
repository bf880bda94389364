//! From commands to instructions: the writers of templates, with operands in registers, in memory or as numbers. specs/ defines what a template is,
//! and laws.rt states that a template does and shows what its command does.
#![tactic(auto)]

mod access_writer;
mod branch_writer;
mod division_writer;
pub mod laws;
mod location;
mod operands;
mod set_writer;
mod shape_table;

pub use access_writer::{push_load, push_store};
pub use branch_writer::{push_jump, push_test};
pub use location::{Location, Shape, Source};
pub use set_writer::push_set;
pub use shape_table::shape_of;

//! What every crate of Blade speaks of: lists and texts, labels, value types, positions, sets of
//! sites, traps, limits, starts and the ways in which a run ends.
#![tactic(auto)]

mod list;
mod memory;
mod names;
mod number;
mod quantity;
mod run;
mod sites;
mod start;
mod text;
mod trap;

pub use list::List;
pub use memory::NoMemory;
pub use names::{Flow, Label, Role, ValueType};
pub use number::{Pos, Var};
pub use quantity::{MOST_CALLS, Quantity};
pub use run::{Pages, Run};
pub use sites::SiteSet;
pub use start::{Patch, Start, argument_fits, fits};
pub use text::Text;
pub use trap::Trap;

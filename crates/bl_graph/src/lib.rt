//! Where a program's values come from and go to: its loads, what its sites write and read, and what its sinks read; chains of
//! sites from loads to sinks, and certificates of flow along them, with how much flows; labels of variables, ways of secrets,
//! rows of arcs, and tables of what sites write.
#![tactic(auto)]

mod arcs;
mod certificate;
mod facts;
mod flows;
pub mod laws;
mod listing;
mod names;
mod reads;
mod secret;
mod writes;
mod written;

pub use arcs::{Arc, rows_of};
pub use certificate::{Certificate, FlowPath};
pub use facts::{Graph, Read, SinkUse, Use, Write};
pub use flows::{flow_sum, flows_through};
pub use listing::graph;
pub use names::{Names, names_of};
pub use secret::{Origin, SecretChain};
pub use writes::{ranges, variables};
pub use written::{no_entries, noted_at, written_free};

//! What crates of tests share that call the program: calls over files in memory and how they end, shelves, and modules by
//! their sections. It has no tests of its own.
#![tactic(auto)]

mod calls;
mod modules;
mod shelves;

pub use calls::{
    Case, are_done, are_no_requests, both_end, end_alike, ends, ends_narrowly, ends_on, ends_to,
    ends_within, passed, say, status_of,
};
pub use modules::{
    HARDEN, INTERP, LOWER, RUN, Run, Told, alike, interprets, is_told, labelled_shelf, module_of,
    put_labelled, put_module, shelf_with, told,
};
pub use shelves::{bytes_of, holds, is_joined, shelf_failing, shelf_of, stands};

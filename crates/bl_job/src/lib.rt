//! The jobs of commands: the files that are read and kept, what is refused and what is done, in what order, and how a call ends; and the code that
//! fetches files and delivers what is to be done. Nothing here names a command.
#![tactic(auto)]

mod content;
mod contents;
mod delivery;
mod fetch;
mod job;
mod output;
mod reading;
mod refusal;
mod status;

pub use content::Content;
pub use contents::{first_file, four_files, last_file, three_files, two_files};
pub use delivery::deliver;
pub use fetch::fetch_all;
pub use job::{Keep, Plan, Read, list_reads, one_kept};
pub use output::{refuse, say_line};
pub use refusal::{Refusal, WorkError, limit, refused, refused_at};
pub use status::{Reason, Status};

//! The jobs of `sshstation` with published lists (KRLs), over any register of a list guard, any files and any output.
//!
//! `run_in` makes a list guard in a file, or judges one list: it reads the keys of the CAs and the list, opens the
//! guard, judges the list at a time of the clock, and prints the line of the answer. A line that states a list is
//! printed only once the register keeps the list and a crash can't undo that.
#![tactic(auto)]

mod asking;
mod file_reader;
mod job;
mod list_file;
mod stating;
mod telling;

pub use asking::Listing;
pub use job::{ListJob, run_in};
pub use list_file::ListFile;

//! The command line of `sshstation`. Its words are the program's name and the arguments.
//!
//! The command is data, in `specs/Command.antt`, and clap defines what words mean for it. `read_words` returns a job
//! only if the words are valid by that meaning and ask for that job with those values. It returns a fault only if they
//! ask for help, are invalid or ask for no job, or if memory was refused.
#![tactic(auto)]

mod arguments;
mod command;
mod help;
mod job;
mod words_reader;

pub use command::AHEAD;
pub use job::{Judging, Listing, StationJob};
pub use words_reader::read_words;

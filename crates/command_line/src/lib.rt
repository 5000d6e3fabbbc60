//! The command line of `sshoffice`. Its words are the program's name and the arguments.
//!
//! The command is data, in `specs/Command.antt`, and clap defines what words mean for it. `read_words` returns a job
//! only if the words are valid by that meaning and ask for that job with those values. It returns a fault only if they
//! ask for help, are invalid or ask for no job, or if memory was refused.
//! A number is what `u64` parses: decimal digits, possibly after a `+` or with leading zeros, within its limits.
#![tactic(auto)]

mod command;
mod help;
mod job;
mod parts;
mod values;
mod words_fault;
mod words_reader;

pub use command::MOST_CONNECTIONS;
pub use job::Job;
pub use parts::{Part, job_command, plain_command, with_job};
pub use values::{lack, number_at, number_if_given, text_at, text_if_given, texts_at};
pub use words_fault::WordsFault;
pub use words_reader::{fault_by, read_words};

//! The jobs of `sshstation`, over any register of a guard, any files, any input and any output.
//!
//! `judge_files` judges the unsigned certificates (bodies) in files in order, and prints each answer. `judge_batches`
//! does so for bodies from an input, up to 64 at once, and reads the policy again before each batch. The answers are
//! those of the guard's reference model. The register keeps the body of each `sign` line, even if the call ends with a
//! fault.
#![tactic(auto)]

mod bodies;
mod file_reader;
mod guard_file;
mod input;
mod job;
mod judging;
mod key_file;
mod output;
mod policy_file;
mod second_output;
mod station_fault;
mod surroundings;
mod telling;
mod whole;

pub use file_reader::file_fault;
pub use guard_file::GuardFile;
pub use job::{GuardJob, run_in};
pub use key_file::scope_from;
pub use output::print;
pub use policy_file::print_policy;
pub use second_output::{tell_fault, tell_text};
pub use station_fault::StationFault;
pub use surroundings::Surroundings;
pub use whole::Judging;

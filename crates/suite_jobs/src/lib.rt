//! Tests of `office_jobs`: whole jobs in a world in memory, whose answers a test chooses.
//!
//! They use only public functions. Tests of the built program show what the system's world does with files and sockets,
//! for example `tests/test_command_line.py` and `tests/test_serving.py`.
#![tactic(auto)]

#[cfg(test)]
mod of_endings;
#[cfg(test)]
mod of_failures;
#[cfg(test)]
mod of_jobs;
#[cfg(test)]
mod of_rows;
#[cfg(test)]
mod running;
#[cfg(test)]
mod script;

//! The jobs of `sshoffice`, in a world: any files, any database, any listener and any output.
//!
//! What a job does is proved from the opening of a database to its closing. In between, `do_on` does a job for the
//! office in the database, from the connection as it is given to the one that is returned: it makes an office, applies
//! exchanges, prints the list or a report, or migrates tables. `closed` keeps a fault of the job or reports one of the
//! closing, and `finish` then prints the job's message. `serve_over` serves an office, and `check_list` checks a list
//! for a certificate.
//!
//! `do_words` reads the arguments, opens the files and the database that they name, and closes the database.
#![tactic(auto)]

mod adding;
mod applying;
mod checking;
mod command;
mod console;
mod database_opening;
mod ending;
mod file_opening;
mod file_reader;
mod founding;
mod job;
mod job_fault;
mod listing;
mod migrating;
mod opening;
mod output;
mod reporting;
mod second_output;
mod served;
mod trial;
mod whole;
mod world;

pub use command::{do_job, do_no_words, do_words};
pub use console::Console;
pub use output::Output;
pub use trial::MemoryOffice;
pub use world::World;

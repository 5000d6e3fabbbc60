//! Exchange files: reading them, running their exchanges over an office, and printing the responses.
//!
//! A file is read exactly as its format says, and the first bad record is reported. The output is what the office gave
//! to each exchange, in order.
#![tactic(auto)]

mod exchange_reader;
mod printing;
mod running;

pub use exchange_reader::{
    ExchangesFault, MAX_EXCHANGES, MAX_FILE, MAX_RECORD_LINE, MAX_REQUEST, read_exchanges,
    the_first_bytes_tell_of_a_file,
};
pub use printing::{has_fault, print_given, print_number, print_piece};
pub use running::{RunFault, apply_exchanges, print_all};

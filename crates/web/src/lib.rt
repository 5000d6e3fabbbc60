//! From the bytes of a request to the bytes of its response, and from a reader to a writer.
//!
//! `answer` gives, for any bytes, the one response specified for what they ask, after the arrivals so far, over any
//! register of an office, and `run` does so for successive exchanges. The response to each GET is a function of the
//! reference model's state. Room for a response is reserved before anything is applied, so after a fault the register
//! means what it meant. A register that has answered is open, so it preserves what it means.
//!
//! `serve_one` takes the bytes of one request and no more from a reader, takes a nonce, has a register answer, and
//! writes the response. Its contract specifies exactly the bytes taken and written, and the effect of each fault.
#![tactic(auto)]

mod answering;
mod batches;
mod certificate_lines;
mod departments;
mod exchange;
mod pieces;
mod publishing;
mod report;
mod request;
mod room;
mod running;
mod serve;
mod serve_fault;
mod taking;

pub use exchange::{Exchange, Given};
pub use request::{answer, answer_by};
pub use running::run;
pub use serve::serve_one;
pub use serve_fault::ServeFault;

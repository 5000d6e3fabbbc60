//! The integers and strings of RFC 4251, section 5, and the readers and writers that calls borrow.
//!
//! Values are written as their texts, and a cursor returns exactly the value whose text begins the bytes that are
//! left, or `None` if these are too few. A `Source` or a `Sink` counts its calls that failed, so a fault is attributed
//! to it only if it failed. If it specifies its bytes, contracts can state which were taken, even after a failure.
#![tactic(auto)]

mod buffered;
mod cursor;
mod failure;
mod from_read;
mod from_write;
mod put;
mod scripted;
mod sink;
mod source;
mod vec_sink;

pub use buffered::Buffered;
pub use cursor::Cursor;
pub use failure::Failed;
pub use from_read::FromRead;
pub use from_write::FromWrite;
pub use put::{put_string, put_u32, put_u64};
pub use scripted::{Ending, Pace, ScriptedNonces, ScriptedReader, ScriptedWriter};
pub use sink::{Sink, write_all};
pub use source::{Source, read_full};
pub use vec_sink::VecSink;

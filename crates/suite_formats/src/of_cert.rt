//! Bytes that aren't an unsigned certificate (body), bodies for keys of all types, and pairs that aren't options.

mod faults;
mod keys;
mod options;

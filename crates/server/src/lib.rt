//! The loop of the loopback server: connections in succession, one request on each.
//!
//! `serve_on` serves a given number of connections of a `Listener`: the system's as a `Loopback`, or one in memory as a
//! `ScriptedListener`. `selftest` listens and serves with itself as the client. The fault of a connection is printed,
//! and the next one is served. A peer that sends nothing, or a little at a time, can't hold up the office for long: each
//! read and each write waits at most ten seconds, and a connection takes at most a minute.
#![tactic(auto)]

mod closing;
mod connection;
mod connection_fault;
mod listener;
mod loopback;
mod own_client;
mod patience;
mod report;
mod scripted;
mod serve;
mod timed;
mod watch;

pub use connection_fault::{Fault, SelftestFault};
pub use listener::{Connection, Listener};
pub use loopback::Loopback;
pub use own_client::selftest;
pub use patience::{CONNECTION_SECONDS, STEP_SECONDS};
pub use scripted::{ScriptedConnection, ScriptedListener, Written};
pub use serve::{serve_keeping, serve_on};

//! All that the two programs ask of the system, in three parts: `System` reads, `Opener` makes and opens databases, and
//! `Network` has sockets within this machine.
//!
//! Each part keeps the handle of the program's runtime to itself. So code that is given a part can ask for what its
//! methods do, and for nothing else. Of an open database it is proved what it finds in its files; nothing is proved about
//! the system's other answers.
#![tactic(auto)]

mod network;
mod opener;
mod reading;

pub use network::Network;
pub use opener::Opener;
pub use reading::System;

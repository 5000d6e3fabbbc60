//! Owned bytes, and lists of them, represented as lists in contracts.
//!
//! A `Text` is seen as the list of its bytes, a `Texts` as the list of its texts in order, and a `Pairs` as the list of
//! its pairs. So a plain struct of them is itself the mathematical record that definitions use.
//! Functions that allocate return `NoMemory` if an allocation was refused.
#![tactic(auto)]

mod bytes;
mod cutting;
mod memory;
mod pair;
mod pairs;
mod steps;
mod texts;

pub use bytes::Text;
pub use cutting::cut;
pub use memory::NoMemory;
pub use pair::Pair;
pub use pairs::Pairs;
pub use steps::both;
pub use texts::Texts;

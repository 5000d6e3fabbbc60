//! Theorems about an office and a list guard that judges its lists: functions with empty bodies, whose contracts are
//! the theorems.
//!
//! A list guard refuses a list whose version has grown by more than the list has, as `VersionJumps`. The theorems say
//! that it refuses none of an office's own lists so, over any history.
#![tactic(auto)]

mod versions;

pub use versions::{lists_account_for_their_versions, no_published_list_jumps};

//! The guard of published lists (KRLs), which decides which list is the office's next one.
//!
//! A list guard keeps the list that it approved last. It then refuses a list that has a lower version, that has
//! different bytes under the same version, that doesn't revoke everything that the last one revokes, or whose version
//! has grown by more than the list has. The reference model (`specs/`) defines which refusal applies to a list.
//! `judge_list` gives the model's answers over any register.
#![tactic(auto)]

mod counting;
mod judging;
mod laws;
mod memory;
mod refusal;
mod register;
mod statement;
mod verdict;

pub use judging::{Answer, judge_list};
pub use laws::{
    a_published_list_is_kept, an_approved_list_is_stated_again, approved_lists_only_grow,
    stated_lists_only_grow, versions_are_accounted_for, what_is_approved_is_not_refused,
};
pub use memory::MemoryListGuard;
pub use refusal::Refusal;
pub use register::{LONGEST_LIST, ListRegister, RegisterFault};
pub use statement::put_answer;

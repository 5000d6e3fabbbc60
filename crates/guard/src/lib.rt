//! The guard next to the CA's key: it decides which unsigned certificates (bodies) may be signed.
//!
//! A guard keeps each body that it approved, and approves no second body under a serial. The reference model (`specs/`)
//! determines which refusal of one table applies to a body, after any list of questions. `decide` gives the same answer
//! from the one row for the body's serial.
#![tactic(auto)]

mod answer_line;
mod approved;
mod body;
mod deciding;
mod judging;
mod laws;
mod memory;
mod permission;
mod policy;
mod policy_fault;
mod policy_reader;
mod refusal;
mod register;
mod retiring;
mod scope;
mod small_order;
mod verdict;

pub use answer_line::put_answer;
pub use approved::Approved;
pub use body::{BodyFault, LONGEST_BODY, fields_of};
pub use deciding::decide;
pub use judging::{Answer, judge};
pub use laws::{
    a_body_that_was_approved_stays, a_policy_is_read_as_its_departments, a_question_is_one_step,
    a_refusal_changes_nothing, a_retired_guard_keeps_its_bodies, a_retired_guard_signs_again,
    a_retired_guard_signs_none_over_its_last_serial, a_serial_has_one_body,
    an_approved_body_has_its_own_principals, an_approved_body_is_signed_again,
    an_approved_body_was_permitted, no_key_of_small_order_is_approved, refusals_ascend,
    what_has_fields_is_a_body, what_may_be_signed_is_approved,
};
pub use memory::MemoryGuard;
pub use policy::{LONGEST_POLICY, Policy};
pub use policy_fault::PolicyFault;
pub use refusal::Refusal;
pub use register::{Register, RegisterFault};
pub use retiring::{RetireFault, retire};
pub use scope::Scope;
pub use verdict::{Verdict, View, Window};

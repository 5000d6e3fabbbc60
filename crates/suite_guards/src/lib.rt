//! Tests of the guards and their registers: `guard`, `guard_sql`, `list_guard` and `list_sql`.
//!
//! They use only public functions. Tests of the built program show what `sshstation` does with them, for example
//! `tests/test_sshstation.py`.
#![tactic(auto)]

#[cfg(test)]
mod of_guard;
#[cfg(test)]
mod of_guard_sql;
#[cfg(test)]
mod of_list_guard;
#[cfg(test)]
mod of_list_sql;

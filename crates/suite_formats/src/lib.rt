//! Tests of `wire`, `lines`, `cert`, `krl` and `station_jobs` for behavior that only function calls can show.
//!
//! They use only public functions: readers and writers that end and fail, and the names of faults that no command
//! prints. Expected values come from independent sources. What the built programs can show about texts, unsigned
//! certificates (bodies), public-key lines and lists is in `tests/test_messages.py`, `tests/test_certificates.py`,
//! `tests/test_key_lines.py` and `tests/test_krl.py`.
#![tactic(auto)]

#[cfg(test)]
mod of_cert;
#[cfg(test)]
mod of_krl;
#[cfg(test)]
mod of_lines;
#[cfg(test)]
mod of_output;
#[cfg(test)]
mod of_wire;

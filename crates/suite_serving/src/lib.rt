//! Tests of `serve_one` and of `server`: readers and writers that end, fail and proceed step by step, and connections
//! in memory.
//!
//! They use only public functions. The built program shows which requests are answered for their bytes alone, and which
//! arguments are a job, in `tests/test_requests.py` and `tests/test_command_line.py`; sockets and clocks are in
//! `tests/test_serving.py`.
#![tactic(auto)]

#[cfg(test)]
mod of_server;
#[cfg(test)]
mod of_serving;

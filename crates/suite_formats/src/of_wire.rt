//! Worked examples from the standards, and streams that end, fail and proceed step by step.

mod streams;
mod texts;

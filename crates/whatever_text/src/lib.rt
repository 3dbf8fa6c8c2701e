//! The switches whose unknown positions do not matter alone: a denied operation is denied with each of them off, and with
//! it on.
#![tactic(auto)]

mod lines;
mod verdicts;

pub use lines::whatever_text;

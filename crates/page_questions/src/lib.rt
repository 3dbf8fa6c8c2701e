//! The questions of a page about a station that it keeps, and their answers: the texts of `check`, `state`, `explain`,
//! `why` and `order`, by the bytes that these commands are given.
#![tactic(auto)]

mod answers;

pub use answers::{Answer, check_answer, explain_answer, order_answer, state_answer, why_answer};

//! The texts of `check` and `explain`: the releases of each switch with the readings of its denials, and why one
//! operation is denied, or why all are that are denied.
#![tactic(auto)]

mod check;
mod denials;
mod explain;
mod lines;

pub use check::{check_lines, check_text};
pub use denials::denial_lines;
pub use explain::explain_text;

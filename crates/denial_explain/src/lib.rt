//! Why an operation is denied: the way by which a node is energised, the way by which it is earthed, the
//! load on both sides of a gap, and what bonds them not.
#![tactic(auto)]

mod chain;
mod chains;
mod explaining;
mod explanation;
mod neighbours;
mod steps;
mod text;

pub use chain::Chain;
pub use explaining::explain;
pub use explanation::Explanation;
pub use text::{operation_text, positions_text};

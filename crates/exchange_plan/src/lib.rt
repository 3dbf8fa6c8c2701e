//! The data exchange plan of a station: for each bay the bays that must tell it their positions, exactly those that
//! can change an answer for one of its operations.
#![tactic(auto)]

mod json;
mod planned;
mod planning;

pub use json::plan_text;
pub use planned::Plan;
pub use planning::plan;

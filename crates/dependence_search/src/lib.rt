//! On which switches the release of an operation depends, and which rules it can break, found in the walk of the graphs of
//! its switch: positions of all switches that show it are found wherever there are any.
#![tactic(auto)]

mod breach;
mod label;
mod parting;
mod position;
mod released;
mod telling;
mod turn;
mod walk;
mod width;

pub use breach::find_breach;
pub use released::released_graph;
pub use turn::{find_turn, one_is_none, turning_depends};
pub use walk::{RuleStocks, rule_stocks, rule_walk, walks_answer};
pub use width::narrow_excludes_wide;

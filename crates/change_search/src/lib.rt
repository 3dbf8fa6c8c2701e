//! What of an operation changes between two stations, found in a walk of the graphs of its switch in both: the labels of
//! a walk tell exactly which rules the operation breaks, and choices that show a change are found wherever there are any.
#![tactic(auto)]

mod allow;
mod free;
mod law;
mod limits;
mod part;
mod search;
mod telling;
mod width;

pub use allow::free_steps_allow;
pub use free::free_steps;
pub use law::labels_tell_changes;
pub use limits::{ALL_WALK_EDGES, WALK_EDGES, walk_limit};
pub use part::{Reached, Shown, find_part};
pub use search::find_change;
pub use telling::{answer, tells};
pub use width::keeping_excludes_passing;

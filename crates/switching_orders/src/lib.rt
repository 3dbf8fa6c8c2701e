//! Orders of switching, judged step by step in advance, and undone.
#![tactic(auto)]

mod certain;
mod judging;
mod laws;
mod order;
mod read;
mod ruling;
mod text;

pub use certain::certain_positions;
pub use judging::judge_order;
pub use laws::{accepted_keeps_apart, undone_gives_start};
pub use order::{MOST_STEPS, Order};
pub use read::{OrderFault, read_order};
pub use ruling::{Ruling, Step};
pub use text::{OrderReport, order_text};

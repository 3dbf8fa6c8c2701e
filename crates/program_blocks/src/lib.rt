//! Lines put into function blocks: bays whose lines are the same share a block, and each calls an instance of it.
#![tactic(auto)]

mod block;
mod names;
mod renaming;
mod sameness;
mod sides;
mod standing;
mod unfolding;
mod wiring;
mod within;

pub use block::{Block, BlockCall, Step};
pub use names::is_among;
pub use renaming::{outer, outer_line};
pub use standing::stand_for;
pub use unfolding::are_all_same;

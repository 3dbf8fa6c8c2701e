//! What an extension of a station changes: for an operation that both stations have, in which positions of all switches
//! of both it is released in one and forbidden in the other; and laws by which this is found view by view.
#![tactic(auto)]

mod change;
mod laws;

pub use change::Change;
pub use laws::{
    gap_at_the_ends, load_alone, load_lies_between, no_earth_no_gap, order_does_not_matter,
    released_as_before, turned_round,
};

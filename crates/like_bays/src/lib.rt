//! Which bays are like: the drawing with the two exchanged is the drawing. What is known of the operations of one of the two
//! is known of those of the other.
#![tactic(auto)]

mod check;
mod items;
mod like;
mod tables;
mod vector;

pub use items::led_to;
pub use like::{are_like, exchange_of};
pub use vector::exchanged_vector;

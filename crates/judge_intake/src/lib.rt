//! What the layers of a judge's graphs take in: the nodes that are kept before each layer, and the values of parts and
//! switches, by their numbers in a pool.
#![tactic(auto)]

pub mod codes;
mod inputs;
mod needed;
mod others;
mod own;
mod own_bays;
mod places;

pub use inputs::{inner_keeps, inner_letters, letter_rows, nothing, other_rows, outer_keeps};
pub use needed::{Sharing, sharing_of};
pub use others::other_number;
pub use own::{BayIntake, bay_intake};
pub use own_bays::{OwnBay, own_bay};

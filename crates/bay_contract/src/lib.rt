//! Alphabets of parts: what each part of a station is to the rest of it, as a short list. It has the
//! distinct contractions of the part on the nodes that it shares with other parts, and a decision diagram
//! leads from the positions of the part's switches to one of them. So a judge goes over a few indices of a
//! part in place of all its positions.
#![tactic(auto)]

mod alphabet;
mod bases;
mod course;
mod kept;
mod laws;
mod layer;
mod like;
mod parts;
mod pattern;
mod possible;
mod readers;
mod refusal;
mod sorted;
mod table;
mod walk;

pub use bases::base;
pub use laws::contractions_are_so_many;
pub use parts::Parts;
pub use possible::IndexSet;
pub use refusal::PartsRefusal;

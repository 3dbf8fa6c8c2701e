//! A hasher for numbers, lists of numbers and texts that the program made, and maps that hash by it. The hasher of std
//! takes a number by its bytes; this one takes it at once, in a tenth of the time.
#![tactic(auto)]

mod hasher;
mod maps;

pub use hasher::NumberHasher;
pub use maps::{NumberHash, NumberMap};

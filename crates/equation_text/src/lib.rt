//! The interlocking of a station as equations in a text, which is read back here as the lines that it says. What
//! the lines are and mean, and how they are made and written, is `station_equations`, which this crate offers too.
#![tactic(auto)]

mod defined;
mod entries;
mod front;
mod lines;
mod node_lines;
mod read;
mod reading;
mod undefined;
mod words;

pub use read::{EquationsFault, read_equations};
pub use station_equations::{
    Equations, GREATEST_INDEX, Goal, NUMBERS, SwitchGoals, compile_equations, compile_text,
    text_means_the_answer,
};

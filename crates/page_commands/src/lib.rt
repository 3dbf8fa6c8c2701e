//! The law that a page is told of a station what the commands write of it.
#![tactic(auto)]

mod laws;

pub use laws::answers_are_the_commands;

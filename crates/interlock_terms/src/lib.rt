//! Monotone formulas over the positions of switches, each once, made of earlier ones.
#![tactic(auto)]

mod term;
mod terms;

pub use term::Term;
pub use terms::Terms;

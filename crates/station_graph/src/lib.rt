//! The station: a single-line diagram as lists of nodes, switches, links and taps, each of one part;
//! the positions of its switches; and, in `specs/`, the definitions of what is joined, bonded, coupled,
//! live, quiet, energisable and earthable, and of the rule that an operation breaks.
#![tactic(auto)]

mod accepts;
mod builder;
mod classes;
mod fault;
mod items;
mod laws;
pub mod limits;
mod marks;
mod nodes;
mod parts;
mod paths;
mod station;
mod vector;

pub use builder::Builder;
pub use classes::Classes;
pub use fault::{BuildFault, What};
pub use items::{Link, Switch, Tap};
pub use laws::{
    gap_and_load, moved_switch_is_passed_over, one_answer, parts_mix, soundness_is_kept,
};
pub use nodes::NodeList;
pub use station::Station;
pub use vector::Vector;

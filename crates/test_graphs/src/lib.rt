//! Layered graphs of tables, and small questions to a graph, for the test and bench crates.
#![tactic(auto)]

mod questions;
mod table;

pub use questions::{allow_one, node_total};
pub use table::{are_sizes, bare, fill};

//! The graphs of a moved switch, with a layer for each step by which the other items of a station are taken in, one at a
//! time and in any order: so the graphs of two stations can be walked together.
#![tactic(auto)]

mod ends;
mod graph;
mod letters;
mod spans;
mod step;

pub use graph::{StepStock, moved_graph, moved_graph_in, step_stock};
pub use letters::step_rows;
pub use step::Step;

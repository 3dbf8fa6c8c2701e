//! The values that stand between the layers of a judge's graphs, each once in a pool, and the layers that are made of
//! them; and, in `specs/`, what the labels and edges of the graphs are.
#![tactic(auto)]

mod batch;
mod batches;
mod fold;
mod keeps;
mod known;
mod layer;
mod limits;
mod list_stands;
mod lists;
mod lying;
mod notes;
mod past;
mod pool;
mod seats;
mod selecting;
mod stands;
mod view;

pub use fold::{Drafts, fold_layers};
pub use layer::Trouble;
pub use limits::{ALL_EDGES, BAY_EDGES};
pub use pool::Pool;
pub use view::View;

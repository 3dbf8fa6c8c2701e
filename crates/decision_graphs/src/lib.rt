//! Layered decision graphs. A graph has layers of nodes; each node has, for each choice of its layer, one
//! edge to a node of the next layer, and from the last layer to a label. So a list with one choice for
//! each layer leads from the start, node 0 of the first layer, to one label. Nodes are shared, so a
//! small graph answers a question over very many lists: which labels some list of allowed choices
//! reaches, by which choices, and whether a layer makes a difference.
//!
//! An edge takes 4 bytes, and a node 2 for its layer. The edges of a layer lie in memory once for all graphs that
//! have it.
#![tactic(auto)]

mod arrival;
mod assemble;
mod builder;
mod choices;
mod depend;
mod find;
mod finished;
mod fold;
mod fold_all;
mod fold_pairs;
mod folds;
mod graph;
mod known;
mod laws;
mod layout;
mod limits;
mod marks;
mod reach;
mod reached;
mod rename;
mod same;
mod sets;
mod shape;
mod shared_numbers;
mod ways;

pub use builder::{GraphBuilder, Unfinished};
pub use choices::ChoiceList;
pub use finished::FinishedLayer;
pub use folds::Folds;
pub use graph::Graph;
pub use laws::{reduced_nodes_are_apart, renamed_labels_lead_alike};
pub use limits::{GRAPH_NODES, LABELS, LAYERS};
pub use marks::Marks;
pub use sets::ChoiceSets;
pub use shared_numbers::SharedNumbers;

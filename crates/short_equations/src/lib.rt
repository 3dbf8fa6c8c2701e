//! Short equations: what each part of a station is to the others, as formulas over positions, by elimination of nodes.
#![tactic(auto)]

mod chain;
mod edge;
mod elimination;
mod fragment;
mod laws;
mod pair;
mod part;
mod part_set;
mod readout;
mod sights;
mod view;

pub use chain::view_pairs;
pub use edge::{Edge, FIRST_MARK};
pub use laws::signals_release;
pub use pair::TermPair;
pub use view::View;

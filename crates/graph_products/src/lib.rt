//! Two layered graphs walked together: at each layer both take a choice, and only certain pairs of choices are made
//! together. The product has a node for each pair of nodes that is reached so, and a label for each pair of labels.
#![tactic(auto)]

mod law;
mod layer;
mod pair;
mod pairs;
mod product;
mod row;

pub use law::pairs_are_reached;
pub use pair::Pair;
pub use product::{Product, ProductTrouble, product_of};
pub use row::Row;

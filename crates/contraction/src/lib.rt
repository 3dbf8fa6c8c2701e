//! Contractions: what any items in any position are to the rest of the station. A contraction is a
//! small value on a few kept nodes that answers what its items couple, join, bond and supply there. It
//! composes: the values of two lists of items give that of both lists together, where each keeps the
//! nodes at which they meet. So a judge decides over all positions of many switches without trying
//! them.
#![tactic(auto)]

mod both_rows;
mod bytes;
mod compose;
mod composed_row;
mod empty_views;
mod ends;
mod few_rows;
mod items;
mod kept_nodes;
mod labels;
mod laws;
mod layout;
mod marks;
mod merge;
mod numbers;
mod one_view;
mod places;
mod read_row;
mod renamed;
mod row;
mod selection;
mod shared_row;
mod supply;
mod unchanged;
mod value;

pub use both_rows::BothRows;
pub use empty_views::EmptyViews;
pub use kept_nodes::KeptNodes;
pub use laws::{
    composition_respects_views, fewer_nodes_tell_less, gap_views_are_equal, load_views_are_equal,
    nodes_in_one_order_compose_alike, one_view_is_that_of_both, one_view_respects_it,
    own_positions_stand, restriction_respects_views, same_items_stand, same_nodes_are_one_list,
    same_views_stand, values_tell_views,
};
pub use selection::Selection;
pub use supply::Supply;
pub use value::Contraction;

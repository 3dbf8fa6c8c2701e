//! The paths of the switches and parts of one station, or of two, or of the switches and nodes of one, as the names of a
//! text that goes out in pieces; and numbers in such a text.
#![tactic(auto)]

mod decimal;
mod items;
mod numbers;
mod tables;

pub use decimal::push_decimal;
pub use items::{item_node_name, item_paths, item_switch_name};
pub use numbers::{
    new_part_name, new_switch_name, old_part_name, old_switch_name, part_name, switch_name,
};
pub use tables::{both_paths, station_paths};

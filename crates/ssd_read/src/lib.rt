//! Reads a single-line diagram, an SSD file of IEC 61850-6, as the station for which it stands, or
//! refuses it at the first thing that is wrong with it.
//!
//! Of the file are read the substations with their voltage levels, bays, connectivity nodes,
//! conducting equipment and power transformers; all else is skipped. The whole is three passes over
//! the elements: the names, where the terminals stand, and the building of the station.
#![tactic(auto)]

mod attributes;
mod build;
mod checks;
mod drawing;
mod end_lists;
mod ends;
mod equipment;
mod laws;
mod links;
mod names;
mod parts;
mod paths;
mod read;
mod refusal;
mod role;
mod switches;
mod terminal_place;
mod types;
mod whole;

pub use drawing::Drawing;
pub use ends::{after_slash, nodes_at};
pub use laws::{has_in_order, limit_is_a_count, one_station, stands_in_order};
pub use names::is_good_name;
pub use parts::is_part;
pub use read::read_ssd;
pub use refusal::SsdRefusal;
pub use role::Role;
pub use terminal_place::TerminalPlace;
pub use types::{EquipmentType, Use, is_bond, is_tapless, use_of};
pub use whole::{WholeDrawing, read_whole};

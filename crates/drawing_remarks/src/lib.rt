//! What is likely not meant in a drawing, and the text of `station`: the station as it was read, those remarks, and
//! counts.
#![tactic(auto)]

mod counts;
mod drawn;
mod facts;
mod kinds;
mod nodes;
mod places;
mod remarks;
mod text;
mod types;

pub use kinds::{KINDS, RemarkKind};
pub use text::{StationReport, station_text};

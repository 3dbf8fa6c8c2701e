//! What is tested of a bay at commissioning: for each operation of the bay and each switch on which its release depends a
//! position and a move that turn it, of that switch or of a like one, and for each rule that it can break a position that
//! shows it.
#![tactic(auto)]

mod all_bays;
mod answers;
mod asked;
mod bay;
mod bay_paths;
mod climb;
mod cover;
mod cover_bay;
mod depends;
mod flips;
mod found;
mod laws;
mod layers;
mod leads;
mod lists;
mod moves;
mod open_turns;
mod operations;
mod paths;
mod refusal;
mod rich;
mod shown;
mod sound;
mod stands;
mod switch_paths;
mod told;
mod turn_index;
mod values;
mod walked;

pub use all_bays::station_tests;
pub use bay::bay_tests;
pub use laws::{
    each_bay_is_tested, left_out_rules_are_found, like_bays_are_tested, narrow_bays_are_not_wide,
    stuck_inputs_are_found,
};
pub use refusal::TestsRefusal;
pub use values::{BayTests, SharedTests, TestMove, TestPosition};

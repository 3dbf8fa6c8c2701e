//! The decision graphs of each bay of a station, and the judge that decides by them.
#![tactic(auto)]

mod all_words;
mod bays;
mod build;
mod by_words;
mod chain;
mod decide;
mod denying;
mod heard;
mod judge;
mod own_words;
mod placing;
mod reached;
mod refusal;
mod search;
mod sets;
mod sides;
mod station;
mod summary;
mod told;

pub use build::GraphJudge;
pub use judge_pool::{ALL_EDGES, BAY_EDGES, View};
pub use refusal::BuildRefusal;
pub use station::SwitchVerdicts;

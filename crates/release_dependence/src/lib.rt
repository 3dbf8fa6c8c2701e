//! Laws by which the releases that depend on a switch are found view by view.
#![tactic(auto)]

mod laws;

pub use laws::{exchange_keeps_answers, load_alone_suffices, two_views_suffice};

//! Two stations compared: for each operation that both have, what the new station judges otherwise, and in which positions
//! of all switches; and whether the new one extends the old one.
#![tactic(auto)]

mod bays;
mod compare;
mod exchanged;
mod extends;
mod found;
mod laws;
mod likeness;
mod loads;
mod moved;
mod next;
mod operation;
mod refusal;
mod sharing;
mod stocks;
mod switch;
mod walked;
mod walks;
mod word;

pub use bays::{BayWord, BayWords};
pub use compare::compare_stations;
pub use found::{Comparison, Found, OperationChanges, RuleChanges, SwitchChanges};
pub use laws::{comparison_turned_round, narrow_excludes_width};
pub use refusal::CompareRefusal;
pub use word::{Word, word_says};

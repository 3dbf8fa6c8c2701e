//! The central rules: labels of nodes, the rule that an operation breaks, and what is decided over every
//! reading of the positions.
#![tactic(auto)]

mod alike;
mod judge;
mod labelling;
mod names;
mod plain;
mod rules;
mod supply;
mod trying;
mod verdict;

pub use alike::{alike_positions, full_knowledge};
pub use judge::{Judge, holds_by_summaries, known_by_words, words_by_known};
pub use labelling::labels;
pub use names::{direction_name, is_uncertain, position_name, rule_name, word_name};
pub use plain::{PLAIN_SWITCHES, PlainJudge, fits_plain};
pub use rules::breaks;
pub use supply::is_live;
pub use trying::trial;
pub use verdict::Verdict;

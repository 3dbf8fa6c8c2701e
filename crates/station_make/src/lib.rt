//! A double busbar with a coupler and as many feeders as wanted, for trials: its drawing, the positions of
//! its switches and a log of one whole operation.
#![tactic(auto)]

mod drawing;
mod equipment;
mod feeders;
mod laws;
mod limits;
mod making;
mod names;
mod records;
mod words;

pub use feeders::Feeders;
pub use laws::made_counts;
pub use limits::{LEAST_FEEDERS, MOST_FEEDERS};
pub use making::{Made, make};
pub use words::{MadeText, feeders_named, make_text, text_named};

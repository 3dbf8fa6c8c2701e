//! Equations written by hand, one block of lines for each operation, held against the central rules.
#![tactic(auto)]

mod auditing;
mod block;
mod condition;
mod draft;
mod finding;
mod findings;
mod laws;
mod question;
mod read;
mod text;
mod throughout;
mod tried;

pub use auditing::audit;
pub use block::{Blocks, MOST_OWN};
pub use condition::Condition;
pub use finding::{Finding, Loose};
pub use findings::Audit;
pub use laws::{one_outcome, same_is_exact};
pub use read::{BlocksFault, read_blocks};

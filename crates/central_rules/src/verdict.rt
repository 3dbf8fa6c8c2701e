//! What a judge decides.
use ilk_base::Rule;
use station_graph::Vector;

/// What a judge decides of an operation.
#[derive(Drop)]
pub enum Verdict {
    /// No rule is broken in any reading.
    Release,
    /// This rule is broken in this reading.
    Denied {
        /// the first rule that is broken
        rule: Rule,
        /// the reading in which it is broken
        reading: Vector,
    },
}

//! Why an operation breaks a rule.
use crate::chain::Chain;
use ilk_base::{Op, Rule};
use station_graph::NodeList;

/// Why an operation breaks a rule in a reading of the positions.
#[derive(Drop)]
pub struct Explanation {
    /// the operation
    pub op: Op,
    /// the rule that it breaks
    pub rule: Rule,
    /// how a node of the moved switch is energised (R1, R2) or live (R3): a way to a closed infeed
    pub live: Chain,
    /// for R2, how the first node of the moved switch is earthed: a way to a closed earthing switch
    pub earthed: Option<Chain>,
    /// for R3, the load on both sides of the gap: a way to a tap from the first node and one from the
    /// second
    pub taps: Option<(Chain, Chain)>,
    /// for R3, all nodes that are bonded to the first node, rising; the second is not among them
    pub bonded: NodeList,
}

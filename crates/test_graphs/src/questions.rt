//! Questions to a graph, as a caller asks them.
ghost use Rattle.decision_graphs.specs.Reaching.{AreSetsOf};

use decision_graphs::{ChoiceSets, Graph};

/// Allows a choice, where the graph has it.
pub fn allow_one(graph: &Graph, layer: u16, choice: u32, sets: &mut ChoiceSets)
    requires { AreSetsOf graph.now.layers sets.old }
    ensures { AreSetsOf graph.now.layers sets.new }
{
    if layer < graph.layers() && choice < graph.choices(layer) {
        sets.allow(layer, choice);
    }
}

/// How many nodes the graph has.
pub fn node_total(graph: &Graph) -> u64 {
    let mut total = 0u64;
    for layer in 0..graph.layers() {
        total = total.saturating_add(graph.nodes(layer).1 as u64);
    }
    total
}

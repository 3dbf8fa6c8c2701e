//! What is asked of a graph that was built.
ghost use Rattle.std.specs.Prelude.{IfOk};
ghost use Rattle.decision_graphs.specs.Reaching.{AreSetsOf};
ghost use Rattle.decision_graphs.specs.Marked.{AreMarksOf};

use decision_graphs::{ChoiceSets, Graph, Marks};
use ilk_base::Memory;
use std::alloc::Global;
use test_graphs::allow_one;

/// Sets that allow every choice.
pub fn all_choices(alloc: Global, graph: &Graph) -> Result<ChoiceSets, Memory>
    ensures { IfOk result (AreSetsOf graph.now.layers) }
{
    let mut sets = ChoiceSets::new(alloc, graph)?;
    for layer in 0..graph.layers() {
        allow_all(graph, layer, &mut sets);
    }
    Ok(sets)
}

fn allow_all(graph: &Graph, layer: u16, sets: &mut ChoiceSets)
    requires sets { AreSetsOf graph.now.layers sets.old }
    ensures { AreSetsOf graph.now.layers sets.new }
{
    if layer < graph.layers() {
        for choice in 0..graph.choices(layer) {
            allow_one(graph, layer, choice, sets);
        }
    }
}

/// How many labels are marked.
pub fn marked_labels(graph: &Graph, marks: &Marks) -> u32
    requires { AreMarksOf graph.now marks.now }
{
    let mut count = 0u32;
    for label in 0..graph.labels() {
        if marks.marked(label) {
            count = count.saturating_add(1);
        }
    }
    count
}

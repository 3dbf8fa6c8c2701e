//! What the outer graphs of a bay reach.
ghost use Rattle.std.specs.Prelude.{◌≡◌, IfOk};
ghost use Rattle.decision_graphs.specs.Reaching.{AreSetsOf, MarksReached};
ghost use Rattle.decision_graphs.specs.Marked.{AreMarksOf, PathsLead};
ghost use Rattle.release_compile.specs.Chaining.{HasReached};

use decision_graphs::{ChoiceSets, Graph, Marks};
use ilk_base::Memory;
use judge_graphs::BayGraphs;
use std::alloc::Global;

// Sets of the other parts' indices, and the labels of a bay's outer graphs to which they lead.
#[derive(Drop)]
pub(crate) struct Reached {
    pub(crate) sets: ChoiceSets,
    pub(crate) gap: Marks,
    pub(crate) load: Marks,
}

// The labels of a graph to which the sets lead.
pub(crate) fn marked(alloc: Global, graph: &Graph, sets: &ChoiceSets) -> Result<Marks, Memory>
    requires { AreSetsOf graph.now.layers sets.now }
    ensures marks { IfOk result (AreMarksOf graph.now) }
    ensures reached { IfOk result (λ m. MarksReached graph.now sets.now m.labels) }
    ensures paths { IfOk result (PathsLead graph.now sets.now) }
{
    let mut marks = Marks::new(alloc, graph)?;
    graph.reach(sets, &mut marks);
    Ok(marks)
}

// What the outer graphs of a bay reach by the sets.
pub(crate) fn reach(alloc: Global, graphs: &BayGraphs, sets: ChoiceSets) -> Result<Reached, Memory>
    requires gap { AreSetsOf graphs.now.gap.merged.value.layers sets }
    requires load { AreSetsOf graphs.now.load.merged.value.layers sets }
    ensures sets { IfOk result (λ r. r.sets ≡ sets) }
    ensures reached { IfOk result (HasReached graphs.now.gap.merged.value graphs.now.load.merged.value) }
{
    let gap = marked(alloc, graphs.gap.merged.as_ref(), &sets)?;
    let load = marked(alloc, graphs.load.merged.as_ref(), &sets)?;
    Ok(Reached { sets, gap, load })
}

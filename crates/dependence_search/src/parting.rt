//! From which nodes of a graph of two choices a layer is reached in which the two part.
ghost use Rattle.std.specs.Prelude.{◌≡◌, ◌↔◌, ℕ, suc, ◌<◌, IsTrue, length, map, drop, IfOk};
ghost use Rattle.decision_graphs.specs.Label.{layer_at, step};
ghost use Rattle.graph_walks.specs.Walks.{HasTwos};
ghost use Rattle.dependence_search.specs.Parting.{AreParting, ArePartingBack, IsParting, PartsFrom};

use decision_graphs::Graph;
use ilk_base::Memory;
use std::alloc::Global;

// Where a choice at node k of a layer leads: a place of what comes next.
pub(crate) fn next_place(graph: &Graph, layer: u16, node: u32, choice: u32) -> u32
    requires layer { layer < length graph.now.layers }
    requires node { node < length (layer_at graph.now.layers layer).rows }
    requires choice { choice < (layer_at graph.now.layers layer).choices }
    ensures { result ≡ step (layer_at graph.now.layers layer) node choice }
{
    let row = graph.row(layer, node);
    row[choice as usize]
}

// Whether the two choices at a node lead to different places.
fn parts_at(graph: &Graph, layer: u16, node: u32) -> bool
    requires twos { HasTwos (length graph.now.layers) graph.now }
    requires layer { layer < length graph.now.layers }
    requires node { node < length (layer_at graph.now.layers layer).rows }
    ensures { IsTrue result ↔ IsParting (layer_at graph.now.layers layer) node }
{
    next_place(graph, layer, node, 0) != next_place(graph, layer, node, 1)
}

// For each node of a layer whether its two choices lead to different places.
fn parting_nodes(alloc: Global, graph: &Graph, layer: u16) -> Result<Vec<bool>, Memory>
    requires twos { HasTwos (length graph.now.layers) graph.now }
    requires layer { layer < length graph.now.layers }
    ensures { IfOk result (λ v. AreParting graph.now.layers layer 0 v.items) }
{
    let (_, count) = graph.nodes(layer);
    let mut marks = Vec::new(alloc);
    for k in 0..count {
        marks.push(parts_at(graph, layer, k))?;
    }
    Ok(marks)
}

// Whether one of the two choices at a node leads to a marked one of the next layer.
fn leads_on(graph: &Graph, layer: u16, node: u32, after: &[bool]) -> bool
    requires twos { HasTwos (length graph.now.layers) graph.now }
    requires layer { suc layer < length graph.now.layers }
    requires node { node < length (layer_at graph.now.layers layer).rows }
    requires after { length after.now ≡ length (layer_at graph.now.layers (suc layer)).rows }
    ensures { (count : ℕ) → AreParting graph.now.layers (suc layer) count after.now
        → (IsTrue result ↔ PartsFrom (drop layer graph.now.layers) (suc count) node) }
{
    let _fits = graph.labels();
    let first = next_place(graph, layer, node, 0);
    let second = next_place(graph, layer, node, 1);
    after[first as usize] || after[second as usize]
}

// For each node of a layer whether one of the two choices leads to a marked one of the next.
fn nodes_before(
    alloc: Global,
    graph: &Graph,
    layer: u16,
    after: &[bool],
) -> Result<Vec<bool>, Memory>
    requires twos { HasTwos (length graph.now.layers) graph.now }
    requires layer { suc layer < length graph.now.layers }
    requires after { length after.now ≡ length (layer_at graph.now.layers (suc layer)).rows }
    ensures { IfOk result (λ v. (count : ℕ) → AreParting graph.now.layers (suc layer) count after.now
        → AreParting graph.now.layers layer (suc count) v.items) }
{
    let (_, count) = graph.nodes(layer);
    let mut marks = Vec::new(alloc);
    for k in 0..count {
        marks.push(leads_on(graph, layer, k, after))?;
    }
    Ok(marks)
}

// For each layer from this one back to the first the nodes from which some choices lead to one of this layer at which the
// two choices lead to different places.
pub(crate) fn parting_marks(
    alloc: Global,
    graph: &Graph,
    layer: u16,
) -> Result<Vec<Vec<bool>>, Memory>
    requires twos { HasTwos (length graph.now.layers) graph.now }
    requires layer { layer < length graph.now.layers }
    ensures len { IfOk result (λ v. length v.items ≡ suc layer) }
    ensures marks { IfOk result (λ v. ArePartingBack graph.now.layers layer (map (λ m. m.items) v.items)) }
{
    let mut all = Vec::new(alloc);
    let last = parting_nodes(alloc, graph, layer)?;
    all.push(last)?;
    for i in 0..layer {
        let after = &all[usize::from(i)];
        let marks = nodes_before(alloc, graph, layer - 1 - i, after)?;
        all.push(marks)?;
    }
    Ok(all)
}

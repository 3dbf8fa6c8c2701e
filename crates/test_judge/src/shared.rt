//! Graphs of layers that lie in memory once.
ghost use Rattle.std.specs.Prelude.{◌≡◌, ◌<◌, ℕ, length, slice_index, sum_by, IfOk};
ghost use Rattle.decision_graphs.specs.Finished.{AreFinished};
ghost use Rattle.decision_graphs.specs.declared.finished.FinishedLayer.{FinishedLayer as Layer};

use crate::graph_edges::has_edges;
use crate::graphs::are_names;
use decision_graphs::{FinishedLayer, Graph, SharedNumbers};
use ilk_base::Memory;
use std::alloc::Global;

// Two layers of two nodes with two choices, both with these edges, which lie in memory once.
fn two_alike(alloc: Global, edges: &[u32]) -> Result<Vec<FinishedLayer>, Memory>
    requires count { length edges.now ≡ 4 }
    requires within { (p : ℕ) → p < length edges.now → slice_index edges.now p < 2 }
    ensures finished { IfOk result (λ v. AreFinished 2 v.items) }
    ensures count { IfOk result (λ v. length v.items ≡ 2) }
    ensures nodes { IfOk result (λ v. sum_by (λ (l : Layer). l.nodes) v.items ≡ 4) }
{
    let own = Vec::from_slice(alloc, edges)?;
    let first = SharedNumbers::new(alloc, own)?;
    let second = first.share()?;
    let mut layers = Vec::new(alloc);
    layers.push(FinishedLayer {
        choices: 2,
        nodes: 2,
        edges: first,
    })?;
    layers.push(FinishedLayer {
        choices: 2,
        nodes: 2,
        edges: second,
    })?;
    Ok(layers)
}

// The graph of two such layers; none where there is no such graph.
fn graph_of_two(alloc: Global, edges: &[u32]) -> Option<Graph> {
    if edges.len() != 4 || !are_names(edges, 2) {
        return None;
    }
    let layers = two_alike(alloc, edges).ok()?;
    Graph::from_layers(alloc, 2, &layers).ok()
}

// Whether both layers of the graph have the edges that they were given.
fn has_both(alloc: Global) -> bool {
    match graph_of_two(alloc, &[0, 1, 1, 0]) {
        Some(graph) => has_edges(
            &graph,
            &[
                (0, 0, &[2, 3]),
                (0, 1, &[3, 2]),
                (1, 2, &[0, 1]),
                (1, 3, &[1, 0]),
            ],
        ),
        None => false,
    }
}

#[test]
fn layers_that_lie_once_have_their_edges_in_each_place(rt: HostRuntime) {
    assert!(rt; has_both(rt.alloc()));
}

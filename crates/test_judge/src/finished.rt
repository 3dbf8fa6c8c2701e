//! Graphs that are made of a table of their edges, and what `finish` answers.
ghost use Rattle.decision_graphs.specs.Drafting.{IsShaped};
ghost use Rattle.test_graphs.specs.Sizes.{AreSizes};

use crate::graph_edges::has_edges;
use decision_graphs::{Graph, GraphBuilder, Unfinished};
use std::alloc::Global;
use test_graphs::{are_sizes, bare, fill};

const ZERO: Option<u32> = Some(0);

// What `finish` answers after the edges of the first table and then those of the second.
fn filled(
    bare: GraphBuilder,
    labels: u32,
    choices: &[u32],
    nodes: &[u32],
    edges: &[Option<u32>],
    more: &[Option<u32>],
) -> Result<Graph, Unfinished>
    requires sizes { AreSizes labels choices.now nodes.now }
    requires shaped { IsShaped bare labels choices.now nodes.now }
{
    let mut builder = bare;
    fill(&mut builder, labels, choices, nodes, edges);
    fill(&mut builder, labels, choices, nodes, more);
    builder.finish()
}

// The same, of these sizes; none where no graph has them, or memory is wanted.
fn finished(
    alloc: Global,
    labels: u32,
    choices: &[u32],
    nodes: &[u32],
    edges: &[Option<u32>],
    more: &[Option<u32>],
) -> Option<Result<Graph, Unfinished>> {
    if !are_sizes(labels, choices, nodes) {
        return None;
    }
    match bare(alloc, labels, choices, nodes) {
        Ok(bare) => Some(filled(bare, labels, choices, nodes, edges, more)),
        Err(_) => None,
    }
}

// The graph of a table; none where an edge is missing too.
pub(crate) fn graph_of(
    alloc: Global,
    labels: u32,
    choices: &[u32],
    nodes: &[u32],
    edges: &[Option<u32>],
) -> Option<Graph> {
    finished(alloc, labels, choices, nodes, edges, &[])?.ok()
}

// Whether `finish` names this as the first missing edge of a graph of two layers.
fn misses(alloc: Global, edges: &[Option<u32>], first: Unfinished) -> bool {
    match finished(alloc, 3, &[2, 2], &[1, 2], edges, &[]) {
        Some(Err(missing)) => missing == first,
        _ => false,
    }
}

#[test]
fn finish_names_the_first_missing_edge(rt: HostRuntime) {
    let of_the_start = Unfinished { from: 0, choice: 1 };
    assert!(rt;
        misses(
            rt.alloc(),
            &[ZERO, None, ZERO, ZERO, None, ZERO],
            of_the_start
        )
    );
    let of_the_last = Unfinished { from: 2, choice: 0 };
    assert!(rt;
        misses(
            rt.alloc(),
            &[ZERO, ZERO, ZERO, ZERO, None, None],
            of_the_last
        )
    );
}

// Whether a second edge replaces the first.
fn is_replaced(alloc: Global) -> bool {
    match finished(alloc, 3, &[2], &[1], &[Some(0), Some(1)], &[Some(2)]) {
        Some(Ok(graph)) => has_edges(&graph, &[(0, 0, &[2, 1])]),
        _ => false,
    }
}

#[test]
fn a_second_edge_replaces_the_first(rt: HostRuntime) {
    assert!(rt; is_replaced(rt.alloc()));
}

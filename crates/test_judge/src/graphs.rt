//! Graphs by hand: what their edges say, and what is asked of them.
ghost use Rattle.std.specs.Prelude.{◌<◌, ℕ, length, slice_index, IsTrue};

use crate::finished::graph_of;
use crate::graph_edges::{EdgeRow, has_edges};
use crate::reached::{Ways, are_ways};
use decision_graphs::Graph;
use std::alloc::Global;
use test_graphs::node_total;

// What is asked of a graph.
enum Asked {
    // its nodes, and where each leads
    Edges(&'static [EdgeRow]),
    // the same, once each label is replaced by its name
    Renamed(&'static [u32], &'static [EdgeRow]),
    // where choices lead
    Ways(&'static [Ways]),
    // how many nodes it has after reduction, and which layers make a difference
    Reduced(u64, &'static [bool]),
}

// Whether each name is one of so many labels.
pub(crate) fn are_names(names: &[u32], labels: u32) -> bool
    ensures { IsTrue result → (x : ℕ) → x < length names.now → slice_index names.now x < labels }
{
    names.iter().all(|name| *name < labels)
}

// Whether the graph with each label replaced by its name has these edges.
fn is_renamed(alloc: Global, graph: &Graph, names: &[u32], rows: &[EdgeRow]) -> bool {
    let labels = graph.labels();
    if labels == 0 || names.len() != labels as usize || !are_names(names, labels) {
        return false;
    }
    match graph.rename(alloc, labels, names) {
        Ok(copy) => has_edges(&copy, rows),
        Err(_) => false,
    }
}

// Whether the graph has so many nodes after reduction.
fn is_reduced_to(alloc: Global, graph: &Graph, nodes: u64) -> bool {
    match graph.reduce(alloc) {
        Ok(small) => node_total(&small) == nodes,
        Err(_) => false,
    }
}

// Whether a layer makes this difference.
fn depends(alloc: Global, graph: &Graph, layer: u16, does: bool) -> bool
    requires { layer < length graph.now.layers }
{
    match graph.depends_on(alloc, layer) {
        Ok(depends) => depends == does,
        Err(_) => false,
    }
}

// Whether each layer makes its difference, asked one by one.
fn each_depends(alloc: Global, graph: &Graph, layers: &[bool]) -> bool {
    if usize::from(graph.layers()) != layers.len() {
        return false;
    }
    for layer in 0..graph.layers() {
        if !depends(alloc, graph, layer, layers[usize::from(layer)]) {
            return false;
        }
    }
    true
}

// The same, asked at once.
fn all_depend(alloc: Global, graph: &Graph, layers: &[bool]) -> bool {
    match graph.dependencies(alloc) {
        Ok(depend) => depend.as_slice() == layers,
        Err(_) => false,
    }
}

// Whether the graph is as is asked.
fn is_answered(alloc: Global, graph: &Graph, asked: &Asked) -> bool {
    match asked {
        Asked::Edges(rows) => has_edges(graph, rows),
        Asked::Renamed(names, rows) => is_renamed(alloc, graph, names, rows),
        Asked::Ways(rows) => are_ways(alloc, graph, rows),
        Asked::Reduced(nodes, layers) => {
            is_reduced_to(alloc, graph, *nodes)
                && each_depends(alloc, graph, layers)
                && all_depend(alloc, graph, layers)
        }
    }
}

// A graph by its table: how many labels it has, of each layer the choices and the nodes, and the edges; and what is
// asked of it.
struct Row {
    labels: u32,
    choices: &'static [u32],
    nodes: &'static [u32],
    edges: &'static [Option<u32>],
    asked: Asked,
}

fn is_row(alloc: Global, row: &Row) -> bool {
    match graph_of(alloc, row.labels, row.choices, row.nodes, row.edges) {
        Some(graph) => graph.labels() == row.labels && is_answered(alloc, &graph, &row.asked),
        None => false,
    }
}

// Whether each graph is as is asked.
fn are_rows(alloc: Global, rows: &[Row]) -> bool {
    for row in rows {
        if !is_row(alloc, row) {
            return false;
        }
    }
    true
}

// The start has two choices, and each of the two nodes after it two more: the label is the sum of the
// choices, and label 3 is never reached.
const SUM: &[Option<u32>] = &[Some(0), Some(1), Some(0), Some(1), Some(1), Some(2)];

const SUMS: &[Ways] = &[
    (&[(0, 0), (1, 0)], &[0]),
    (&[(0, 0), (1, 1)], &[1]),
    (&[(0, 1), (1, 0)], &[1]),
    (&[(0, 1), (1, 1)], &[2]),
    (&[(0, 0), (0, 1), (1, 0)], &[0, 1]),
    (&[(0, 0), (0, 1), (1, 0), (1, 1)], &[0, 1, 2]),
    (&[(0, 0), (0, 1)], &[]),
    (&[(1, 0), (1, 1)], &[]),
];

// Every list of choices ends at its sum. Where the names of the sums 0 and 2 change places, the inner edges stay.
const OF_SUM: &[Row] = &[
    Row {
        labels: 4,
        choices: &[2, 2],
        nodes: &[1, 2],
        edges: SUM,
        asked: Asked::Edges(&[(0, 0, &[1, 2]), (1, 1, &[0, 1]), (1, 2, &[1, 2])]),
    },
    Row {
        labels: 4,
        choices: &[2, 2],
        nodes: &[1, 2],
        edges: SUM,
        asked: Asked::Ways(SUMS),
    },
    Row {
        labels: 4,
        choices: &[2, 2],
        nodes: &[1, 2],
        edges: SUM,
        asked: Asked::Renamed(
            &[2, 1, 0, 3],
            &[(0, 0, &[1, 2]), (1, 1, &[2, 1]), (1, 2, &[1, 0])],
        ),
    },
];

#[test]
fn every_list_of_choices_ends_at_its_sum(rt: HostRuntime) {
    assert!(rt; are_rows(rt.alloc(), OF_SUM));
}

// No layers lead to label 0.
const OF_NOTHING: &[Row] = &[Row {
    labels: 2,
    choices: &[],
    nodes: &[],
    edges: &[],
    asked: Asked::Ways(&[(&[], &[0])]),
}];

#[test]
fn no_layers_lead_to_label_zero(rt: HostRuntime) {
    assert!(rt; are_rows(rt.alloc(), OF_NOTHING));
}

const ZERO: Option<u32> = Some(0);

const ONE: Option<u32> = Some(1);

// The sum; the start of no account; one choice in each layer; both choices alike in the end; no layers.
const REDUCED: &[Row] = &[
    Row {
        labels: 3,
        choices: &[2, 2],
        nodes: &[1, 2],
        edges: SUM,
        asked: Asked::Reduced(3, &[true, true]),
    },
    Row {
        labels: 3,
        choices: &[2, 2],
        nodes: &[1, 2],
        edges: &[ZERO, ONE, ONE, ZERO, ONE, ZERO],
        asked: Asked::Reduced(2, &[false, true]),
    },
    Row {
        labels: 3,
        choices: &[1, 1],
        nodes: &[1, 1],
        edges: &[ZERO, ONE],
        asked: Asked::Reduced(2, &[false, false]),
    },
    Row {
        labels: 3,
        choices: &[2, 2],
        nodes: &[1, 2],
        edges: &[ZERO, ZERO, ZERO, ZERO, ZERO, ONE],
        asked: Asked::Reduced(3, &[false, false]),
    },
    Row {
        labels: 3,
        choices: &[],
        nodes: &[],
        edges: &[],
        asked: Asked::Reduced(0, &[]),
    },
];

#[test]
fn reduces_and_tells_dependence(rt: HostRuntime) {
    assert!(rt; are_rows(rt.alloc(), REDUCED));
}

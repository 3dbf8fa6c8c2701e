//! The labels of a graph that allowed choices reach, and the paths that lead there.
ghost use Rattle.std.specs.Prelude.{◌<◌, IfOk};
ghost use Rattle.decision_graphs.specs.Reaching.{AreSetsOf};
ghost use Rattle.decision_graphs.specs.Marked.{AreMarksOf};

use crate::graph_edges::label_along;
use decision_graphs::{ChoiceSets, Graph, Marks};
use ilk_base::Memory;
use std::alloc::Global;
use test_graphs::allow_one;

// Sets that allow these choices, each with its layer.
fn sets_of(alloc: Global, graph: &Graph, allowed: &[(u16, u32)]) -> Result<ChoiceSets, Memory>
    ensures { IfOk result (AreSetsOf graph.now.layers) }
{
    let mut sets = ChoiceSets::new(alloc, graph)?;
    for (layer, choice) in allowed {
        allow_one(graph, *layer, *choice, &mut sets);
    }
    Ok(sets)
}

// Whether exactly these labels are marked.
fn are_marked(graph: &Graph, marks: &Marks, labels: &[u32]) -> bool
    requires { AreMarksOf graph.now marks.now }
{
    for label in 0..graph.labels() {
        if marks.marked(label) != labels.contains(&label) {
            return false;
        }
    }
    true
}

// Where the path that is noted for a label leads; None where the label is not marked.
fn noted_end(alloc: Global, graph: &Graph, marks: &Marks, label: u32) -> Option<u32>
    requires { AreMarksOf graph.now marks.now }
{
    if label >= graph.labels() || !marks.marked(label) {
        return None;
    }
    match marks.path_to(alloc, label) {
        Ok(path) => label_along(graph, &path),
        Err(_) => None,
    }
}

// Whether exactly for these labels the path that is noted leads there.
fn are_noted(alloc: Global, graph: &Graph, marks: &Marks, labels: &[u32]) -> bool
    requires { AreMarksOf graph.now marks.now }
{
    for label in 0..graph.labels() {
        let leads = noted_end(alloc, graph, marks, label) == Some(label);
        if leads != labels.contains(&label) {
            return false;
        }
    }
    true
}

// Whether exactly these labels are reached.
fn are_reached(alloc: Global, graph: &Graph, sets: &ChoiceSets, labels: &[u32]) -> bool
    requires { AreSetsOf graph.now.layers sets.now }
{
    let Ok(mut marks) = Marks::new(alloc, graph) else {
        return false;
    };
    graph.reach(sets, &mut marks);
    are_marked(graph, &marks, labels) && are_noted(alloc, graph, &marks, labels)
}

// Where the path to a label ends, if there is one.
fn path_end(
    alloc: Global,
    graph: &Graph,
    sets: &ChoiceSets,
    label: u32,
) -> Result<Option<u32>, Memory>
    requires sets { AreSetsOf graph.now.layers sets.now }
    requires label { label < graph.now.labels }
{
    let found = graph.path_to(alloc, sets, label)?;
    match found {
        Some(path) => Ok(label_along(graph, &path)),
        None => Ok(None),
    }
}

// Whether exactly to these labels `path_to` finds a path that ends there.
fn are_ends(alloc: Global, graph: &Graph, sets: &ChoiceSets, labels: &[u32]) -> bool
    requires { AreSetsOf graph.now.layers sets.now }
{
    for label in 0..graph.labels() {
        let ends = matches!(path_end(alloc, graph, sets, label), Ok(Some(end)) if end == label);
        if ends != labels.contains(&label) {
            return false;
        }
    }
    true
}

// Whether these choices lead to exactly these labels.
fn lead_to(alloc: Global, graph: &Graph, allowed: &[(u16, u32)], labels: &[u32]) -> bool {
    match sets_of(alloc, graph, allowed) {
        Ok(sets) => {
            are_reached(alloc, graph, &sets, labels) && are_ends(alloc, graph, &sets, labels)
        }
        Err(_) => false,
    }
}

// Choices, each with its layer, and the labels to which they lead.
pub(crate) type Ways = (&'static [(u16, u32)], &'static [u32]);

// Whether each row of choices leads as it says.
pub(crate) fn are_ways(alloc: Global, graph: &Graph, rows: &[Ways]) -> bool {
    for (allowed, labels) in rows {
        if !lead_to(alloc, graph, allowed, labels) {
            return false;
        }
    }
    true
}

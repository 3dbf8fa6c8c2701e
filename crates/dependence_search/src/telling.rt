//! Choices that lead to one label, and with the other choice in one layer to another.
ghost use Rattle.std.specs.Prelude.{◌≡◌, ◌≢◌, ◌↔◌, ℕ, suc, ◌<◌, [], ◌∷◌, ◌++◌, IsTrue, length, map, drop, option_map, slice_get, Some, IfOk, OnOk};
ghost use Rattle.decision_graphs.specs.Label.{AreReduced, layer_at, step};
ghost use Rattle.decision_graphs.specs.Reaching.{IsSet};
ghost use Rattle.graph_walks.specs.Walks.{HasTwos};
ghost use Rattle.dependence_search.specs.Released.{IsTurnChoice};
ghost use Rattle.dependence_search.specs.Parting.{AreParting, ArePartingBack, LeadApart, LeadToParting, PartsFrom};

use crate::parting::{next_place, parting_marks};
use decision_graphs::Graph;
use ilk_base::Memory;
use std::alloc::Global;

// A choice at a node that leads on to a marked one, if one of the two does.
fn choice_on(graph: &Graph, layer: u16, node: u32, after: &[bool]) -> u32
    requires twos { HasTwos (length graph.now.layers) graph.now }
    requires layer { suc layer < length graph.now.layers }
    requires node { node < length (layer_at graph.now.layers layer).rows }
    requires after { length after.now ≡ length (layer_at graph.now.layers (suc layer)).rows }
    ensures small { result < 2 }
    ensures on { (count : ℕ) → AreParting graph.now.layers (suc layer) count after.now
        → PartsFrom (drop layer graph.now.layers) (suc count) node
        → PartsFrom (drop (suc layer) graph.now.layers) count (step (layer_at graph.now.layers layer) node result) }
{
    let _fits = graph.labels();
    let first = next_place(graph, layer, node, 0);
    if after[first as usize] { 0 } else { 1 }
}

// The choices of the layers before this one that lead to a node of it at which its two choices lead to different places;
// and that node. The marks are those of this layer.
fn approach(
    alloc: Global,
    graph: &Graph,
    layer: u16,
    marks: &[Vec<bool>],
) -> Result<(Vec<u32>, u32), Memory>
    requires twos { HasTwos (length graph.now.layers) graph.now }
    requires layer { layer < length graph.now.layers }
    requires len { length marks.now ≡ suc layer }
    requires marks { ArePartingBack graph.now.layers layer (map (λ m. m.items) marks.now) }
    requires starts { PartsFrom graph.now.layers layer 0 }
    ensures { IfOk result (λ a. LeadToParting graph.now layer a.0.items a.1) }
{
    let _fits = graph.labels();
    let mut choices = Vec::new(alloc);
    let mut node = 0;
    for j in 0..layer {
        let after = &marks[usize::from(layer - 1 - j)];
        let choice = choice_on(graph, j, node, after);
        choices.push(choice)?;
        node = next_place(graph, j, node, choice);
    }
    Ok((choices, node))
}

// A choice that leads two nodes of a layer to different places.
fn choice_apart(graph: &Graph, layer: u16, one: u32, other: u32) -> u32
    requires twos { HasTwos (length graph.now.layers) graph.now }
    requires reduced { AreReduced graph.now.layers }
    requires layer { layer < length graph.now.layers }
    requires one { one < length (layer_at graph.now.layers layer).rows }
    requires other { other < length (layer_at graph.now.layers layer).rows }
    requires apart { one ≢ other }
    ensures small { result < 2 }
    ensures apart { step (layer_at graph.now.layers layer) one result ≢ step (layer_at graph.now.layers layer) other result }
{
    let _fits = graph.labels();
    let to_one = next_place(graph, layer, one, 0);
    let to_other = next_place(graph, layer, other, 0);
    if to_one != to_other { 0 } else { 1 }
}

// Adds a choice for each layer after this one, so that two places of the next lead to different labels.
fn lead_apart(
    graph: &Graph,
    layer: u16,
    choices: &mut Vec<u32>,
    first: u32,
    second: u32,
) -> Result<(), Memory>
    requires twos { HasTwos (length graph.now.layers) graph.now }
    requires reduced { AreReduced graph.now.layers }
    requires layer { layer < length graph.now.layers }
    requires before { LeadApart graph.now layer (suc layer) choices.old.items first second }
    ensures { OnOk result ((one : ℕ) × ((other : ℕ)
        × LeadApart graph.now layer (length graph.now.layers) choices.new.items one other)) }
{
    let _fits = graph.labels();
    let mut one = first;
    let mut other = second;
    let layers = graph.layers();
    for j in layer + 1..layers {
        let choice = choice_apart(graph, j, one, other);
        choices.push(choice)?;
        one = next_place(graph, j, one, choice);
        other = next_place(graph, j, other, choice);
    }
    Ok(())
}

// From choices to a node of this layer at which its two part, choices that lead to one label, and with the other choice in
// the layer to another.
fn labels_apart(graph: &Graph, layer: u16, choices: &mut Vec<u32>, node: u32) -> Result<(), Memory>
    requires twos { HasTwos (length graph.now.layers) graph.now }
    requires reduced { AreReduced graph.now.layers }
    requires layer { layer < length graph.now.layers }
    requires before { LeadToParting graph.now layer choices.old.items node }
    ensures { OnOk result (IsTurnChoice graph.now (length graph.now.layers) layer (Some choices.new.items)) }
{
    let _fits = graph.labels();
    choices.push(0)?;
    let one = next_place(graph, layer, node, 0);
    let other = next_place(graph, layer, node, 1);
    lead_apart(graph, layer, choices, one, other)?;
    Ok(())
}

// Whether a place is marked.
fn is_marked(marks: &[bool], place: usize) -> bool
    ensures { IsTrue result ↔ IsSet marks.now place }
{
    place < marks.len() && marks[place]
}

// Whether the start is marked, in the first layer.
fn starts_parting(graph: &Graph, layer: u16, marks: &[Vec<bool>]) -> bool
    requires layer { layer < length graph.now.layers }
    requires len { length marks.now ≡ suc layer }
    requires marks { ArePartingBack graph.now.layers layer (map (λ m. m.items) marks.now) }
    ensures { IsTrue result ↔ PartsFrom graph.now.layers layer 0 }
{
    let _fits = graph.labels();
    let start = &marks[usize::from(layer)];
    is_marked(start, 0)
}

// Choices that lead to one label, and with the other choice in this layer to another; none where no choices do. Time: the
// edges of the layers up to this one, and the layers.
pub(crate) fn turning_choices(
    alloc: Global,
    graph: &Graph,
    layer: u16,
) -> Result<Option<Vec<u32>>, Memory>
    requires twos { HasTwos (length graph.now.layers) graph.now }
    requires reduced { AreReduced graph.now.layers }
    requires layer { layer < length graph.now.layers }
    ensures { IfOk result (λ found. IsTurnChoice graph.now (length graph.now.layers) layer
        (option_map (λ v. v.items) found)) }
{
    let marks = parting_marks(alloc, graph, layer)?;
    if !starts_parting(graph, layer, &marks) {
        return Ok(None);
    }
    let (mut choices, node) = approach(alloc, graph, layer, &marks)?;
    labels_apart(graph, layer, &mut choices, node)?;
    Ok(Some(choices))
}

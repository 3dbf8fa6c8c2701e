//! Marking all that comes after a layer at once, by an edge to each of its places.
ghost use Rattle.std.specs.Prelude.{◌≡◌, ℕ, suc, ◌+◌, ◌*◌, ◌^◌, ◌<◌, ◌≤◌, ◌⊎◌, ◌↔◌, length, slice_index, slice_index_or};
ghost use Rattle.std.specs.Prelude.{IfSome, IsTrue};
ghost use Rattle.decision_graphs.specs.LaidOut.{lists_in, IsCut};
ghost use Rattle.decision_graphs.specs.Arriving.{Stays, arrival_at};
ghost use Rattle.decision_graphs.specs.Reaching.{IsSet};
ghost use Rattle.decision_graphs.specs.Shapes.{shape_at, size_of, edge_count, IsLaid};
ghost use Rattle.decision_graphs.specs.Ways.{AreWays, AllMarked, AllAllowed, IsOneOf, IsEdgeNote, WayNotes};
ghost use Rattle.decision_graphs.specs.Whole.{IsWhole};

use crate::arrival::Arrival;
use crate::layout::{Edges, Layout, list_at};
use crate::shape::Shape;

// How many nodes the layer after this one has, and after the last layer how many labels there are.
fn size_after(graph: &Layout<'_>, layer: usize) -> u32
    requires { layer < length graph.now.shapes.now }
    ensures { result ≡ size_of (lists_in graph.now) (suc layer) }
{
    match graph.shapes.get(layer + 1) {
        Some(shape) => shape.nodes,
        None => graph.labels,
    }
}

// For each place of what comes after a layer, in order, the place of an edge that leads there, as far as these are
// noted.
fn noted_at<'a>(graph: &Layout<'a>, layer: usize) -> Option<&'a [u32]>
    requires laid { IsLaid (lists_in graph.now) }
    requires cut { IsCut graph.now }
    requires layer { layer < length graph.now.shapes.now }
    ensures within { IfSome result (λ w. (t : ℕ) → t < length w.now
        → slice_index w.now t < edge_count (shape_at (lists_in graph.now) layer)) }
    ensures lead { IfSome result (λ w. (t : ℕ) → t < length w.now → slice_index_or (lists_in graph.now).edges
        ((shape_at (lists_in graph.now) layer).base + slice_index w.now t) 0 ≡ t) }
{
    match graph.edges {
        Edges::InOne(_) => None,
        Edges::ByLayer(layers) => Some(list_at(layers, layer).places()),
    }
}

// The same, where they are noted of all places.
fn all_noted<'a>(graph: &Layout<'a>, layer: usize) -> Option<&'a [u32]>
    requires whole { IsWhole (lists_in graph.now) }
    requires cut { IsCut graph.now }
    requires layer { layer < length graph.now.shapes.now }
    ensures ways { IfSome result
        (λ w. AreWays (shape_at (lists_in graph.now) layer) (lists_in graph.now).edges w.now) }
    ensures count { IfSome result (λ w. length w.now ≡ size_of (lists_in graph.now) (suc layer)) }
{
    match noted_at(graph, layer) {
        Some(ways) => {
            if ways.len() == size_after(graph, layer) as usize {
                Some(ways)
            } else {
                None
            }
        }
        None => None,
    }
}

// Whether so many marks from this one on are set.
fn all_set(marks: &[bool], from: usize, count: usize) -> bool
    requires { from + count ≤ length marks.now }
    ensures { IsTrue result → (k : ℕ) → k < count → IsSet marks.now (from + k) }
{
    for k in 0..count {
        if !marks[from + k] {
            return false;
        }
    }
    true
}

// An edge to each place of what comes after a layer, where such are noted and all nodes of the layer are marked.
pub(crate) fn ways_of<'a>(graph: &Layout<'a>, layer: usize, seen: &[bool]) -> Option<&'a [u32]>
    requires whole { IsWhole (lists_in graph.now) }
    requires cut { IsCut graph.now }
    requires layer { layer < length graph.now.shapes.now }
    requires nodes { (shape_at (lists_in graph.now) layer).first + (shape_at (lists_in graph.now) layer).nodes
        ≤ length seen.now }
    ensures ways { IfSome result
        (λ w. AreWays (shape_at (lists_in graph.now) layer) (lists_in graph.now).edges w.now) }
    ensures count { IfSome result (λ w. length w.now ≡ size_of (lists_in graph.now) (suc layer)) }
    ensures marked { IfSome result (λ w. AllMarked (shape_at (lists_in graph.now) layer) seen.now) }
{
    let shape = graph.shapes[layer];
    if all_set(seen, shape.first as usize, shape.nodes as usize) {
        all_noted(graph, layer)
    } else {
        None
    }
}

// The same, where all choices are allowed too.
pub(crate) fn allowed_ways<'a>(
    graph: &Layout<'a>,
    layer: usize,
    allowed: &[bool],
    seen: &[bool],
) -> Option<&'a [u32]>
    requires whole { IsWhole (lists_in graph.now) }
    requires cut { IsCut graph.now }
    requires layer { layer < length graph.now.shapes.now }
    requires nodes { (shape_at (lists_in graph.now) layer).first + (shape_at (lists_in graph.now) layer).nodes
        ≤ length seen.now }
    ensures ways { IfSome result
        (λ w. AreWays (shape_at (lists_in graph.now) layer) (lists_in graph.now).edges w.now) }
    ensures count { IfSome result (λ w. length w.now ≡ size_of (lists_in graph.now) (suc layer)) }
    ensures marked { IfSome result (λ w. AllMarked (shape_at (lists_in graph.now) layer) seen.now) }
    ensures allowed { IfSome result (λ w. AllAllowed (length allowed.now) allowed.now) }
{
    if all_set(allowed, 0, allowed.len()) {
        ways_of(graph, layer, seen)
    } else {
        None
    }
}

// The edge at a place among those of a layer.
fn edge_note(shape: Shape, edge: u32) -> Arrival
    requires edge { edge < edge_count shape }
    requires choices { 0 < shape.choices }
    requires few { shape.first + shape.nodes < 2 ^ 32 }
    ensures { IsEdgeNote shape edge result }
{
    let node = edge / shape.choices;
    let choice = edge % shape.choices;
    Arrival {
        node: shape.first + node,
        choice,
    }
}

// Marks a place, and notes by which edge of a layer it is reached where it was not marked before.
fn mark_way(shape: Shape, edge: u32, place: usize, seen: &mut [bool], arrivals: &mut [Arrival])
    requires edge { edge < edge_count shape }
    requires choices { 0 < shape.choices }
    requires few { shape.first + shape.nodes < 2 ^ 32 }
    requires place { place < length seen.old }
    requires room { length arrivals.old ≡ length seen.old }
    ensures marks { (i : ℕ) → IsSet seen.new i ↔ (IsSet seen.old i ⊎ (place ≡ i)) }
    ensures notes { (i : ℕ) → Stays seen.old seen.new arrivals.old arrivals.new i
        ⊎ ((place ≡ i) × IsEdgeNote shape edge (arrival_at arrivals.new i)) }
{
    if seen[place] {
        return;
    }
    seen[place] = true;
    arrivals[place] = edge_note(shape, edge);
}

// Marks the places to which these edges of a layer lead, from the next layer's first on, and notes for each by which
// of them it was first reached.
pub(crate) fn mark_ways(
    shape: Shape,
    ways: &[u32],
    next: usize,
    seen: &mut [bool],
    arrivals: &mut [Arrival],
)
    requires edges { (t : ℕ) → t < length ways.now → slice_index ways.now t < edge_count shape }
    requires choices { 0 < shape.choices }
    requires few { shape.first + shape.nodes < 2 ^ 32 }
    requires places { next + length ways.now ≤ length seen.old }
    requires room { length arrivals.old ≡ length seen.old }
    ensures marks { (i : ℕ) → IsSet seen.new i ↔ (IsSet seen.old i ⊎ IsOneOf (length ways.now) next i) }
    ensures notes { WayNotes (length ways.now) shape ways.now next seen.old seen.new arrivals.old arrivals.new }
{
    for (to, edge) in ways.iter().enumerate() {
        mark_way(shape, *edge, next + to, seen, arrivals);
    }
}

// Marks so many places from this one on.
pub(crate) fn mark_all(next: usize, count: usize, seen: &mut [bool])
    requires { next + count ≤ length seen.old }
    ensures { (i : ℕ) → IsSet seen.new i ↔ (IsSet seen.old i ⊎ IsOneOf count next i) }
{
    for to in 0..count {
        seen[next + to] = true;
    }
}

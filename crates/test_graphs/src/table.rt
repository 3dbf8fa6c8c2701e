//! Graphs from tables: for each layer how many choices and nodes it has, and the edges of all nodes
//! in order, each as a number within the next layer, or a label.
ghost use Rattle.std.specs.Prelude.{◌≡◌, ℕ, suc, ◌+◌, ◌^◌, ◌<◌, ◌≤◌, ◌++◌, ◌∷◌, [], List, length, slice_index, IsTrue};
ghost use Rattle.std.specs.Prelude.{IfOk, OnOk, if◌then◌else◌, ◌==◌};
ghost use Rattle.decision_graphs.specs.Drafting.{node_count, MayHaveEdge, IsShaped, IsBare, EachHasNode, choices_of};
ghost use Rattle.decision_graphs.specs.Drafting.{sizes_of};
ghost use Rattle.decision_graphs.specs.declared.limits.TheConstants.{GRAPH_NODES};
ghost use Rattle.test_graphs.specs.Sizes.{AreSizes};

use decision_graphs::{GraphBuilder, LAYERS};
use ilk_base::Memory;
use std::alloc::Global;

/// Whether a graph can have these sizes.
pub fn are_sizes(labels: u32, choices: &[u32], nodes: &[u32]) -> bool
    ensures { IsTrue result → AreSizes labels choices.now nodes.now }
{
    if labels == 0 || choices.len() != nodes.len() || nodes.len() > LAYERS {
        return false;
    }
    let mut total = 0u32;
    for (layer, count) in nodes.iter().enumerate() {
        if *count == 0 || choices[layer] == 0 || *count > u32::MAX - total {
            return false;
        }
        total += *count;
    }
    true
}

/// The layers and their nodes, with no edges.
pub fn bare(
    alloc: Global,
    labels: u32,
    choices: &[u32],
    nodes: &[u32],
) -> Result<GraphBuilder, Memory>
    requires { AreSizes labels choices.now nodes.now }
    ensures { IfOk result (λ b. IsShaped b labels choices.now nodes.now) }
{
    let mut builder = GraphBuilder::new(alloc, labels);
    for (layer, count) in nodes.iter().enumerate() {
        builder.layer(choices[layer])?;
        add_nodes(&mut builder, *count)?;
    }
    Ok(builder)
}

fn add_nodes(builder: &mut GraphBuilder, count: u32) -> Result<(), Memory>
    requires layer { 0 < length builder.old.layers }
    requires room { node_count builder.old + count ≤ GRAPH_NODES }
    ensures shaped { OnOk result ((labels : ℕ) (cs ns : List ℕ) → IsShaped builder.old labels cs (ns ++ 0 ∷ []) →
        IsShaped builder.new labels cs (ns ++ count ∷ [])) }
    ensures bare { OnOk result (IsBare builder.old → IsBare builder.new) }
{
    let mut made = 0;
    while made < count {
        builder.node()?;
        made += 1;
    }
    Ok(())
}

/// Writes the edges of the table, in the order of nodes and choices; None leaves an edge as it was.
pub fn fill(
    builder: &mut GraphBuilder,
    labels: u32,
    choices: &[u32],
    nodes: &[u32],
    edges: &[Option<u32>],
)
    requires sizes { AreSizes labels choices.now nodes.now }
    requires shaped { IsShaped builder.old labels choices.now nodes.now }
    ensures shaped { IsShaped builder.new labels choices.now nodes.now }
    ensures each { EachHasNode builder.new }
{
    let mut first = 0u32;
    let mut at = 0usize;
    for (layer, count) in nodes.iter().enumerate() {
        let (low, places) = places_after(labels, nodes, layer, first);
        let part = Part {
            first,
            count: *count,
            choices: choices[layer],
            low,
            places,
        };
        at = fill_layer(builder, part, edges, at);
        first += *count;
    }
}

// The number of the first place after a layer, and how many there are.
fn places_after(labels: u32, nodes: &[u32], layer: usize, first: u32) -> (u32, u32)
    requires layer { layer < length nodes.now }
    requires first { first + slice_index nodes.now layer ≤ GRAPH_NODES }
    ensures low { result.0 ≡ (if suc layer == length nodes.now then 0 else (first + slice_index nodes.now layer)) }
    ensures places { result.1 ≡ (if suc layer == length nodes.now then labels else slice_index nodes.now (suc layer)) }
{
    match nodes.get(layer + 1) {
        Some(next) => (first + nodes[layer], *next),
        None => (0, labels),
    }
}

// Where the nodes of a layer stand and where their edges may lead.
#[derive(Clone, Copy)]
struct Part {
    first: u32,
    count: u32,
    choices: u32,
    low: u32,
    places: u32,
}

fn fill_layer(builder: &mut GraphBuilder, part: Part, edges: &[Option<u32>], start: usize) -> usize
    requires places { 0 < part.places }
    requires fits { part.low + part.places < 2 ^ 32 }
    requires nodes { part.first + part.count ≤ GRAPH_NODES }
    requires edges { (k c t : ℕ) → k < part.count → c < part.choices → t < part.places →
        MayHaveEdge builder.old (part.first + k) c (part.low + t) }
    ensures { IsShaped builder.new builder.old.labels (choices_of builder.old) (sizes_of builder.old) }
{
    let mut at = start;
    for node in 0..part.count {
        fill_row(builder, part.first + node, part, edges, at);
        at = at.saturating_add(part.choices as usize);
    }
    at
}

fn fill_row(builder: &mut GraphBuilder, from: u32, part: Part, edges: &[Option<u32>], start: usize)
    requires places { 0 < part.places }
    requires fits { part.low + part.places < 2 ^ 32 }
    requires edges { (c t : ℕ) → c < part.choices → t < part.places → MayHaveEdge builder.old from c (part.low + t) }
    ensures { IsShaped builder.new builder.old.labels (choices_of builder.old) (sizes_of builder.old) }
{
    for choice in 0..part.choices {
        if let Some(Some(to)) = edges.get(start.saturating_add(choice as usize)) {
            builder.edge(from, choice, part.low + *to % part.places);
        }
    }
}

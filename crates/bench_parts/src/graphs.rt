//! A layered graph of a size that is given: built, its labels reached, and reduced.
ghost use Rattle.decision_graphs.specs.Drafting.{IsShaped};
ghost use Rattle.decision_graphs.specs.Reaching.{AreSetsOf};
ghost use Rattle.decision_graphs.specs.Marked.{AreMarksOf};
ghost use Rattle.test_graphs.specs.Sizes.{AreSizes};

use crate::graph_questions::{all_choices, marked_labels};
use anyhow::{Result, bail};
use decision_graphs::{ChoiceSets, Graph, GraphBuilder, Marks};
use std::alloc::Global;
use std::time::Instant;
use test_graphs::{are_sizes, bare, fill, node_total};

/// The sizes of the graph: all layers have the same.
#[derive(Clone, Copy)]
pub struct Sizes {
    pub layers: u32,
    pub choices: u32,
    pub nodes: u32,
    pub labels: u32,
}

// Edges that lead about evenly to all places.
fn mixed_edges(alloc: Global, sizes: Sizes) -> Result<Vec<Option<u32>>> {
    let mut edges = Vec::new(alloc);
    let mut state = 1u64;
    for _ in 0..sizes.layers as u64 * sizes.nodes as u64 {
        for _ in 0..sizes.choices {
            state = state
                .wrapping_mul(6364136223846793005)
                .wrapping_add(1442695040888963407);
            edges.push(Some((state >> 33) as u32))?;
        }
    }
    Ok(edges)
}

fn repeated(alloc: Global, count: u32, value: u32) -> Result<Vec<u32>> {
    let mut values = Vec::new(alloc);
    values.resize(count as usize, value)?;
    Ok(values)
}

// The graph of a builder that has its nodes.
fn finished(
    bare: GraphBuilder,
    labels: u32,
    choices: &[u32],
    nodes: &[u32],
    edges: &[Option<u32>],
) -> Result<Graph>
    requires sizes { AreSizes labels choices.now nodes.now }
    requires shaped { IsShaped bare labels choices.now nodes.now }
{
    let mut builder = bare;
    fill(&mut builder, labels, choices, nodes, edges);
    match builder.finish() {
        Ok(graph) => Ok(graph),
        Err(_) => bail!("an edge is missing"),
    }
}

fn build_of(
    alloc: Global,
    labels: u32,
    choices: &[u32],
    nodes: &[u32],
    edges: &[Option<u32>],
) -> Result<Graph> {
    if !are_sizes(labels, choices, nodes) {
        bail!("no graph has these sizes");
    }
    match bare(alloc, labels, choices, nodes) {
        Ok(bare) => finished(bare, labels, choices, nodes, edges),
        Err(_) => bail!("memory is wanted"),
    }
}

// The graph with these choices of its layers.
fn build_with(
    alloc: Global,
    sizes: Sizes,
    choices: &[u32],
    edges: &[Option<u32>],
) -> Result<Graph> {
    let nodes = repeated(alloc, sizes.layers, sizes.nodes)?;
    build_of(alloc, sizes.labels, choices, &nodes, edges)
}

fn build(alloc: Global, sizes: Sizes, edges: &[Option<u32>]) -> Result<Graph> {
    let choices = repeated(alloc, sizes.layers, sizes.choices)?;
    build_with(alloc, sizes, &choices, edges)
}

// Marks what is reached, and gives the microseconds.
fn time_reach(rt: &HostRuntime, graph: &Graph, sets: &ChoiceSets, marks: &mut Marks) -> Result<u128>
    requires sets { AreSetsOf graph.now.layers sets.now }
    requires marks { AreMarksOf graph.now marks.old }
    ensures { AreMarksOf graph.now marks.new }
{
    let start = Instant::now(rt)?;
    graph.reach(sets, marks);
    Ok(start.elapsed(rt)?.as_micros())
}

// Marks the labels that are reached, prints how many there are, and gives the microseconds.
fn measure_sets(rt: &HostRuntime, graph: &Graph, sets: &ChoiceSets) -> Result<u128>
    requires { AreSetsOf graph.now.layers sets.now }
{
    let mut marks = Marks::new(rt.alloc(), graph)?;
    let spent = time_reach(rt, graph, sets, &mut marks)?;
    println!(rt; "labels reached {}", marked_labels(graph, &marks))?;
    Ok(spent)
}

// The same, where every choice is allowed.
fn measure_reach(rt: &HostRuntime, graph: &Graph) -> Result<u128> {
    let sets = all_choices(rt.alloc(), graph)?;
    measure_sets(rt, graph, &sets)
}

// Reduces the graph, prints how many nodes are left, and gives the microseconds.
fn measure_reduce(rt: &HostRuntime, graph: &Graph) -> Result<u128> {
    let start = Instant::now(rt)?;
    let small = graph.reduce(rt.alloc())?;
    let spent = start.elapsed(rt)?.as_micros();
    println!(rt; "nodes after reduction {}", node_total(&small))?;
    Ok(spent)
}

// Measures the graph of so many edges, which was built in so many microseconds.
fn measure_graph(
    rt: &HostRuntime,
    graph: &Graph,
    edges: usize,
    built: u128,
    timed: bool,
) -> Result<()> {
    println!(rt; "nodes {}, edges {edges}", node_total(graph))?;
    let reached = measure_reach(rt, graph)?;
    let reduced = measure_reduce(rt, graph)?;
    if timed {
        println!(rt; "us to build {built}, to reach {reached}, to reduce {reduced}")?;
    }
    Ok(())
}

// Builds the graph of these edges, and measures it.
fn measure_edges(rt: &HostRuntime, sizes: Sizes, edges: &[Option<u32>], timed: bool) -> Result<()> {
    let start = Instant::now(rt)?;
    let graph = build(rt.alloc(), sizes, edges)?;
    let built = start.elapsed(rt)?.as_micros();
    measure_graph(rt, &graph, edges.len(), built, timed)
}

/// Builds the graph, marks its reached labels and reduces it, and prints the counts.
pub fn measure(rt: &HostRuntime, sizes: Sizes, timed: bool) -> Result<()> {
    let edges = mixed_edges(rt.alloc(), sizes)?;
    measure_edges(rt, sizes, &edges, timed)
}

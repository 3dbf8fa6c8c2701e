//! The edges of a walk, laid out so that many lists of choices are followed fast. What is found by them is a guess: the
//! rules themselves say what each position shows.
ghost use Rattle.std.specs.Prelude.{◌<◌, length};
ghost use Rattle.decision_graphs.specs.Label.{layer_at};

use change_search::answer;
use decision_graphs::Graph;
use graph_walks::{Codes, Walk};
use ilk_base::{Direction, Memory};
use std::alloc::Global;

// Which operations of a switch are released.
#[derive(Clone, Copy, PartialEq, Eq)]
pub(crate) struct Released {
    pub(crate) open: bool,
    pub(crate) close: bool,
}

// The edges of a walk.
#[derive(Drop)]
pub(crate) struct Paths {
    // how many layers there are
    layers: u16,
    // where the two choices lead from each node: to a node, or from the last layer to a label
    targets: Vec<u32>,
    // what each label says
    labels: Vec<Released>,
}

// The first node behind a layer; behind the last are the labels, which count from 0.
fn first_behind(graph: &Graph, layer: u16) -> u32 {
    let next = layer.saturating_add(1);
    if next < graph.layers() {
        let (first, _) = graph.nodes(next);
        first
    } else {
        0
    }
}

// Appends where the two choices lead from a node of a layer.
fn push_node(
    graph: &Graph,
    layer: u16,
    node: u32,
    behind: u32,
    targets: &mut Vec<u32>,
) -> Result<(), Memory>
    requires layer { layer < length graph.now.layers }
    requires node { node < length (layer_at graph.now.layers layer).rows }
    requires choices { 1 < (layer_at graph.now.layers layer).choices }
{
    let row = graph.row(layer, node);
    targets.push(behind.saturating_add(row[0]))?;
    targets.push(behind.saturating_add(row[1]))?;
    Ok(())
}

// Appends where the two choices lead from each node of a layer.
fn push_layer(graph: &Graph, layer: u16, targets: &mut Vec<u32>) -> Result<(), Memory>
    requires layer { layer < length graph.now.layers }
    requires choices { 1 < (layer_at graph.now.layers layer).choices }
{
    let (_, count) = graph.nodes(layer);
    let behind = first_behind(graph, layer);
    for node in 0..count {
        push_node(graph, layer, node, behind, targets)?;
    }
    Ok(())
}

// Where the two choices lead from each node.
fn targets(alloc: Global, graph: &Graph) -> Result<Vec<u32>, Memory> {
    let mut targets = Vec::new(alloc);
    for layer in 0..graph.layers() {
        if 1 < graph.choices(layer) {
            push_layer(graph, layer, &mut targets)?;
        }
    }
    Ok(targets)
}

// What the labels say.
fn told_by(codes: Codes) -> Released {
    Released {
        open: answer(Direction::ToOff, codes.first, codes.third).is_none(),
        close: answer(Direction::ToOn, codes.first, codes.third).is_none(),
    }
}

// What each label says.
fn all_released(alloc: Global, codes: &[Codes]) -> Result<Vec<Released>, Memory> {
    let mut labels = Vec::new(alloc);
    for t in 0..codes.len() {
        labels.push(told_by(codes[t]))?;
    }
    Ok(labels)
}

// The edges of a walk.
pub(crate) fn paths_of(alloc: Global, walk: &Walk) -> Result<Paths, Memory> {
    Ok(Paths {
        layers: walk.graph.layers(),
        targets: targets(alloc, &walk.graph)?,
        labels: all_released(alloc, &walk.codes)?,
    })
}

// The number at a place, 0 where there is none.
pub(crate) fn number_at(numbers: &[u32], place: usize) -> u32 {
    if place < numbers.len() {
        numbers[place]
    } else {
        0
    }
}

// Whether the switch of a layer is closed.
pub(crate) fn is_closed(closed: &[bool], layer: u16) -> bool {
    usize::from(layer) < closed.len() && closed[usize::from(layer)]
}

impl Paths {
    // How many layers there are.
    pub(crate) fn layers(&self) -> u16 {
        self.layers
    }

    // How many nodes there are.
    pub(crate) fn nodes(&self) -> usize {
        self.targets.len() / 2
    }

    // Where a node leads: to a node, or from the last layer to a label.
    pub(crate) fn next(&self, node: u32, closed: bool) -> u32 {
        number_at(&self.targets, 2 * (node as usize) + usize::from(closed))
    }

    // What a label says.
    pub(crate) fn told(&self, label: u32) -> Released {
        let label = label as usize;
        if label < self.labels.len() {
            self.labels[label]
        } else {
            Released {
                open: true,
                close: true,
            }
        }
    }
}

//! The edges of a graph, by layer, node and choice.
ghost use Rattle.std.specs.Prelude.{◌≡◌, length};

use decision_graphs::{ChoiceList, Graph};
use test_graphs::node_total;

// Where a choice leads from a node of a layer; None where there is no such node or choice.
fn step(graph: &Graph, layer: u16, node: u32, choice: u32) -> Option<u32> {
    if layer >= graph.layers() {
        return None;
    }
    let (first, count) = graph.nodes(layer);
    if node < first || node - first >= count || choice >= graph.choices(layer) {
        return None;
    }
    Some(graph.edge(node, choice))
}

// The label to which a list of choices leads.
pub(crate) fn label_along(graph: &Graph, path: &ChoiceList) -> Option<u32>
    requires { length path.now ≡ length graph.now.layers }
{
    let mut node = 0;
    for layer in 0..graph.layers() {
        node = step(graph, layer, node, path.choice(layer))?;
    }
    Some(node)
}

// Whether the row of a node leads there, behind the first node of the next layer if there is one.
fn has_row(graph: &Graph, layer: u16, node: u32, leads: &[u32]) -> bool {
    if layer >= graph.layers() {
        return false;
    }
    let (first, count) = graph.nodes(layer);
    if node < first || node - first >= count {
        return false;
    }
    let next = if layer + 1 < graph.layers() {
        graph.nodes(layer + 1).0
    } else {
        0
    };
    let row = graph.row(layer, node - first);
    if row.len() != leads.len() {
        return false;
    }
    for choice in 0..row.len() {
        if u64::from(next) + u64::from(row[choice]) != u64::from(leads[choice]) {
            return false;
        }
    }
    true
}

// A node, its layer, and where its choices lead.
pub(crate) type EdgeRow = (u16, u32, &'static [u32]);

// Whether the choices of a node lead there, and there are no others.
fn has_choices(graph: &Graph, layer: u16, node: u32, leads: &[u32]) -> bool {
    if layer >= graph.layers() || graph.choices(layer) as usize != leads.len() {
        return false;
    }
    for choice in 0..graph.choices(layer) {
        if step(graph, layer, node, choice) != Some(leads[choice as usize]) {
            return false;
        }
    }
    true
}

// Whether these are all nodes of the graph, and where each leads.
pub(crate) fn has_edges(graph: &Graph, rows: &[EdgeRow]) -> bool {
    for (layer, node, leads) in rows {
        if !has_choices(graph, *layer, *node, leads) {
            return false;
        }
        if !has_row(graph, *layer, *node, leads) {
            return false;
        }
    }
    node_total(graph) == rows.len() as u64
}

//! One layer of a product: from the pairs of its nodes to those of the next.
ghost use Rattle.std.specs.Prelude.{◌≡◌, ◌+◌, ◌*◌, ◌<◌, ◌≤◌, length, slice_index, IfOk, OnOk};
ghost use Rattle.decision_graphs.specs.Label.{LayerFits, layer_at};
ghost use Rattle.graph_products.specs.Products.{pair_of, RowsFit};
ghost use Rattle.graph_products.specs.Layering.{AreLed, AreEdges, AreStates};

use crate::pair::Pair;
use crate::pairs::PairSet;
use crate::row::Row;
use decision_graphs::Graph;
use ilk_base::Memory;
use std::alloc::Global;

// The edges of a layer, state by state, and the pairs to which they lead.
#[derive(Drop)]
pub(crate) struct NextLayer {
    pub(crate) next: Vec<Pair>,
    pub(crate) edges: Vec<u32>,
}

// The pair to which a row leads from a pair of nodes that have these edges.
fn target(ours: &[u32], theirs: &[u32], row: Row) -> Pair
    requires first { row.first < length ours.now }
    requires second { row.second < length theirs.now }
    ensures { result ≡ pair_of (slice_index ours.now row.first) (slice_index theirs.now row.second) }
{
    Pair {
        first: ours[row.first as usize],
        second: theirs[row.second as usize],
    }
}

// How many nodes the next layer has, or behind the last one how many labels there are.
fn nodes_behind(graph: &Graph, layer: u16) -> u32
    requires { layer < length graph.now.layers }
    ensures { LayerFits result (layer_at graph.now.layers layer) }
{
    let labels = graph.labels();
    let layers = graph.layers();
    if layer + 1 == layers {
        return labels;
    }
    let (_, nodes) = graph.nodes(layer + 1);
    nodes
}

// Adds the edges of a pair of nodes, one for each row; the pairs to which the rows lead are put at the end of the next
// layer where it has not got them.
fn add_edges(
    next: &mut PairSet,
    edges: &mut Vec<u32>,
    first: &Graph,
    second: &Graph,
    layer: u16,
    rows: &[Row],
    state: Pair,
) -> Result<(), Memory>
    requires first_layer { layer < length first.now.layers }
    requires second_layer { layer < length second.now.layers }
    requires rows { RowsFit (layer_at first.now.layers layer) (layer_at second.now.layers layer) rows.now }
    requires first_node { state.first < length (layer_at first.now.layers layer).rows }
    requires second_node { state.second < length (layer_at second.now.layers layer).rows }
    requires first_edges { LayerFits next.old.height (layer_at first.now.layers layer) }
    requires second_edges { LayerFits next.old.width (layer_at second.now.layers layer) }
    requires few { length next.old.keys + length rows.now ≤ 4294967295 }
    ensures height { next.new.height ≡ next.old.height }
    ensures width { next.new.width ≡ next.old.width }
    ensures led { OnOk result (AreLed (layer_at first.now.layers layer) (layer_at second.now.layers layer) state
        rows.now (length rows.now) next.old.keys edges.old.items next.new.keys edges.new.items) }
{
    let ours = first.row(layer, state.first);
    let theirs = second.row(layer, state.second);
    for c in 0..rows.len() {
        let row = rows[c];
        let pair = target(ours, theirs, row);
        let to = next.place(pair)?;
        edges.push(to as u32)?;
    }
    Ok(())
}

// From the pairs of a layer, by the rows of its step, to those of the next layer.
pub(crate) fn next_layer(
    alloc: Global,
    first: &Graph,
    second: &Graph,
    layer: u16,
    rows: &[Row],
    states: &[Pair],
) -> Result<NextLayer, Memory>
    requires first_layer { layer < length first.now.layers }
    requires second_layer { layer < length second.now.layers }
    requires rows { RowsFit (layer_at first.now.layers layer) (layer_at second.now.layers layer) rows.now }
    requires states { AreStates (length (layer_at first.now.layers layer).rows)
        (length (layer_at second.now.layers layer).rows) states.now }
    requires few { length states.now * length rows.now ≤ 4294967295 }
    ensures few { IfOk result (λ s. length s.next.items ≤ length states.now * length rows.now) }
    ensures edges { IfOk result (λ s. AreEdges (layer_at first.now.layers layer) (layer_at second.now.layers layer)
        states.now rows.now s.next.items s.edges.items (length states.now * length rows.now)) }
{
    let height = nodes_behind(first, layer);
    let width = nodes_behind(second, layer);
    let mut next = PairSet::new(alloc, height, width, states.len(), rows.len())?;
    let mut edges = Vec::with_capacity(alloc, states.len() * rows.len())?;
    'states: for k in 0..states.len() {
        let state = states[k];
        add_edges(&mut next, &mut edges, first, second, layer, rows, state)?;
    }
    let next = next.into_list(alloc)?;
    Ok(NextLayer { next, edges })
}

//! Layered graphs: what they are, and what is made of them.
ghost use Rattle.std.specs.Prelude.{◌≡◌, ℕ, ◌+◌, ◌<◌, ◌≤◌, ◌↔◌, length, sum_by, List, map, slice_index, slice_index_or};
ghost use Rattle.std.specs.Prelude.{true, false, IfOk, MatchOption, IsTrue};
ghost use Rattle.decision_graphs.specs.Label.{DependsOn, layer_at, first_at, HasEdge, IsNode, Reaches};
ghost use Rattle.decision_graphs.specs.Label.{AreChoices, AreReduced, AreLayers, Layer, label_of, place_after, step};
ghost use Rattle.decision_graphs.specs.Reaching.{AreSetsOf, MarksReached, IsPathTo, node_total, IsSet};
ghost use Rattle.decision_graphs.specs.Marked.{AreMarksOf, PathsLead};
ghost use Rattle.decision_graphs.specs.Arriving.{AreWithin, traced};
ghost use Rattle.decision_graphs.specs.Finished.{AreFinished, finished};
ghost use Rattle.decision_graphs.specs.Inside.{IsGraph, IsSharedGraph};
ghost use Rattle.decision_graphs.specs.LaidOut.{lists_in, lists_of, lists_shared, IsCut};
ghost use Rattle.decision_graphs.specs.Shapes.{AreHomes};
ghost use Rattle.decision_graphs.specs.Whole.{layered_of, IsWhole};
ghost use Rattle.decision_graphs.specs.declared.limits.TheConstants.{LAYERS, GRAPH_NODES};

use crate::arrival::Arrival;
use crate::depend::{label_depends_on, layers_depended};
use crate::find::edge_at;
use crate::finished::{FinishedLayer, joined};
use crate::folds::Folds;
use crate::layout::{GraphParts, Layout, SharedParts, copied, row_of};
use crate::reach::mark_labels;
use crate::rename::renamed;
use crate::same::same_lists;
use ilk_base::Memory;
use std::alloc::Global;
use std::marker::Model;

/// Layers of nodes: for each node and each choice of its layer one node of the next layer, and a label
/// for each edge of the last layer. Nodes are numbered from 0 over the whole graph, layer by layer, and
/// labels from 0. A graph without layers leads to label 0. A `GraphBuilder` makes one.
///
/// Contracts see it as its layers, where an edge is a number within the next layer.
#[derive(Drop)]
pub struct Graph {
    held: Held,
}

// The lists of a graph: of one that was made edge by edge, or of one that has its layers in common with others.
#[derive(Drop)]
pub(crate) enum Held {
    Joined(GraphParts),
    Shared(SharedParts),
}

impl Model for Graph {
    ghost use Rattle.decision_graphs.specs.Label.{Layered};

    ghost Value = { Layered };

    ghost use Rattle.decision_graphs.specs.LaidOut.{lists_held};
    ghost use Rattle.decision_graphs.specs.Whole.{layered_of};
    ghost use Rattle.decision_graphs.specs.Inside.{IsHeld};

    ghost view = { λ g. layered_of (lists_held g.held) };

    ghost invariant = { λ g. IsHeld g.held };
}

impl Graph {
    /// How many labels there are, at least 1. Every layer has a choice and a node, and each of its edges
    /// leads to a node of the next layer or to a label. Constant time.
    pub fn labels(&self) -> u32
        ensures count { result ≡ self.now.labels }
        ensures layered { AreLayers self.now.labels self.now.layers }
    {
        self.layout().labels
    }

    /// How many layers there are, and that they have at most `GRAPH_NODES` nodes. Constant time.
    pub fn layers(&self) -> u16
        ensures count { result ≡ length self.now.layers }
        ensures few_nodes { node_total self.now ≤ GRAPH_NODES }
    {
        self.layout().shapes.len() as u16
    }

    /// How many choices each node of a layer has. Constant time.
    pub fn choices(&self, layer: u16) -> u32
        requires { layer < length self.now.layers }
        ensures { result ≡ (layer_at self.now.layers layer).choices }
    {
        self.layout().shapes[layer as usize].choices
    }

    /// The number of a layer's first node, and how many nodes it has. Constant time.
    pub fn nodes(&self, layer: u16) -> (u32, u32)
        requires { layer < length self.now.layers }
        ensures first { result.0 ≡ first_at self.now.layers layer }
        ensures count { result.1 ≡ length (layer_at self.now.layers layer).rows }
    {
        let shape = self.layout().shapes[layer as usize];
        (shape.first, shape.nodes)
    }

    /// Where a choice at a node leads: to a node of the next layer, or from the last layer to a label.
    /// Constant time.
    pub fn edge(&self, from: u32, choice: u32) -> u32
        requires { HasEdge self.now from choice }
        ensures { (j k : ℕ) → IsNode self.now j k from
            → result ≡ place_after self.now j (step (layer_at self.now.layers j) k choice) }
    {
        edge_at(&self.layout(), from, choice)
    }

    /// The edges of node k of a layer, by choice: each is the number of a node within the next layer, or from the last layer
    /// a label. Constant time.
    pub fn row(&self, layer: u16, node: u32) -> &[u32]
        requires layer { layer < length self.now.layers }
        requires node { node < length (layer_at self.now.layers layer).rows }
        ensures len { length result.now ≡ (layer_at self.now.layers layer).choices }
        ensures each { (c : ℕ) → c < (layer_at self.now.layers layer).choices
            → slice_index result.now c ≡ step (layer_at self.now.layers layer) node c }
    {
        row_of(&self.layout(), layer as usize, node as usize)
    }

    /// The graph of finished layers, for a caller that knows how many labels there are only once the last
    /// layer is done. Without layers it leads to label 0. It has their edges in common with them. Linear in
    /// nodes and layers; takes 2 bytes for each node and 40 for each layer.
    pub fn from_layers(
        alloc: Global,
        labels: u32,
        layers: &[FinishedLayer],
    ) -> Result<Graph, Memory>
        requires finished { AreFinished labels layers.now }
        requires few_layers { length layers.now ≤ LAYERS }
        requires few_nodes { sum_by (λ (l : FinishedLayer). l.nodes) layers.now ≤ GRAPH_NODES }
        ensures { IfOk result (λ g. g ≡ record { labels = labels; layers = map finished layers.now }) }
    {
        let parts = joined(alloc, labels, layers)?;
        Ok(Graph::from_shared(parts))
    }

    // The graph of these parts.
    pub(crate) fn from_parts(parts: GraphParts) -> Graph
        requires { IsGraph parts }
        ensures { result ≡ layered_of (lists_of parts) }
    {
        Graph {
            held: Held::Joined(parts),
        }
    }

    // The graph of these shared parts.
    fn from_shared(parts: SharedParts) -> Graph
        requires { IsSharedGraph parts }
        ensures { result ≡ layered_of (lists_shared parts) }
    {
        Graph {
            held: Held::Shared(parts),
        }
    }

    /// A copy of the graph, which has its edges in common with it. Linear in nodes and layers, as is the memory that it
    /// takes; linear in edges for a graph that a `GraphBuilder` made.
    pub fn copy(&self, alloc: Global) -> Result<Graph, Memory>
        ensures { IfOk result (λ g. g ≡ self.now) }
    {
        let parts = copied(alloc, &self.layout())?;
        Ok(Graph::from_shared(parts))
    }

    /// Whether both graphs are the same, layer by layer and edge by edge. Linear in edges; takes no memory.
    pub fn same(&self, other: &Graph) -> bool
        ensures { result ≡ true → self.now ≡ other.now }
    {
        let theirs = other.layout();
        same_lists(&self.layout(), &theirs)
    }

    // How many nodes the graph has.
    pub(crate) fn node_total(&self) -> u32
        ensures { result ≡ node_total self.now }
    {
        self.layout().homes.len() as u32
    }

    // The lists in which the graph lies.
    pub(crate) fn layout(&self) -> Layout<'_>
        ensures layered { layered_of (lists_in result) ≡ self.now }
        ensures whole { IsWhole (lists_in result) }
        ensures homes { AreHomes (lists_in result) result.homes.now }
        ensures cut { IsCut result }
    {
        match &self.held {
            Held::Joined(parts) => parts.layout(),
            Held::Shared(parts) => parts.layout(),
        }
    }

    // Marks the nodes that are reached, and behind them the labels, and notes by which edges.
    pub(crate) fn mark(&self, sets: &[Vec<bool>], seen: &mut [bool], arrivals: &mut [Arrival])
        requires sets { AreSetsOf self.now.layers (map (λ v. v.items) sets.now) }
        requires places { length seen.old ≡ node_total self.now + self.now.labels }
        requires room { length arrivals.old ≡ length seen.old }
        requires within { AreWithin (length seen.old) arrivals.old }
        ensures marks { (goal : ℕ) → goal < self.now.labels
            → IsSet seen.new (node_total self.now + goal) ↔ Reaches self.now (map (λ v. v.items) sets.now) goal }
        ensures paths { (goal : ℕ) → goal < self.now.labels → IsSet seen.new (node_total self.now + goal)
            → IsPathTo self.now (map (λ v. v.items) sets.now) goal
            (traced arrivals.new (length self.now.layers) (node_total self.now + goal)) }
        ensures within { AreWithin (length seen.new) arrivals.new }
    {
        mark_labels(&self.layout(), sets, seen, arrivals);
    }

    /// The graph in which nodes of equal edges are one: each list of choices leads to the label it led to,
    /// no two nodes of one layer have equal edges, and no layer has more nodes than before. Nodes that no
    /// list of choices reaches stay. Linear in edges but for hashing; takes about 16 bytes for each edge and
    /// 100 for each node while it runs.
    pub fn reduce(&self, alloc: Global) -> Result<Graph, Memory>
        ensures labels { IfOk result (λ g. g.labels ≡ self.now.labels) }
        ensures choices { IfOk result (λ g. map (λ (l : Layer). l.choices) g.layers ≡ map (λ (l : Layer). l.choices)
            self.now.layers) }
        ensures label { IfOk result (λ g. (cs : List ℕ) → AreChoices self.now.layers cs →
            label_of g cs ≡ label_of self.now cs) }
        ensures reduced { IfOk result (λ g. AreReduced g.layers) }
        ensures sizes { IfOk result (λ g. (j : ℕ) → length (layer_at g.layers j).rows ≤ length
            (layer_at self.now.layers j).rows) }
    {
        let mut folds = Folds::none(alloc);
        self.reduce_by(alloc, &mut folds)
    }

    /// The same, where layers that were folded in a graph before are not folded again. Linear in edges; hashes the
    /// rows of new layers only.
    pub fn reduce_by(&self, alloc: Global, folds: &mut Folds) -> Result<Graph, Memory>
        ensures labels { IfOk result (λ g. g.labels ≡ self.now.labels) }
        ensures choices { IfOk result (λ g. map (λ (l : Layer). l.choices) g.layers ≡ map (λ (l : Layer). l.choices)
            self.now.layers) }
        ensures label { IfOk result (λ g. (cs : List ℕ) → AreChoices self.now.layers cs →
            label_of g cs ≡ label_of self.now cs) }
        ensures reduced { IfOk result (λ g. AreReduced g.layers) }
        ensures sizes { IfOk result (λ g. (j : ℕ) → length (layer_at g.layers j).rows ≤ length
            (layer_at self.now.layers j).rows) }
    {
        let parts = folds.reduced(alloc, &self.layout())?;
        Ok(Graph::from_shared(parts))
    }

    /// The graph with so many labels in which each label is replaced by its name, `names[label]`. A graph
    /// without layers has nothing to replace. The layers before the last have their edges in common with this
    /// graph. Linear in nodes, layers and the edges of the last layer; takes 4 bytes for each of these edges, 2 for
    /// each node and 40 for each layer.
    pub fn rename(&self, alloc: Global, labels: u32, names: &[u32]) -> Result<Graph, Memory>
        requires some { 0 < labels }
        requires count { length names.now ≡ self.now.labels }
        requires within { (x : ℕ) → x < self.now.labels → slice_index names.now x < labels }
        ensures labels { IfOk result (λ g. g.labels ≡ labels) }
        ensures choices { IfOk result (λ g. map (λ (l : Layer). l.choices) g.layers ≡ map (λ (l : Layer). l.choices)
            self.now.layers) }
        ensures label { IfOk result (λ g. 0 < length self.now.layers → (cs : List ℕ) → AreChoices self.now.layers cs
            → label_of g cs ≡ slice_index names.now (label_of self.now cs)) }
        ensures sizes { IfOk result (λ g. (j : ℕ) → length (layer_at g.layers j).rows ≡ length
            (layer_at self.now.layers j).rows) }
    {
        let parts = renamed(alloc, &self.layout(), labels, names)?;
        Ok(Graph::from_shared(parts))
    }

    /// Whether the choice in a layer makes a difference: exactly where two lists of choices that differ in
    /// that layer alone lead to different labels. It reduces a copy, in the time and memory of `reduce`.
    pub fn depends_on(&self, alloc: Global, layer: u16) -> Result<bool, Memory>
        requires { layer < length self.now.layers }
        ensures { IfOk result (λ b. IsTrue b ↔ DependsOn self.now layer) }
    {
        let reduced = self.reduce(alloc)?;
        let depends = label_depends_on(alloc, &reduced.layout(), layer as usize)?;
        Ok(depends)
    }

    /// For each layer whether the choice in it makes a difference, as `depends_on` says of one. It reduces one
    /// copy and goes over it once.
    pub fn dependencies(&self, alloc: Global) -> Result<Vec<bool>, Memory>
        ensures count { IfOk result (λ v. length v.items ≡ length self.now.layers) }
        ensures exact { IfOk result (λ v. (j : ℕ) → j < length self.now.layers
            → (slice_index_or v.items j false ≡ true) ↔ DependsOn self.now j) }
    {
        let mut folds = Folds::none(alloc);
        self.dependencies_by(alloc, &mut folds)
    }

    /// The same, where layers that were folded in a graph before are not folded again.
    pub fn dependencies_by(&self, alloc: Global, folds: &mut Folds) -> Result<Vec<bool>, Memory>
        ensures count { IfOk result (λ v. length v.items ≡ length self.now.layers) }
        ensures exact { IfOk result (λ v. (j : ℕ) → j < length self.now.layers
            → (slice_index_or v.items j false ≡ true) ↔ DependsOn self.now j) }
    {
        let reduced = self.reduce_by(alloc, folds)?;
        let depended = reduced.reduced_dependencies(alloc)?;
        Ok(depended)
    }

    /// The same of a graph that is reduced. Linear in edges, with a byte for each node and label.
    pub fn reduced_dependencies(&self, alloc: Global) -> Result<Vec<bool>, Memory>
        requires { AreReduced self.now.layers }
        ensures count { IfOk result (λ v. length v.items ≡ length self.now.layers) }
        ensures exact { IfOk result (λ v. (j : ℕ) → j < length self.now.layers
            → (slice_index_or v.items j false ≡ true) ↔ DependsOn self.now j) }
    {
        layers_depended(alloc, &self.layout())
    }
}

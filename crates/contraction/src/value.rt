//! The value of a contraction, and its answers.
ghost use Rattle.std.specs.Prelude.{◌≡◌, ◌↔◌, ℕ, Bool, List, IsTrue, Contains};
ghost use Rattle.station_graph.specs.Diagram.{Diagram};
ghost use Rattle.station_graph.specs.Connection.{Item};
ghost use Rattle.station_graph.specs.Views.{SupplyBy};
ghost use Rattle.contraction.specs.Answers.{IsContraction, Keeps, SaysCoupled, SaysJoined, SaysBonded, SaysEnergisable};
ghost use Rattle.contraction.specs.Answers.{SaysEarthable, SaysFed, SaysLoaded, SaysSupply, supply_of};
ghost use Rattle.contraction.specs.Stands.{Among, LoadStandsFor};

use crate::kept_nodes::KeptNodes;
use crate::places::{is_marked, same_label};
use crate::shared_row::{SharedLabels, SharedRow};
use crate::supply::Supply;
use ilk_base::NodeId;
use station_graph::NodeList;
use std::marker::Model;

/// The contraction of some items in a position of their switches, on a rising list of kept nodes: what
/// these items alone couple, join, bond and supply there. It is seen as its answers. Its gap view says
/// what is coupled, energisable and earthable; its load view says what is joined, bonded and supplied.
/// For which items and positions a value stands is said by the calls that make it.
#[derive(Drop)]
pub struct Contraction {
    pub(crate) kept: KeptNodes,
    pub(crate) gap: SharedRow,
    pub(crate) load: SharedRow,
    pub(crate) bonded: SharedLabels,
}

impl Model for Contraction {
    ghost use Rattle.contraction.specs.Answers.{Answers, IsContraction};

    ghost Value = { Answers };

    ghost use Rattle.contraction.specs.Inside.{answers_of};

    ghost view = { answers_of };

    ghost invariant = { λ c. IsContraction (answers_of c) };
}

impl Contraction {
    /// Whether a node is kept. Time: the kept nodes.
    pub fn keeps(&self, node: NodeId) -> bool
        ensures kept { IsTrue result ↔ Keeps self.now.kept node.0 }
        ensures answers { IsContraction self.now }
    {
        self.kept.nodes().contains(&node.0)
    }

    /// Whether all these nodes are kept. Time: the kept nodes times the nodes.
    pub fn keeps_all(&self, nodes: &NodeList) -> bool
        ensures { IsTrue result ↔ ((n : ℕ) → Contains nodes.now n → Keeps self.now.kept n) }
    {
        for i in 0..nodes.len() {
            if !self.keeps(nodes.get(i)) {
                return false;
            }
        }
        true
    }

    /// Whether the items join two kept nodes. Time: the kept nodes, as for each of these answers.
    pub fn joined(&self, a: NodeId, b: NodeId) -> bool
        requires first { Keeps self.now.kept a.0 }
        requires second { Keeps self.now.kept b.0 }
        ensures { IsTrue result ↔ SaysJoined self.now a.0 b.0 }
    {
        same_label(
            self.kept.nodes(),
            self.load.row().labels.numbers(),
            a.0,
            b.0,
        )
    }

    /// Whether the items join two kept nodes without those links that are no bonds.
    pub fn bonded(&self, a: NodeId, b: NodeId) -> bool
        requires first { Keeps self.now.kept a.0 }
        requires second { Keeps self.now.kept b.0 }
        ensures { IsTrue result ↔ SaysBonded self.now a.0 b.0 }
    {
        same_label(self.kept.nodes(), self.bonded.numbers(), a.0, b.0)
    }

    /// Whether the items join two kept nodes where each breaker counts as closed.
    pub fn coupled(&self, a: NodeId, b: NodeId) -> bool
        requires first { Keeps self.now.kept a.0 }
        requires second { Keeps self.now.kept b.0 }
        ensures { IsTrue result ↔ SaysCoupled self.now a.0 b.0 }
    {
        same_label(self.kept.nodes(), self.gap.row().labels.numbers(), a.0, b.0)
    }

    /// Whether the items couple a kept node to a closed infeed among them.
    pub fn energisable(&self, a: NodeId) -> bool
        requires { Keeps self.now.kept a.0 }
        ensures { IsTrue result ↔ SaysEnergisable self.now a.0 }
    {
        is_marked(self.kept.nodes(), &self.gap.row().first, a.0)
    }

    /// Whether the items couple a kept node to a closed earthing switch among them.
    pub fn earthable(&self, a: NodeId) -> bool
        requires { Keeps self.now.kept a.0 }
        ensures { IsTrue result ↔ SaysEarthable self.now a.0 }
    {
        is_marked(self.kept.nodes(), &self.gap.row().second, a.0)
    }

    /// How the items supply a kept node.
    pub fn supply(&self, a: NodeId) -> Supply
        requires { Keeps self.now.kept a.0 }
        ensures says { SaysSupply self.now a.0 (supply_of result) }
        ensures stands { (items : List Item) (d : Diagram) (v : List Bool)
            → LoadStandsFor (Among items) d v self.now
            → SupplyBy (Among items) d v a.0 (supply_of result) }
    {
        if self.is_fed(a) {
            return Supply::Fed;
        }
        if self.is_loaded(a) {
            Supply::Tapped
        } else {
            Supply::Bare
        }
    }

    // Whether the items join a kept node to a closed infeed.
    pub(crate) fn is_fed(&self, a: NodeId) -> bool
        requires { Keeps self.now.kept a.0 }
        ensures { IsTrue result ↔ SaysFed self.now a.0 }
    {
        is_marked(self.kept.nodes(), &self.load.row().first, a.0)
    }

    // Whether the items join a kept node to a closed infeed or to a tap.
    pub(crate) fn is_loaded(&self, a: NodeId) -> bool
        requires { Keeps self.now.kept a.0 }
        ensures { IsTrue result ↔ SaysLoaded self.now a.0 }
    {
        is_marked(self.kept.nodes(), &self.load.row().second, a.0)
    }
}

//! Values on other nodes.
ghost use Rattle.std.specs.Prelude.{◌≡◌, ◌↔◌, length, IfOk, IsTrue};
ghost use Rattle.contraction.specs.Answers.{AreNodes, IsContraction};
ghost use Rattle.contraction.specs.Renaming.{renamed, SameRow};

use crate::kept_nodes::{KeptNodes, kept_nodes_on};
use crate::numbers::same_numbers;
use crate::row::Row;
use crate::value::Contraction;
use ilk_base::Memory;
use station_graph::NodeList;
use std::alloc::Global;

// Whether the marks are the same.
fn same_marks(a: &[bool], b: &[bool]) -> bool
    ensures { IsTrue result ↔ (a.now ≡ b.now) }
{
    a == b
}

impl Row {
    // Whether both rows are the same.
    fn is_as(&self, other: &Row) -> bool
        ensures { IsTrue result ↔ SameRow self.now other.now }
    {
        let labels = same_numbers(self.labels.numbers(), other.labels.numbers());
        let first = same_marks(&self.first, &other.first);
        let second = same_marks(&self.second, &other.second);
        labels && first && second
    }
}

impl Contraction {
    /// The kept nodes, rising. At once; takes no memory.
    pub fn nodes(&self) -> &[u16]
        ensures nodes { result.now ≡ self.now.kept }
        ensures answers { IsContraction self.now }
    {
        self.kept.nodes()
    }

    /// Whether these are the kept nodes, in their order. Time: the nodes. Takes no memory.
    pub fn keeps_just(&self, nodes: &[u16]) -> bool
        ensures { IsTrue result ↔ (self.now.kept ≡ nodes.now) }
    {
        same_numbers(self.kept.nodes(), nodes)
    }

    // The same answers on the nodes of this list.
    fn on_kept(&self, kept: KeptNodes) -> Result<Contraction, Memory>
        requires nodes { AreNodes kept }
        requires count { length kept ≡ length self.now.kept }
        ensures renamed { IfOk result (λ c. c ≡ renamed kept self.now) }
        ensures contraction { IfOk result IsContraction }
    {
        Ok(Contraction {
            kept,
            gap: self.gap.share()?,
            load: self.load.share()?,
            bonded: self.bonded.share()?,
        })
    }

    /// The same answers on other nodes, which rise and are as many as the kept ones: the first of them in the
    /// place of the first kept node, and so on. So values of like items on other nodes need not be composed
    /// anew. Time and memory: the nodes.
    pub fn on_nodes(&self, alloc: Global, nodes: &[u16]) -> Result<Contraction, Memory>
        requires nodes { AreNodes nodes.now }
        requires count { length nodes.now ≡ length self.now.kept }
        ensures renamed { IfOk result (λ c. c ≡ renamed nodes.now self.now) }
        ensures contraction { IfOk result IsContraction }
    {
        let kept = KeptNodes::of(alloc, nodes)?;
        self.on_kept(kept)
    }

    /// What `on_nodes` gives, for many values on the same nodes: they hold the list at hand where it is that of these
    /// nodes, and else a new one, which is at hand afterwards. Time: the nodes. Memory: those of a new list.
    pub fn on_held_nodes(
        &self,
        alloc: Global,
        nodes: &[u16],
        held: &mut Option<KeptNodes>,
    ) -> Result<Contraction, Memory>
        requires nodes { AreNodes nodes.now }
        requires count { length nodes.now ≡ length self.now.kept }
        ensures renamed { IfOk result (λ c. c ≡ renamed nodes.now self.now) }
        ensures contraction { IfOk result IsContraction }
    {
        let kept = kept_nodes_on(alloc, held, nodes)?;
        self.on_kept(kept)
    }

    /// What `on_nodes` gives on the nodes of a list.
    pub fn renamed(&self, alloc: Global, nodes: &NodeList) -> Result<Contraction, Memory>
        requires nodes { AreNodes nodes.now }
        requires count { length nodes.now ≡ length self.now.kept }
        ensures renamed { IfOk result (λ c. c ≡ renamed nodes.now self.now) }
        ensures contraction { IfOk result IsContraction }
    {
        self.on_nodes(alloc, nodes.numbers())
    }

    /// Whether both answer the same, place by place, whatever nodes they keep. Time: the kept nodes. Takes no
    /// memory.
    pub fn answers_as(&self, other: &Contraction) -> bool
        ensures { IsTrue result ↔ (self.now ≡ renamed self.now.kept other.now) }
    {
        let gap = self.gap.row().is_as(other.gap.row());
        let load = self.load.row().is_as(other.load.row());
        let bonded = same_numbers(self.bonded.numbers(), other.bonded.numbers());
        gap && load && bonded
    }
}

//! Some of the nodes of two contractions together, for each pair of contractions that keep these.
ghost use Rattle.std.specs.Prelude.{◌≡◌, ◌↔◌, IfOk, IsTrue};
ghost use Rattle.contraction.specs.Answers.{AreNodes};
ghost use Rattle.contraction.specs.Selecting.{ArePlaced};

use crate::layout::Layout;
use crate::numbers::same_numbers;
use ilk_base::Memory;
use station_graph::NodeList;
use std::alloc::Global;
use std::marker::Model;

/// The kept nodes of two contractions merged, and those of them that are asked for. Many pairs of contractions keep
/// the same nodes: `compose_gap_on` and `compose_load_on` take one selection for all of them.
#[derive(Drop)]
pub struct Selection {
    first: Vec<u16>,
    second: Vec<u16>,
    nodes: Vec<u16>,
    pub(crate) layout: Layout,
}

impl Model for Selection {
    ghost use Rattle.contraction.specs.Selecting.{Selected};

    ghost Value = { Selected };

    ghost use Rattle.contraction.specs.Inside.{selected_of, IsLaid};

    ghost view = { selected_of };

    ghost invariant = { IsLaid };
}

impl Selection {
    /// Those of the nodes that either list has, for contractions that keep these lists. Time: the kept nodes times the
    /// nodes. Memory: the nodes of all three lists.
    pub fn of(
        alloc: Global,
        first: &[u16],
        second: &[u16],
        nodes: &NodeList,
    ) -> Result<Selection, Memory>
        requires first { AreNodes first.now }
        requires second { AreNodes second.now }
        ensures first { IfOk result (λ s. s.first ≡ first.now) }
        ensures second { IfOk result (λ s. s.second ≡ second.now) }
        ensures nodes { IfOk result (λ s. s.nodes ≡ nodes.now) }
    {
        let layout = Layout::of(alloc, first, second, nodes)?;
        Ok(Selection {
            first: Vec::from_slice(alloc, first)?,
            second: Vec::from_slice(alloc, second)?,
            nodes: Vec::from_slice(alloc, nodes.numbers())?,
            layout,
        })
    }

    /// Those of the nodes that either list has: the selection at hand where it is that, else a new one. Time: the
    /// nodes, and for a new one those of `of`.
    pub fn held_or_new(
        alloc: Global,
        held: Option<Box<Selection>>,
        first: &[u16],
        second: &[u16],
        nodes: &NodeList,
    ) -> Result<Box<Selection>, Memory>
        requires first { AreNodes first.now }
        requires second { AreNodes second.now }
        ensures first { IfOk result (λ s. s.value.first ≡ first.now) }
        ensures second { IfOk result (λ s. s.value.second ≡ second.now) }
        ensures nodes { IfOk result (λ s. s.value.nodes ≡ nodes.now) }
    {
        if let Some(selection) = held {
            if selection.is_of(first, second, nodes) {
                return Ok(selection);
            }
        }
        let selection = Selection::of(alloc, first, second, nodes)?;
        Ok(Box::new(alloc, selection)?)
    }

    /// Whether it is that of these lists. Time: their nodes. Takes no memory.
    pub fn is_of(&self, first: &[u16], second: &[u16], nodes: &NodeList) -> bool
        ensures { IsTrue result ↔
            ((self.now.first ≡ first.now) × (self.now.second ≡ second.now) × (self.now.nodes ≡ nodes.now)) }
    {
        let firsts = same_numbers(&self.first, first);
        let seconds = same_numbers(&self.second, second);
        firsts && seconds && same_numbers(&self.nodes, nodes.numbers())
    }

    /// The places of the nodes of the first list among those of both lists, which rise. What two values are together
    /// is a matter of these places and of their answers place by place, not of which nodes they keep. At once, and
    /// with no memory, as the other lists of places.
    pub fn first_places(&self) -> &[u16]
        ensures places { result.now ≡ self.now.first_places }
        ensures placed { ArePlaced self.now }
    {
        self.layout.union.first.as_slice()
    }

    /// Those of the nodes of the second list.
    pub fn second_places(&self) -> &[u16]
        ensures places { result.now ≡ self.now.second_places }
        ensures placed { ArePlaced self.now }
    {
        self.layout.union.second.as_slice()
    }

    /// Those of the nodes that are asked for.
    pub fn places(&self) -> &[u16]
        ensures places { result.now ≡ self.now.places }
        ensures placed { ArePlaced self.now }
    {
        self.layout.places.as_slice()
    }

    /// The nodes that are asked for and that either list has, rising.
    pub fn kept(&self) -> &[u16]
        ensures kept { result.now ≡ self.now.kept }
        ensures placed { ArePlaced self.now }
    {
        self.layout.kept.as_slice()
    }
}

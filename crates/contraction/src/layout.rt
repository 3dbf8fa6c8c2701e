//! How the nodes of two contractions lie in one list, and what the rows of both say of some of them.
ghost use Rattle.std.specs.Prelude.{◌≡◌, length, IfOk};
ghost use Rattle.contraction.specs.Answers.{AreNodes};
ghost use Rattle.contraction.specs.Merging.{LabelsFit, RowFits};
ghost use Rattle.contraction.specs.Selecting.{IsLayout, LayoutFits, RowSelected, LabelsSelected};

use crate::bytes::{KEPT_BYTES, bytes_from};
use crate::labels::{labels_at, labels_of_both};
use crate::merge::{Union, merge};
use crate::numbers::same_numbers;
use crate::places::{picked, places_of};
use crate::row::Row;
use ilk_base::{Memory, Text};
use station_graph::NodeList;
use std::alloc::Global;

// Two rising lists of nodes as one, and some of its nodes with their places in it and their bytes; and whether both the
// one list and those of its nodes are the first list again.
#[derive(Drop)]
pub(crate) struct Layout {
    pub(crate) union: Union,
    pub(crate) places: Vec<u16>,
    pub(crate) kept: Vec<u16>,
    pub(crate) bytes: Text,
    pub(crate) is_first: bool,
}

impl Layout {
    // Those of the nodes that either list has.
    pub(crate) fn of(
        alloc: Global,
        first: &[u16],
        second: &[u16],
        nodes: &NodeList,
    ) -> Result<Layout, Memory>
        requires first { AreNodes first.now }
        requires second { AreNodes second.now }
        ensures { IfOk result (IsLayout first.now second.now nodes.now) }
    {
        let union = merge(alloc, first, second)?;
        let all = union.kept.as_slice();
        let places = places_of(alloc, all, nodes.numbers())?;
        let kept = picked(alloc, all, places.as_slice())?;
        let bytes = bytes_from(alloc, kept.as_slice(), KEPT_BYTES)?;
        let is_first = same_numbers(all, first) && same_numbers(kept.as_slice(), first);
        Ok(Layout {
            union,
            places,
            kept,
            bytes,
            is_first,
        })
    }

    // The rows of both lists as the row of the selected nodes.
    pub(crate) fn row(&self, alloc: Global, x: &Row, y: &Row) -> Result<Row, Memory>
        requires fits { LayoutFits self.now }
        requires first { RowFits self.now.union.first.items (length self.now.union.kept.items) x.now }
        requires second { RowFits self.now.union.second.items (length self.now.union.kept.items) y.now }
        ensures { IfOk result (RowSelected self.now x.now y.now) }
    {
        Row::of_both_at(alloc, &self.union, self.places.as_slice(), x, y)
    }

    // The labels of both lists as those of the selected nodes.
    pub(crate) fn labels(&self, alloc: Global, x: &[u16], y: &[u16]) -> Result<NodeList, Memory>
        requires fits { LayoutFits self.now }
        requires first { LabelsFit self.now.union.first.items (length self.now.union.kept.items) x.now }
        requires second { LabelsFit self.now.union.second.items (length self.now.union.kept.items) y.now }
        ensures { IfOk result (LabelsSelected self.now x.now y.now) }
    {
        let count = self.union.kept.len() as u16;
        let first = self.union.first.as_slice();
        let second = self.union.second.as_slice();
        let wide = labels_of_both(alloc, count, first, x, second, y)?;
        labels_at(alloc, wide.numbers(), self.places.as_slice())
    }

    // The bytes of the selected nodes, with room for so many for each of them.
    pub(crate) fn start(&self, alloc: Global, each: usize) -> Result<Text, Memory>
        ensures { IfOk result (λ t. t ≡ self.now.bytes) }
    {
        let room = self.places.len().saturating_mul(each);
        let mut text = Text::with_capacity(alloc, room)?;
        text.push(self.bytes.bytes())?;
        Ok(text)
    }
}

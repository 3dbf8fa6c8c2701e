//! The rows of few nodes, which take no memory but their own.
ghost use Rattle.std.specs.Prelude.{◌≡◌, ◌<◌, ◌≤◌, ◌*◌, ℕ, length, replicate, slice_index, IfOk, IsTrue};
ghost use Rattle.contraction.specs.Merging.{LabelsFit, MarksFit, RowFits};
ghost use Rattle.contraction.specs.Restricting.{WordsAt, FlagsAt};
ghost use Rattle.contraction.specs.Selecting.{LayoutFits, IsSmall, AreBonds, AreBothMarks, IsGapPart, IsLoadPart};
ghost use Rattle.contraction.specs.Selecting.{IsGapText, IsLoadText};

use crate::bytes::{GAP_BYTES, LOAD_BYTES};
use crate::labels::{label_both, label_words};
use crate::layout::Layout;
use crate::marks::{flag_at, none_marked};
use crate::row::Row;
use ilk_base::{Memory, Text};
use std::alloc::Global;

// As many places as a small layout may have. Nearly all have fewer.
pub(crate) const FEW: usize = 32;

impl Layout {
    // Whether it has few places.
    pub(crate) fn is_small(&self) -> bool
        ensures { IsTrue result → IsSmall self.now }
    {
        self.union.kept.len() <= FEW && self.places.len() <= FEW
    }

    // Writes the labels of the selected places, given those of all, two bytes for each.
    fn write_labels(&self, row: &mut [u8], wide: &[u16])
        requires fits { LayoutFits self.now }
        requires small { IsSmall self.now }
        requires room { length row.old ≡ 2 * length self.now.places.items }
        requires len { length wide.now ≡ length self.now.union.kept.items }
        requires below { (k : ℕ) → k < length wide.now → slice_index wide.now k ≤ k }
        ensures { WordsAt wide.now self.now.places.items row.new }
    {
        let mut firsts = [0; FEW];
        let notes = &mut firsts[..wide.len()];
        label_words(row, notes, wide, self.places.as_slice());
    }

    // Writes the labels of both lists as those of the selected places.
    fn write_bonds(&self, row: &mut [u8], x: &[u16], y: &[u16])
        requires fits { LayoutFits self.now }
        requires small { IsSmall self.now }
        requires room { length row.old ≡ 2 * length self.now.places.items }
        requires first { LabelsFit self.now.union.first.items (length self.now.union.kept.items) x.now }
        requires second { LabelsFit self.now.union.second.items (length self.now.union.kept.items) y.now }
        ensures { AreBonds self.now x.now y.now row.new }
    {
        let mut labels = [0; FEW];
        let wide = &mut labels[..self.union.kept.len()];
        let first = self.union.first.as_slice();
        let second = self.union.second.as_slice();
        label_both(wide, first, x, second, y);
        self.write_labels(row, wide);
    }

    // Writes the marks of the selected places, given the labels of all, a byte for each. The row is 0 throughout, so
    // that nothing is to be done where neither list has a mark.
    fn write_marks(&self, row: &mut [u8], wide: &[u16], x: &[bool], y: &[bool])
        requires fits { LayoutFits self.now }
        requires small { IsSmall self.now }
        requires room { row.old ≡ replicate (length self.now.places.items) 0 }
        requires len { length wide.now ≡ length self.now.union.kept.items }
        requires below { (k : ℕ) → k < length wide.now → slice_index wide.now k ≤ k }
        requires first { MarksFit self.now.union.first.items (length self.now.union.kept.items) x.now }
        requires second { MarksFit self.now.union.second.items (length self.now.union.kept.items) y.now }
        ensures { FlagsAt wide.now self.now.places.items self.now.union.first.items x.now self.now.union.second.items
            y.now row.new }
    {
        if none_marked(x) && none_marked(y) {
            return;
        }
        let mut classes = [false; FEW];
        let notes = &mut classes[..wide.len()];
        let places = self.places.as_slice();
        let first = self.union.first.as_slice();
        let second = self.union.second.as_slice();
        flag_at(row, notes, wide, places, first, x, second, y);
    }

    // Writes both rows of marks of the selected places.
    fn write_both_marks(&self, row: &mut [u8], wide: &[u16], x: &Row, y: &Row)
        requires fits { LayoutFits self.now }
        requires small { IsSmall self.now }
        requires room { row.old ≡ replicate (2 * length self.now.places.items) 0 }
        requires len { length wide.now ≡ length self.now.union.kept.items }
        requires below { (k : ℕ) → k < length wide.now → slice_index wide.now k ≤ k }
        requires first { RowFits self.now.union.first.items (length self.now.union.kept.items) x.now }
        requires second { RowFits self.now.union.second.items (length self.now.union.kept.items) y.now }
        ensures { AreBothMarks self.now wide.now x.now y.now row.new }
    {
        let (first, second) = row.split_at_mut(self.places.len());
        self.write_marks(first, wide, &x.first, &y.first);
        self.write_marks(second, wide, &x.second, &y.second);
    }

    // Writes what the gap row has behind the selected nodes: their labels and both rows of marks.
    fn write_gap(&self, row: &mut [u8], wide: &[u16], x: &Row, y: &Row)
        requires fits { LayoutFits self.now }
        requires small { IsSmall self.now }
        requires room { row.old ≡ replicate (4 * length self.now.places.items) 0 }
        requires len { length wide.now ≡ length self.now.union.kept.items }
        requires below { (k : ℕ) → k < length wide.now → slice_index wide.now k ≤ k }
        requires first { RowFits self.now.union.first.items (length self.now.union.kept.items) x.now }
        requires second { RowFits self.now.union.second.items (length self.now.union.kept.items) y.now }
        ensures { IsGapPart self.now wide.now x.now y.now row.new }
    {
        let (labels, marks) = row.split_at_mut(2 * self.places.len());
        self.write_labels(labels, wide);
        self.write_both_marks(marks, wide, x, y);
    }

    // The selected nodes and the rows of both lists on them.
    pub(crate) fn small_gap_text(&self, alloc: Global, x: &Row, y: &Row) -> Result<Text, Memory>
        requires fits { LayoutFits self.now }
        requires small { IsSmall self.now }
        requires first { RowFits self.now.union.first.items (length self.now.union.kept.items) x.now }
        requires second { RowFits self.now.union.second.items (length self.now.union.kept.items) y.now }
        ensures { IfOk result (IsGapText self.now x.now y.now) }
    {
        let mut labels = [0; FEW];
        let wide = &mut labels[..self.union.kept.len()];
        let first = self.union.first.as_slice();
        let second = self.union.second.as_slice();
        label_both(wide, first, x.labels.numbers(), second, y.labels.numbers());
        let mut bytes = [0; 4 * FEW];
        let row = &mut bytes[..4 * self.places.len()];
        self.write_gap(row, wide, x, y);
        let mut text = self.start(alloc, GAP_BYTES)?;
        text.push(row)?;
        Ok(text)
    }

    // Writes what the load row has behind the selected nodes: their labels, those of the bonds and both rows of marks.
    fn write_load(
        &self,
        row: &mut [u8],
        wide: &[u16],
        x: &Row,
        y: &Row,
        x_bonds: &[u16],
        y_bonds: &[u16],
    )
        requires fits { LayoutFits self.now }
        requires small { IsSmall self.now }
        requires room { row.old ≡ replicate (6 * length self.now.places.items) 0 }
        requires len { length wide.now ≡ length self.now.union.kept.items }
        requires below { (k : ℕ) → k < length wide.now → slice_index wide.now k ≤ k }
        requires first { RowFits self.now.union.first.items (length self.now.union.kept.items) x.now }
        requires second { RowFits self.now.union.second.items (length self.now.union.kept.items) y.now }
        requires first_bonds { LabelsFit self.now.union.first.items (length self.now.union.kept.items) x_bonds.now }
        requires second_bonds { LabelsFit self.now.union.second.items (length self.now.union.kept.items) y_bonds.now }
        ensures { IsLoadPart self.now wide.now x.now y.now x_bonds.now y_bonds.now row.new }
    {
        let (labels, rest) = row.split_at_mut(2 * self.places.len());
        let (bonds, marks) = rest.split_at_mut(2 * self.places.len());
        self.write_labels(labels, wide);
        self.write_bonds(bonds, x_bonds, y_bonds);
        self.write_both_marks(marks, wide, x, y);
    }

    // The selected nodes, and the rows of both lists on them with the labels of the bonds.
    pub(crate) fn small_load_text(
        &self,
        alloc: Global,
        x: &Row,
        y: &Row,
        x_bonds: &[u16],
        y_bonds: &[u16],
    ) -> Result<Text, Memory>
        requires fits { LayoutFits self.now }
        requires small { IsSmall self.now }
        requires first { RowFits self.now.union.first.items (length self.now.union.kept.items) x.now }
        requires second { RowFits self.now.union.second.items (length self.now.union.kept.items) y.now }
        requires first_bonds { LabelsFit self.now.union.first.items (length self.now.union.kept.items) x_bonds.now }
        requires second_bonds { LabelsFit self.now.union.second.items (length self.now.union.kept.items) y_bonds.now }
        ensures { IfOk result (IsLoadText self.now x.now y.now x_bonds.now y_bonds.now) }
    {
        let mut labels = [0; FEW];
        let wide = &mut labels[..self.union.kept.len()];
        let first = self.union.first.as_slice();
        let second = self.union.second.as_slice();
        label_both(wide, first, x.labels.numbers(), second, y.labels.numbers());
        let mut bytes = [0; 6 * FEW];
        let row = &mut bytes[..6 * self.places.len()];
        self.write_load(row, wide, x, y, x_bonds, y_bonds);
        let mut text = self.start(alloc, LOAD_BYTES)?;
        text.push(row)?;
        Ok(text)
    }
}

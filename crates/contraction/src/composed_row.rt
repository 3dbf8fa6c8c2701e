//! The row of one view of two contractions together.
ghost use Rattle.std.specs.Prelude.{◌≡◌, ◌⊎◌, ℕ, length, IfOk, Contains};
ghost use Rattle.contraction.specs.Answers.{Keeps};
ghost use Rattle.contraction.specs.Merging.{LabelsFit, RowFits};
ghost use Rattle.contraction.specs.Selecting.{LayoutFits, IsGapText, IsLoadText};
ghost use Rattle.contraction.specs.Composing.{IsGapRowOfBoth, IsLoadRowOfBoth};

use crate::bytes::{GAP_BYTES, LOAD_BYTES};
use crate::layout::Layout;
use crate::row::Row;
use crate::selection::Selection;
use crate::shared_row::SharedRow;
use crate::value::Contraction;
use ilk_base::{Memory, Text};
use std::alloc::Global;

impl Layout {
    // The selected nodes and the rows of both lists on them, however many they are.
    fn wide_gap_text(&self, alloc: Global, x: &Row, y: &Row) -> Result<Text, Memory>
        requires fits { LayoutFits self.now }
        requires first { RowFits self.now.union.first.items (length self.now.union.kept.items) x.now }
        requires second { RowFits self.now.union.second.items (length self.now.union.kept.items) y.now }
        ensures { IfOk result (IsGapText self.now x.now y.now) }
    {
        let row = self.row(alloc, x, y)?;
        let mut text = self.start(alloc, GAP_BYTES)?;
        row.push_to(&mut text)?;
        Ok(text)
    }

    // The selected nodes and the rows of both lists on them.
    fn gap_text(&self, alloc: Global, x: &SharedRow, y: &SharedRow) -> Result<Text, Memory>
        requires fits { LayoutFits self.now }
        requires first { RowFits self.now.union.first.items (length self.now.union.kept.items) x.now }
        requires second { RowFits self.now.union.second.items (length self.now.union.kept.items) y.now }
        ensures { IfOk result (IsGapText self.now x.now y.now) }
    {
        if self.is_small() {
            return self.small_gap_text(alloc, x.row(), y.row());
        }
        self.wide_gap_text(alloc, x.row(), y.row())
    }

    // The selected nodes, and the rows of both lists on them with the labels of the bonds, however many they are.
    fn wide_load_text(
        &self,
        alloc: Global,
        x: &Row,
        y: &Row,
        x_bonds: &[u16],
        y_bonds: &[u16],
    ) -> Result<Text, Memory>
        requires fits { LayoutFits self.now }
        requires first { RowFits self.now.union.first.items (length self.now.union.kept.items) x.now }
        requires second { RowFits self.now.union.second.items (length self.now.union.kept.items) y.now }
        requires first_bonds { LabelsFit self.now.union.first.items (length self.now.union.kept.items) x_bonds.now }
        requires second_bonds { LabelsFit self.now.union.second.items (length self.now.union.kept.items) y_bonds.now }
        ensures { IfOk result (IsLoadText self.now x.now y.now x_bonds.now y_bonds.now) }
    {
        let row = self.row(alloc, x, y)?;
        let bonded = self.labels(alloc, x_bonds, y_bonds)?;
        let mut text = self.start(alloc, LOAD_BYTES)?;
        row.push_with(&mut text, &bonded)?;
        Ok(text)
    }

    // The selected nodes, and the rows of both lists on them with the labels of the bonds.
    fn load_text(
        &self,
        alloc: Global,
        x: &SharedRow,
        y: &SharedRow,
        x_bonds: &[u16],
        y_bonds: &[u16],
    ) -> Result<Text, Memory>
        requires fits { LayoutFits self.now }
        requires first { RowFits self.now.union.first.items (length self.now.union.kept.items) x.now }
        requires second { RowFits self.now.union.second.items (length self.now.union.kept.items) y.now }
        requires first_bonds { LabelsFit self.now.union.first.items (length self.now.union.kept.items) x_bonds.now }
        requires second_bonds { LabelsFit self.now.union.second.items (length self.now.union.kept.items) y_bonds.now }
        ensures { IfOk result (IsLoadText self.now x.now y.now x_bonds.now y_bonds.now) }
    {
        if self.is_small() {
            return self.small_load_text(alloc, x.row(), y.row(), x_bonds, y_bonds);
        }
        self.wide_load_text(alloc, x.row(), y.row(), x_bonds, y_bonds)
    }
}

impl Contraction {
    /// The row of the gap view of what `compose_gap_on` gives, in less time than that takes. So who has made such
    /// a value before finds it by its row, and makes it not again.
    ///
    /// Time: the kept nodes, times those that the value with fewer of them joins to others. Memory: the kept nodes.
    pub fn composed_gap_row(
        &self,
        alloc: Global,
        other: &Contraction,
        selection: &Selection,
    ) -> Result<Text, Memory>
        requires first { selection.now.first ≡ self.now.kept }
        requires second { selection.now.second ≡ other.now.kept }
        requires nodes { (n : ℕ) → Contains selection.now.nodes n
            → Keeps self.now.kept n ⊎ Keeps other.now.kept n }
        ensures { IfOk result (IsGapRowOfBoth selection.now.nodes self.now other.now) }
    {
        selection.layout.gap_text(alloc, &self.gap, &other.gap)
    }

    /// The row of the load view of what `compose_load_on` gives, in less time than that takes.
    ///
    /// Time: the kept nodes, times those that the value with fewer of them joins to others. Memory: the kept nodes.
    pub fn composed_load_row(
        &self,
        alloc: Global,
        other: &Contraction,
        selection: &Selection,
    ) -> Result<Text, Memory>
        requires first { selection.now.first ≡ self.now.kept }
        requires second { selection.now.second ≡ other.now.kept }
        requires nodes { (n : ℕ) → Contains selection.now.nodes n
            → Keeps self.now.kept n ⊎ Keeps other.now.kept n }
        ensures { IfOk result (IsLoadRowOfBoth selection.now.nodes self.now other.now) }
    {
        let x_bonds = self.bonded.numbers();
        let y_bonds = other.bonded.numbers();
        selection
            .layout
            .load_text(alloc, &self.load, &other.load, x_bonds, y_bonds)
    }
}

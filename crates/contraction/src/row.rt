//! Kept nodes in classes, with marks: one view of a contraction.
ghost use Rattle.std.specs.Prelude.{◌≡◌, ℕ, ◌<◌, ◌≤◌, Bool, false, replicate, [], ◌∷◌, if◌then◌else◌, length};
ghost use Rattle.std.specs.Prelude.{slice_index, IfOk};
ghost use Rattle.station_graph.specs.declared.limits.TheConstants.{NODES};
ghost use Rattle.contraction.specs.Merging.{LabelsFit, RowFits, RowOfBoth};
ghost use Rattle.contraction.specs.Restricting.{RowRestricts, RowOfBothAt};
ghost use Rattle.contraction.specs.Single.{AreAlone};

use crate::labels::{apart, labels_at, labels_of_both, one_label, two_labels};
use crate::marks::{marks_at, marks_of_both};
use crate::merge::Union;
use crate::places::picked;
use ilk_base::Memory;
use station_graph::NodeList;
use std::alloc::Global;

// The classes of the kept nodes, place by place, and two marks on each node. A label is the first
// place of its class.
#[derive(Drop)]
pub(crate) struct Row {
    pub(crate) labels: NodeList,
    pub(crate) first: Vec<bool>,
    pub(crate) second: Vec<bool>,
}

impl Row {
    // Each of so many places alone and without a mark.
    pub(crate) fn bare(alloc: Global, count: u16) -> Result<Row, Memory>
        ensures labels { IfOk result (λ row. AreAlone count row.labels) }
        ensures first { IfOk result (λ row. row.first.items ≡ replicate count false) }
        ensures second { IfOk result (λ row. row.second.items ≡ replicate count false) }
    {
        Ok(Row {
            labels: apart(alloc, count)?,
            first: vec![in alloc; false; count as usize]?,
            second: vec![in alloc; false; count as usize]?,
        })
    }

    // Two places in one class or not, without a mark.
    pub(crate) fn of_two(alloc: Global, same: bool) -> Result<Row, Memory>
        ensures labels { IfOk result (λ row. row.labels ≡ 0 ∷ (if same then 0 else 1) ∷ []) }
        ensures first { IfOk result (λ row. row.first.items ≡ false ∷ false ∷ []) }
        ensures second { IfOk result (λ row. row.second.items ≡ false ∷ false ∷ []) }
    {
        Ok(Row {
            labels: two_labels(alloc, same)?,
            first: vec![in alloc; false; 2]?,
            second: vec![in alloc; false; 2]?,
        })
    }

    // One place with these marks.
    pub(crate) fn of_one(alloc: Global, first: bool, second: bool) -> Result<Row, Memory>
        ensures labels { IfOk result (λ row. row.labels ≡ 0 ∷ []) }
        ensures first { IfOk result (λ row. row.first.items ≡ first ∷ []) }
        ensures second { IfOk result (λ row. row.second.items ≡ second ∷ []) }
    {
        Ok(Row {
            labels: one_label(alloc)?,
            first: vec![in alloc; first; 1]?,
            second: vec![in alloc; second; 1]?,
        })
    }

    // The rows of two lists as the row of their union.
    pub(crate) fn of_both(alloc: Global, union: &Union, x: &Row, y: &Row) -> Result<Row, Memory>
        requires few { length union.now.kept.items ≤ NODES }
        requires first { RowFits union.now.first.items (length union.now.kept.items) x.now }
        requires second { RowFits union.now.second.items (length union.now.kept.items) y.now }
        ensures { IfOk result (RowOfBoth union.now x.now y.now) }
    {
        let count = union.kept.len() as u16;
        let first = union.first.as_slice();
        let second = union.second.as_slice();
        let row = labels_of_both(
            alloc,
            count,
            first,
            x.labels.numbers(),
            second,
            y.labels.numbers(),
        )?;
        let labels = row.numbers();
        let firsts = marks_of_both(alloc, labels, first, &x.first, second, &y.first)?;
        let seconds = marks_of_both(alloc, labels, first, &x.second, second, &y.second)?;
        Ok(Row {
            labels: row,
            first: firsts,
            second: seconds,
        })
    }

    // The rows of two lists as the row of these places of their union.
    pub(crate) fn of_both_at(
        alloc: Global,
        union: &Union,
        places: &[u16],
        x: &Row,
        y: &Row,
    ) -> Result<Row, Memory>
        requires few { length union.now.kept.items ≤ NODES }
        requires fewer { length places.now ≤ NODES }
        requires inside { (k : ℕ) → k < length places.now
            → slice_index places.now k < length union.now.kept.items }
        requires first { RowFits union.now.first.items (length union.now.kept.items) x.now }
        requires second { RowFits union.now.second.items (length union.now.kept.items) y.now }
        ensures { IfOk result (RowOfBothAt union.now places.now x.now y.now) }
    {
        let count = union.kept.len() as u16;
        let first = union.first.as_slice();
        let second = union.second.as_slice();
        let wide = labels_of_both(
            alloc,
            count,
            first,
            x.labels.numbers(),
            second,
            y.labels.numbers(),
        )?;
        let labels = wide.numbers();
        let firsts = marks_at(alloc, labels, places, first, &x.first, second, &y.first)?;
        let seconds = marks_at(alloc, labels, places, first, &x.second, second, &y.second)?;
        Ok(Row {
            labels: labels_at(alloc, labels, places)?,
            first: firsts,
            second: seconds,
        })
    }

    // The row of these places alone.
    pub(crate) fn at(&self, alloc: Global, places: &[u16]) -> Result<Row, Memory>
        requires few { length places.now ≤ NODES }
        requires labels { (k : ℕ) → k < length places.now
            → slice_index places.now k < length self.now.labels }
        requires below { (k : ℕ) → k < length self.now.labels → slice_index self.now.labels k ≤ k }
        requires first { length self.now.first.items ≡ length self.now.labels }
        requires second { length self.now.second.items ≡ length self.now.labels }
        ensures { IfOk result (RowRestricts self.now places.now) }
    {
        Ok(Row {
            labels: labels_at(alloc, self.labels.numbers(), places)?,
            first: picked(alloc, &self.first, places)?,
            second: picked(alloc, &self.second, places)?,
        })
    }
}

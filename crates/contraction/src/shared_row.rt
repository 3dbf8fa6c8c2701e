//! Rows and labels that lie in memory once for all contractions that hold them.
ghost use Rattle.std.specs.Prelude.{◌≡◌, ℕ, ◌<◌, ◌≤◌, false, [], ◌∷◌, if◌then◌else◌, length, slice_index, IfOk};
ghost use Rattle.station_graph.specs.declared.limits.TheConstants.{NODES};
ghost use Rattle.contraction.specs.Merging.{LabelsFit, LabelsOfBoth, RowFits, RowOfBoth};
ghost use Rattle.contraction.specs.Restricting.{LabelsRestrict, RowRestricts};
ghost use Rattle.contraction.specs.Single.{AreAlone, IsBare};

use crate::labels::{apart, labels_at, labels_of_both, one_label, two_labels};
use crate::merge::Union;
use crate::row::Row;
use ilk_base::Memory;
use station_graph::NodeList;
use std::alloc::Global;
use std::marker::Model;
use std::rc::Rc;

// A row that more than one contraction may hold, as values on other nodes do. It is seen as the row.
#[derive(Drop)]
pub(crate) struct SharedRow {
    held: Rc<Row>,
}

impl Model for SharedRow {
    ghost use Rattle.contraction.specs.declared.row.Row.{Row as Held};

    ghost Value = { Held };

    ghost view = { λ s. s.held.value };
}

impl SharedRow {
    // This row, held by one owner.
    pub(crate) fn new(alloc: Global, row: Row) -> Result<SharedRow, Memory>
        ensures { IfOk result (λ s. s ≡ row) }
    {
        let held = Rc::new(alloc, row)?;
        Ok(SharedRow { held })
    }

    // Each of so many places alone and without a mark.
    pub(crate) fn bare(alloc: Global, count: u16) -> Result<SharedRow, Memory>
        ensures { IfOk result (IsBare count) }
    {
        let row = Row::bare(alloc, count)?;
        SharedRow::new(alloc, row)
    }

    // Two places in one class or not, without a mark.
    pub(crate) fn of_two(alloc: Global, same: bool) -> Result<SharedRow, Memory>
        ensures labels { IfOk result (λ row. row.labels ≡ 0 ∷ (if same then 0 else 1) ∷ []) }
        ensures first { IfOk result (λ row. row.first.items ≡ false ∷ false ∷ []) }
        ensures second { IfOk result (λ row. row.second.items ≡ false ∷ false ∷ []) }
    {
        let row = Row::of_two(alloc, same)?;
        SharedRow::new(alloc, row)
    }

    // One place with these marks.
    pub(crate) fn of_one(alloc: Global, first: bool, second: bool) -> Result<SharedRow, Memory>
        ensures labels { IfOk result (λ row. row.labels ≡ 0 ∷ []) }
        ensures first { IfOk result (λ row. row.first.items ≡ first ∷ []) }
        ensures second { IfOk result (λ row. row.second.items ≡ second ∷ []) }
    {
        let row = Row::of_one(alloc, first, second)?;
        SharedRow::new(alloc, row)
    }

    // The same row, held by one owner more.
    pub(crate) fn share(&self) -> Result<SharedRow, Memory>
        ensures { IfOk result (λ s. s ≡ self.now) }
    {
        let held = self.held.clone()?;
        Ok(SharedRow { held })
    }

    // The row, lent.
    pub(crate) fn row(&self) -> &Row
        ensures { result.now ≡ self.now }
    {
        self.held.as_ref()
    }

    // The rows of two lists as the row of their union.
    pub(crate) fn of_both(
        alloc: Global,
        union: &Union,
        x: &SharedRow,
        y: &SharedRow,
    ) -> Result<SharedRow, Memory>
        requires few { length union.now.kept.items ≤ NODES }
        requires first { RowFits union.now.first.items (length union.now.kept.items) x.now }
        requires second { RowFits union.now.second.items (length union.now.kept.items) y.now }
        ensures { IfOk result (RowOfBoth union.now x.now y.now) }
    {
        let row = Row::of_both(alloc, union, x.row(), y.row())?;
        SharedRow::new(alloc, row)
    }

    // The row of these places alone.
    pub(crate) fn at(&self, alloc: Global, places: &[u16]) -> Result<SharedRow, Memory>
        requires few { length places.now ≤ NODES }
        requires labels { (k : ℕ) → k < length places.now
            → slice_index places.now k < length self.now.labels }
        requires below { (k : ℕ) → k < length self.now.labels → slice_index self.now.labels k ≤ k }
        requires first { length self.now.first.items ≡ length self.now.labels }
        requires second { length self.now.second.items ≡ length self.now.labels }
        ensures { IfOk result (RowRestricts self.now places.now) }
    {
        let row = self.row().at(alloc, places)?;
        SharedRow::new(alloc, row)
    }
}

// Labels that more than one contraction may hold. They are seen as the list.
#[derive(Drop)]
pub(crate) struct SharedLabels {
    held: Rc<NodeList>,
}

impl Model for SharedLabels {
    ghost use Rattle.std.specs.Prelude.{ℕ, List};

    ghost Value = { List ℕ };

    ghost view = { λ s. s.held.value };
}

impl SharedLabels {
    // These labels, held by one owner.
    pub(crate) fn new(alloc: Global, labels: NodeList) -> Result<SharedLabels, Memory>
        ensures { IfOk result (λ s. s ≡ labels) }
    {
        let held = Rc::new(alloc, labels)?;
        Ok(SharedLabels { held })
    }

    // The same labels, held by one owner more.
    pub(crate) fn share(&self) -> Result<SharedLabels, Memory>
        ensures { IfOk result (λ s. s ≡ self.now) }
    {
        let held = self.held.clone()?;
        Ok(SharedLabels { held })
    }

    // The list, lent.
    pub(crate) fn labels(&self) -> &NodeList
        ensures { result.now ≡ self.now }
    {
        self.held.as_ref()
    }

    // The labels, lent.
    pub(crate) fn numbers(&self) -> &[u16]
        ensures { result.now ≡ self.now }
    {
        self.held.as_ref().numbers()
    }
}

// Each of so many places in a class of its own.
pub(crate) fn bonds_apart(alloc: Global, count: u16) -> Result<SharedLabels, Memory>
    ensures { IfOk result (AreAlone count) }
{
    let labels = apart(alloc, count)?;
    SharedLabels::new(alloc, labels)
}

// Two places, in one class or not.
pub(crate) fn bonds_of_two(alloc: Global, same: bool) -> Result<SharedLabels, Memory>
    ensures { IfOk result (λ labels. labels ≡ 0 ∷ (if same then 0 else 1) ∷ []) }
{
    let labels = two_labels(alloc, same)?;
    SharedLabels::new(alloc, labels)
}

// One place.
pub(crate) fn bonds_of_one(alloc: Global) -> Result<SharedLabels, Memory>
    ensures { IfOk result (λ labels. labels ≡ 0 ∷ []) }
{
    let labels = one_label(alloc)?;
    SharedLabels::new(alloc, labels)
}

// The labels of two lists as those of their union.
pub(crate) fn bonds_of_both(
    alloc: Global,
    count: u16,
    first: &[u16],
    first_labels: &[u16],
    second: &[u16],
    second_labels: &[u16],
) -> Result<SharedLabels, Memory>
    requires first { LabelsFit first.now count first_labels.now }
    requires second { LabelsFit second.now count second_labels.now }
    ensures { IfOk result
        (LabelsOfBoth first.now first_labels.now second.now second_labels.now count) }
{
    let labels = labels_of_both(alloc, count, first, first_labels, second, second_labels)?;
    SharedLabels::new(alloc, labels)
}

// Those of these places alone.
pub(crate) fn bonds_at(
    alloc: Global,
    labels: &[u16],
    places: &[u16],
) -> Result<SharedLabels, Memory>
    requires inside { (k : ℕ) → k < length places.now → slice_index places.now k < length labels.now }
    requires below { (k : ℕ) → k < length labels.now → slice_index labels.now k ≤ k }
    requires few { length places.now ≤ NODES }
    ensures { IfOk result (LabelsRestrict labels.now places.now) }
{
    let row = labels_at(alloc, labels, places)?;
    SharedLabels::new(alloc, row)
}

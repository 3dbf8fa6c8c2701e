//! Two contractions that are the first of them together.
ghost use Rattle.std.specs.Prelude.{◌≡◌, ◌⊎◌, ◌↔◌, ℕ, length, IsTrue, Contains};
ghost use Rattle.contraction.specs.Answers.{Keeps, AreLabels};
ghost use Rattle.contraction.specs.Composing.{ComposesGap, ComposesLoad};
ghost use Rattle.contraction.specs.Unchanged.{IsAllOf, StandIn, JoinsNone, MarksNone, AreOfClasses};
ghost use Rattle.contraction.specs.Unchanged.{RowFitsAt, AddsNone};

use crate::row::Row;
use crate::selection::Selection;
use crate::shared_row::SharedRow;
use crate::value::Contraction;

// Whether entries with one label in the second row, which stand at these places of the first, have one label there.
fn joins_none(labels: &[u16], others: &[u16], places: &[u16]) -> bool
    requires fits { StandIn labels.now places.now }
    requires others { AreLabels (length places.now) others.now }
    ensures { IsTrue result ↔ JoinsNone labels.now others.now places.now }
{
    for k in 0..places.len() {
        let first = others[k] as usize;
        if labels[places[k] as usize] != labels[places[first] as usize] {
            return false;
        }
    }
    true
}

// Whether each entry that is marked in the second row, which stands at these places of the first, is marked there.
fn marks_none(marks: &[bool], others: &[bool], places: &[u16]) -> bool
    requires fits { StandIn marks.now places.now }
    requires others { length others.now ≡ length places.now }
    ensures { IsTrue result ↔ MarksNone marks.now others.now places.now }
{
    for k in 0..places.len() {
        if others[k] && !marks[places[k] as usize] {
            return false;
        }
    }
    true
}

// Whether each entry is marked as the first of its class.
fn are_of_classes(labels: &[u16], marks: &[bool]) -> bool
    requires labels { AreLabels (length labels.now) labels.now }
    requires marks { length marks.now ≡ length labels.now }
    ensures { IsTrue result ↔ AreOfClasses labels.now marks.now }
{
    for k in 0..labels.len() {
        if marks[k] != marks[labels[k] as usize] {
            return false;
        }
    }
    true
}

impl Row {
    // Whether the other row, which stands at these places of this one, says nothing that this one does not say.
    fn stays_with(&self, other: &Row, places: &[u16]) -> bool
        requires first { RowFitsAt self.now (length self.now.labels) }
        requires second { RowFitsAt other.now (length places.now) }
        requires inside { StandIn self.now.labels places.now }
        ensures { IsTrue result ↔ AddsNone self.now other.now places.now }
    {
        let labels = self.labels.numbers();
        let steady = are_of_classes(labels, &self.first) && are_of_classes(labels, &self.second);
        steady
            && joins_none(labels, other.labels.numbers(), places)
            && marks_none(&self.first, &other.first, places)
            && marks_none(&self.second, &other.second, places)
    }
}

impl SharedRow {
    // The same of the rows that are held.
    fn stays_with(&self, other: &SharedRow, places: &[u16]) -> bool
        requires first { RowFitsAt self.now (length self.now.labels) }
        requires second { RowFitsAt other.now (length places.now) }
        requires inside { StandIn self.now.labels places.now }
        ensures { IsTrue result ↔ AddsNone self.now other.now places.now }
    {
        self.row().stays_with(other.row(), places)
    }
}

impl Selection {
    // Whether the nodes of both lists are those of the first, and all of them are selected.
    fn is_all_of_first(&self) -> bool
        ensures { IsTrue result ↔ IsAllOf self.now self.now.first }
    {
        self.layout.is_first
    }
}

impl Contraction {
    /// Whether the gap view stays as it is with that of the other, which keeps no node but those of this one: both
    /// together on the selected nodes, which are all of them, are this one. So nothing has to be composed.
    ///
    /// Time: the kept nodes. Takes no memory.
    pub fn gap_stays_with(&self, other: &Contraction, selection: &Selection) -> bool
        requires first { selection.now.first ≡ self.now.kept }
        requires second { selection.now.second ≡ other.now.kept }
        requires nodes { (n : ℕ) → Contains selection.now.nodes n
            → Keeps self.now.kept n ⊎ Keeps other.now.kept n }
        ensures stays { IsTrue result ↔
            (IsAllOf selection.now self.now.kept × ComposesGap self.now other.now self.now) }
        ensures kept { IsTrue result → (n : ℕ) → Keeps self.now.kept n ↔ Contains selection.now.nodes n }
    {
        if !selection.is_all_of_first() {
            return false;
        }
        self.gap
            .stays_with(&other.gap, selection.layout.union.second.as_slice())
    }

    /// Whether the load view stays so.
    ///
    /// Time: the kept nodes. Takes no memory.
    pub fn load_stays_with(&self, other: &Contraction, selection: &Selection) -> bool
        requires first { selection.now.first ≡ self.now.kept }
        requires second { selection.now.second ≡ other.now.kept }
        requires nodes { (n : ℕ) → Contains selection.now.nodes n
            → Keeps self.now.kept n ⊎ Keeps other.now.kept n }
        ensures stays { IsTrue result ↔
            (IsAllOf selection.now self.now.kept × ComposesLoad self.now other.now self.now) }
        ensures kept { IsTrue result → (n : ℕ) → Keeps self.now.kept n ↔ Contains selection.now.nodes n }
    {
        if !selection.is_all_of_first() {
            return false;
        }
        let places = selection.layout.union.second.as_slice();
        let bonds = joins_none(self.bonded.numbers(), other.bonded.numbers(), places);
        bonds && self.load.stays_with(&other.load, places)
    }
}

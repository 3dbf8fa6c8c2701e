//! Inner graphs whose labels say what holds of a switch, so that switches of which the same holds share them.
ghost use Rattle.std.specs.Prelude.{◌≡◌, ℕ, ◌<◌, length, slice_get, slice_index, Some, IfOk, IfSome, OnOk, IsTrue};
ghost use Rattle.judge_graphs.specs.Labelling.{IsLabelled, AreLabelled};
ghost use Rattle.judge_graphs.specs.declared.noted.Noted.{Noted as Note};
ghost use Rattle.judge_graphs.specs.declared.labelled.Labelled.{Labelled as Known};

use crate::noted::Noted;
use decision_graphs::{Folds, Graph};
use ilk_base::Memory;
use std::alloc::Global;

// The graph of the note at a place, with these labels in place of its own, reduced.
#[derive(Drop)]
pub(crate) struct Labelled {
    pub(crate) place: usize,
    pub(crate) labels: Vec<u32>,
    pub(crate) graph: Graph,
}

// The graphs that were noted, and what they are with other labels.
#[derive(Drop)]
pub(crate) struct InnerNotes {
    pub(crate) graphs: Vec<Noted>,
    pub(crate) labelled: Vec<Labelled>,
}

// The graph with so many labels, these in place of its own, reduced.
fn relabelled(
    alloc: Global,
    folds: &mut Folds,
    graph: &Graph,
    count: u32,
    labels: &[u32],
) -> Result<Graph, Memory>
    requires some { 0 < count }
    requires len { length labels.now ≡ graph.now.labels }
    requires within { (x : ℕ) → x < length labels.now → slice_index labels.now x < count }
    ensures { IfOk result (IsLabelled count labels.now graph.now) }
{
    let named = graph.rename(alloc, count, labels)?;
    let reduced = named.reduce_by(alloc, folds)?;
    let _labels = reduced.labels();
    Ok(reduced)
}

// Whether two lists of labels are the same.
fn same_labels(one: &[u32], other: &[u32]) -> bool
    ensures { IsTrue result → one.now ≡ other.now }
{
    one == other
}

// Whether it is the graph of the note at this place with these labels.
fn is_labelled(one: &Labelled, place: usize, labels: &[u32]) -> bool
    ensures { IsTrue result → (one.now.place ≡ place) × (one.now.labels.items ≡ labels.now) }
{
    one.place == place && same_labels(&one.labels, labels)
}

// The place of the graph of this note with these labels, if there is one.
fn find_labelled(known: &[Labelled], place: usize, labels: &[u32]) -> Option<usize>
    ensures { IfSome result (λ k. (l : Known) × (slice_get known.now k ≡ Some l) × (l.place ≡ place)
        × (l.labels.items ≡ labels.now)) }
{
    for k in 0..known.len() {
        if is_labelled(&known[k], place, labels) {
            return Some(k);
        }
    }
    None
}

// The graph of the note at this place with so many labels, these in place of its own, reduced. It is made only once.
pub(crate) fn labelled_graph(
    alloc: Global,
    folds: &mut Folds,
    notes: &[Noted],
    known: &mut Vec<Labelled>,
    place: usize,
    count: u32,
    labels: Vec<u32>,
) -> Result<Graph, Memory>
    requires known { AreLabelled count notes.now known.old.items }
    requires place { place < length notes.now }
    requires some { 0 < count }
    requires len { (n : Note) → slice_get notes.now place ≡ Some n → length labels.items ≡ n.graph.value.labels }
    requires within { (x : ℕ) → x < length labels.items → slice_index labels.items x < count }
    ensures known { OnOk result (AreLabelled count notes.now known.new.items) }
    ensures graph { IfOk result (λ g. (n : Note) → slice_get notes.now place ≡ Some n →
        IsLabelled count labels.items n.graph.value g) }
{
    let held = known.as_slice();
    if let Some(k) = find_labelled(held, place, &labels) {
        let copy = held[k].graph.copy(alloc)?;
        return Ok(copy);
    }
    let graph = relabelled(alloc, folds, notes[place].graph.as_ref(), count, &labels)?;
    let copy = graph.copy(alloc)?;
    known.push(Labelled {
        place,
        labels,
        graph,
    })?;
    Ok(copy)
}

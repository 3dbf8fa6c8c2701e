//! Classes of kept nodes, as rows of labels. A label is the first place of its class.
ghost use Rattle.std.specs.Prelude.{◌≡◌, ℕ, ◌<◌, ◌≤◌, ◌*◌, ◌^◌, ◌==◌, [], ◌∷◌, if◌then◌else◌, length, map};
ghost use Rattle.std.specs.Prelude.{slice_index, IfOk};
ghost use Rattle.station_graph.specs.declared.limits.TheConstants.{NODES};
ghost use Rattle.station_graph.specs.Classes.{merged};
ghost use Rattle.contraction.specs.Merging.{LabelsFit, IsAlone, LabelsOfBoth};
ghost use Rattle.contraction.specs.Restricting.{LabelsRestrict, WordsAt, FirstAt};
ghost use Rattle.contraction.specs.Rows.{words};
ghost use Rattle.contraction.specs.Single.{AreAlone};

use ilk_base::{Memory, NodeId};
use station_graph::{Classes, NodeList};
use std::alloc::Global;

// Each of so many places in a class of its own.
pub(crate) fn apart(alloc: Global, count: u16) -> Result<NodeList, Memory>
    ensures { IfOk result (AreAlone count) }
{
    Ok(Classes::alone(alloc, count)?.into_labels())
}

// Two places, in one class or not.
pub(crate) fn two_labels(alloc: Global, same: bool) -> Result<NodeList, Memory>
    ensures { IfOk result (λ labels. labels ≡ 0 ∷ (if same then 0 else 1) ∷ []) }
{
    let mut labels = NodeList::with_capacity(alloc, 2)?;
    labels.push(NodeId(0))?;
    labels.push(NodeId(if same { 0 } else { 1 }))?;
    Ok(labels)
}

// One place.
pub(crate) fn one_label(alloc: Global) -> Result<NodeList, Memory>
    ensures { IfOk result (λ labels. labels ≡ 0 ∷ []) }
{
    let mut labels = NodeList::with_capacity(alloc, 1)?;
    labels.push(NodeId(0))?;
    Ok(labels)
}

// Each of the places in a class of its own.
fn part(labels: &mut [u16])
    requires { length labels.old ≤ 2 ^ 16 }
    ensures { AreAlone (length labels.old) labels.new }
{
    for k in 0..labels.len() {
        labels[k] = k as u16;
    }
}

// Puts one label in the place of another. The value is written in both cases, so that the loop is
// made of wide steps.
fn relabel(labels: &mut [u16], from: u16, to: u16)
    ensures { labels.new ≡ map (λ label. if label == from then to else label) labels.old }
{
    for label in labels.iter_mut() {
        *label = if *label == from { to } else { *label };
    }
}

// Makes the classes of two places one.
fn unite(labels: &mut [u16], a: u16, b: u16)
    requires first { a < length labels.old }
    requires second { b < length labels.old }
    ensures { labels.new ≡ merged labels.old a b }
{
    let x = labels[a as usize];
    let y = labels[b as usize];
    if x != y {
        relabel(labels, x.max(y), x.min(y));
    }
}

// Makes the classes of an entry and of the first entry with its label one. Nearly all entries are that first entry
// themselves, and nothing is to be done for them.
fn follow(labels: &mut [u16], places: &[u16], row: &[u16], i: usize)
    requires entry { i < length row.now }
    requires len { length row.now ≡ length places.now }
    requires below { slice_index row.now i ≤ i }
    requires first { slice_index places.now i < length labels.old }
    requires second { slice_index places.now (slice_index row.now i) < length labels.old }
    ensures { labels.new
        ≡ merged labels.old (slice_index places.now i) (slice_index places.now (slice_index row.now i)) }
{
    let label = row[i] as usize;
    if label != i {
        unite(labels, places[i], places[label]);
    }
}

// The same for an entry whose place is in a class of its own: one label is written, and no other is looked at.
fn follow_alone(labels: &mut [u16], places: &[u16], row: &[u16], i: usize)
    requires entry { i < length row.now }
    requires len { length row.now ≡ length places.now }
    requires below { slice_index row.now i ≤ i }
    requires first { slice_index places.now i < length labels.old }
    requires second { slice_index places.now (slice_index row.now i) < length labels.old }
    requires alone { IsAlone labels.old (slice_index places.now i) }
    requires lower { slice_index labels.old (slice_index places.now (slice_index row.now i)) ≤ slice_index places.now i }
    ensures { labels.new
        ≡ merged labels.old (slice_index places.now i) (slice_index places.now (slice_index row.now i)) }
{
    let label = row[i] as usize;
    if label != i {
        labels[places[i] as usize] = labels[places[label] as usize];
    }
}

// The labels of the places of a merged list, from the labels of both lists: the classes of both are closed up over one
// another. The places of a list rise. So in the first pass the place of each entry is in a class of its own when it is
// reached, and only in the second do classes become one.
fn label_in_turn(
    labels: &mut [u16],
    first: &[u16],
    first_labels: &[u16],
    second: &[u16],
    second_labels: &[u16],
)
    requires few { length labels.old ≤ 2 ^ 16 }
    requires first { LabelsFit first.now (length labels.old) first_labels.now }
    requires second { LabelsFit second.now (length labels.old) second_labels.now }
    ensures { LabelsOfBoth first.now first_labels.now second.now second_labels.now (length labels.old) labels.new }
{
    part(labels);
    'firsts: for i in 0..first.len() {
        follow_alone(labels, first, first_labels, i);
    }
    'seconds: for j in 0..second.len() {
        follow(labels, second, second_labels, j);
    }
}

// The same, with the longer list first, since the first pass is the quicker one.
pub(crate) fn label_both(
    labels: &mut [u16],
    first: &[u16],
    first_labels: &[u16],
    second: &[u16],
    second_labels: &[u16],
)
    requires few { length labels.old ≤ 2 ^ 16 }
    requires first { LabelsFit first.now (length labels.old) first_labels.now }
    requires second { LabelsFit second.now (length labels.old) second_labels.now }
    ensures { LabelsOfBoth first.now first_labels.now second.now second_labels.now (length labels.old) labels.new }
{
    if first.len() < second.len() {
        label_in_turn(labels, second, second_labels, first, first_labels);
    } else {
        label_in_turn(labels, first, first_labels, second, second_labels);
    }
}

// The same in a list of its own.
pub(crate) fn labels_of_both(
    alloc: Global,
    count: u16,
    first: &[u16],
    first_labels: &[u16],
    second: &[u16],
    second_labels: &[u16],
) -> Result<NodeList, Memory>
    requires first { LabelsFit first.now count first_labels.now }
    requires second { LabelsFit second.now count second_labels.now }
    ensures { IfOk result
        (LabelsOfBoth first.now first_labels.now second.now second_labels.now count) }
{
    let mut labels = vec![in alloc; 0; count as usize]?;
    label_both(&mut labels, first, first_labels, second, second_labels);
    list_of(alloc, &labels)
}

// Notes for each label the first of these places that has it. The places are gone through from the last one on, so
// that the first stays.
fn note_firsts(firsts: &mut [u16], labels: &[u16], places: &[u16])
    requires inside { (k : ℕ) → k < length places.now → slice_index places.now k < length labels.now }
    requires labels { (k : ℕ) → k < length places.now
        → slice_index labels.now (slice_index places.now k) < length firsts.old }
    requires few { length places.now ≤ NODES }
    ensures { (k : ℕ) → k < length places.now → FirstAt labels.now places.now k
        (slice_index firsts.new (slice_index labels.now (slice_index places.now k))) }
{
    for k in (0..places.len()).rev() {
        let label = labels[places[k] as usize];
        firsts[label as usize] = k as u16;
    }
}

// The labels of these places alone, by what is noted of their labels.
fn spread_firsts(row: &mut [u16], firsts: &[u16], labels: &[u16], places: &[u16])
    requires room { length row.old ≡ length places.now }
    requires inside { (k : ℕ) → k < length places.now → slice_index places.now k < length labels.now }
    requires labels { (k : ℕ) → k < length places.now
        → slice_index labels.now (slice_index places.now k) < length firsts.now }
    ensures len { length row.new ≡ length places.now }
    ensures told { (k : ℕ) → k < length places.now → slice_index row.new k
        ≡ slice_index firsts.now (slice_index labels.now (slice_index places.now k)) }
{
    for k in 0..places.len() {
        let label = labels[places[k] as usize];
        row[k] = firsts[label as usize];
    }
}

// The bytes of the labels of these places alone, by what is noted of their labels: two for each, the higher one first.
fn spread_words(row: &mut [u8], firsts: &[u16], labels: &[u16], places: &[u16])
    requires room { length row.old ≡ 2 * length places.now }
    requires inside { (k : ℕ) → k < length places.now → slice_index places.now k < length labels.now }
    requires labels { (k : ℕ) → k < length places.now
        → slice_index labels.now (slice_index places.now k) < length firsts.now }
    ensures { row.new ≡ words (map (λ p. slice_index firsts.now (slice_index labels.now p)) places.now) }
{
    for k in 0..places.len() {
        let label = labels[places[k] as usize];
        let first = firsts[label as usize];
        row[2 * k] = (first / 256) as u8;
        row[2 * k + 1] = (first % 256) as u8;
    }
}

// The labels of these places alone. There is room for them, and for a note on each label.
fn label_at(row: &mut [u16], firsts: &mut [u16], labels: &[u16], places: &[u16])
    requires room { length row.old ≡ length places.now }
    requires notes { length firsts.old ≡ length labels.now }
    requires inside { (k : ℕ) → k < length places.now → slice_index places.now k < length labels.now }
    requires below { (k : ℕ) → k < length labels.now → slice_index labels.now k ≤ k }
    requires few { length places.now ≤ NODES }
    ensures { LabelsRestrict labels.now places.now row.new }
{
    note_firsts(firsts, labels, places);
    spread_firsts(row, firsts, labels, places);
}

// The same as bytes.
pub(crate) fn label_words(row: &mut [u8], firsts: &mut [u16], labels: &[u16], places: &[u16])
    requires room { length row.old ≡ 2 * length places.now }
    requires notes { length firsts.old ≡ length labels.now }
    requires inside { (k : ℕ) → k < length places.now → slice_index places.now k < length labels.now }
    requires below { (k : ℕ) → k < length labels.now → slice_index labels.now k ≤ k }
    requires few { length places.now ≤ NODES }
    ensures { WordsAt labels.now places.now row.new }
{
    note_firsts(firsts, labels, places);
    spread_words(row, firsts, labels, places);
}

// A list of these numbers.
fn list_of(alloc: Global, numbers: &[u16]) -> Result<NodeList, Memory>
    ensures { IfOk result (λ list. list ≡ numbers.now) }
{
    let mut list = NodeList::with_capacity(alloc, numbers.len())?;
    for number in numbers {
        list.push(NodeId(*number))?;
    }
    Ok(list)
}

// The labels of these places in a list of their own.
pub(crate) fn labels_at(alloc: Global, labels: &[u16], places: &[u16]) -> Result<NodeList, Memory>
    requires inside { (k : ℕ) → k < length places.now → slice_index places.now k < length labels.now }
    requires below { (k : ℕ) → k < length labels.now → slice_index labels.now k ≤ k }
    requires few { length places.now ≤ NODES }
    ensures { IfOk result (LabelsRestrict labels.now places.now) }
{
    let mut row = vec![in alloc; 0; places.len()]?;
    let mut firsts = vec![in alloc; 0; labels.len()]?;
    label_at(&mut row, &mut firsts, labels, places);
    list_of(alloc, &row)
}

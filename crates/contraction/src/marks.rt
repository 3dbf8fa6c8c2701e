//! Rows of marks.
ghost use Rattle.std.specs.Prelude.{◌≡◌, ◌≢◌, ℕ, ◌<◌, ◌≤◌, ◌↔◌, length, slice_get, slice_index, get_or, Some, true, false};
ghost use Rattle.std.specs.Prelude.{replicate, IfOk, IsTrue};
ghost use Rattle.contraction.specs.Merging.{Noted, MarkedInEither, AreMarkedClasses, MarksOfBoth};
ghost use Rattle.contraction.specs.Restricting.{MarksAt, FlagsAt};
ghost use Rattle.contraction.specs.Rows.{flag};

use crate::bytes::byte_of;
use ilk_base::Memory;
use std::alloc::Global;

// Notes the classes of the marked entries.
#[inline(always)]
fn note(classes: &mut [bool], labels: &[u16], places: &[u16], marks: &[bool])
    requires len { length marks.now ≡ length places.now }
    requires inside { (k : ℕ) → k < length places.now
        → slice_index labels.now (slice_index places.now k) < length classes.old }
    requires places { (k : ℕ) → k < length places.now → slice_index places.now k < length labels.now }
    ensures { Noted labels.now places.now marks.now (length places.now) classes.old classes.new }
{
    for i in 0..places.len() {
        if marks[i] {
            let class = labels[places[i] as usize] as usize;
            classes[class] = true;
        }
    }
}

// Notes the classes of the marked entries of both rows.
#[inline(always)]
fn note_both(
    classes: &mut [bool],
    labels: &[u16],
    first: &[u16],
    first_marks: &[bool],
    second: &[u16],
    second_marks: &[bool],
)
    requires none { classes.old ≡ replicate (length labels.now) false }
    requires first_len { length first_marks.now ≡ length first.now }
    requires second_len { length second_marks.now ≡ length second.now }
    requires first_in { (k : ℕ) → k < length first.now → slice_index first.now k < length labels.now }
    requires second_in { (k : ℕ) → k < length second.now → slice_index second.now k < length labels.now }
    requires below { (k : ℕ) → k < length labels.now → slice_index labels.now k ≤ k }
    ensures { (c : ℕ) → c < length labels.now → (slice_get classes.new c ≡ Some true)
        ↔ MarkedInEither labels.now first.now first_marks.now (length first.now) second.now second_marks.now
        (length second.now) c }
{
    note(classes, labels, first, first_marks);
    note(classes, labels, second, second_marks);
}

// For each place whether its class is noted.
fn spread(alloc: Global, classes: &[bool], labels: &[u16]) -> Result<Vec<bool>, Memory>
    requires { (k : ℕ) → k < length labels.now → slice_index labels.now k < length classes.now }
    ensures len { IfOk result (λ marks. length marks.items ≡ length labels.now) }
    ensures marks { IfOk result (λ marks. (k : ℕ) → k < length labels.now
        → slice_get marks.items k ≡ slice_get classes.now (slice_index labels.now k)) }
{
    let mut marks = Vec::with_capacity(alloc, labels.len())?;
    for k in 0..labels.len() {
        marks.push(classes[labels[k] as usize])?;
    }
    Ok(marks)
}

// For each of these places whether its class is noted, into a row that has room for them.
fn spread_at(row: &mut [bool], classes: &[bool], labels: &[u16], places: &[u16])
    requires room { length row.old ≡ length places.now }
    requires labels { (k : ℕ) → k < length places.now
        → slice_index labels.now (slice_index places.now k) < length classes.now }
    requires places { (k : ℕ) → k < length places.now → slice_index places.now k < length labels.now }
    ensures len { length row.new ≡ length places.now }
    ensures marks { (k : ℕ) → k < length places.now → slice_get row.new k
        ≡ slice_get classes.now (slice_index labels.now (slice_index places.now k)) }
{
    for k in 0..places.len() {
        row[k] = classes[labels[places[k] as usize] as usize];
    }
}

// For each of these places the byte of whether its class is noted, into a row that has room for them.
fn spread_flags(row: &mut [u8], classes: &[bool], labels: &[u16], places: &[u16])
    requires room { length row.old ≡ length places.now }
    requires labels { (k : ℕ) → k < length places.now
        → slice_index labels.now (slice_index places.now k) < length classes.now }
    requires places { (k : ℕ) → k < length places.now → slice_index places.now k < length labels.now }
    ensures len { length row.new ≡ length places.now }
    ensures flags { (k : ℕ) → k < length places.now → slice_index row.new k
        ≡ flag (get_or classes.now (slice_index labels.now (slice_index places.now k)) false) }
{
    for k in 0..places.len() {
        row[k] = byte_of(classes[labels[places[k] as usize] as usize]);
    }
}

// Whether no entry is marked.
#[inline(always)]
pub(crate) fn none_marked(marks: &[bool]) -> bool
    ensures { IsTrue result → (k : ℕ) → slice_get marks.now k ≢ Some true }
{
    for mark in marks {
        if *mark {
            return false;
        }
    }
    true
}

// For each class whether an entry of it is marked in one of both rows.
fn marked_classes(
    alloc: Global,
    labels: &[u16],
    first: &[u16],
    first_marks: &[bool],
    second: &[u16],
    second_marks: &[bool],
) -> Result<Vec<bool>, Memory>
    requires first_len { length first_marks.now ≡ length first.now }
    requires second_len { length second_marks.now ≡ length second.now }
    requires first_in { (k : ℕ) → k < length first.now → slice_index first.now k < length labels.now }
    requires second_in { (k : ℕ) → k < length second.now → slice_index second.now k < length labels.now }
    requires below { (k : ℕ) → k < length labels.now → slice_index labels.now k ≤ k }
    ensures { IfOk result (λ classes.
        AreMarkedClasses labels.now first.now first_marks.now second.now second_marks.now classes.items) }
{
    let mut classes = vec![in alloc; false; labels.len()]?;
    note_both(
        &mut classes,
        labels,
        first,
        first_marks,
        second,
        second_marks,
    );
    Ok(classes)
}

// The marks of the places of a merged list, from the marks of both lists: a place is marked where an
// entry of its class was.
pub(crate) fn marks_of_both(
    alloc: Global,
    labels: &[u16],
    first: &[u16],
    first_marks: &[bool],
    second: &[u16],
    second_marks: &[bool],
) -> Result<Vec<bool>, Memory>
    requires first_len { length first_marks.now ≡ length first.now }
    requires second_len { length second_marks.now ≡ length second.now }
    requires first_in { (k : ℕ) → k < length first.now → slice_index first.now k < length labels.now }
    requires second_in { (k : ℕ) → k < length second.now → slice_index second.now k < length labels.now }
    requires below { (k : ℕ) → k < length labels.now → slice_index labels.now k ≤ k }
    ensures { IfOk result (λ marks.
        MarksOfBoth labels.now first.now first_marks.now second.now second_marks.now marks.items) }
{
    let classes = marked_classes(alloc, labels, first, first_marks, second, second_marks)?;
    spread(alloc, &classes, labels)
}

// The marks of these of the places of a merged list. There is room for them, and for a mark of each class, of which
// none is set.
fn mark_at(
    row: &mut [bool],
    classes: &mut [bool],
    labels: &[u16],
    places: &[u16],
    first: &[u16],
    first_marks: &[bool],
    second: &[u16],
    second_marks: &[bool],
)
    requires room { length row.old ≡ length places.now }
    requires none { classes.old ≡ replicate (length labels.now) false }
    requires places { (k : ℕ) → k < length places.now → slice_index places.now k < length labels.now }
    requires first_len { length first_marks.now ≡ length first.now }
    requires second_len { length second_marks.now ≡ length second.now }
    requires first_in { (k : ℕ) → k < length first.now → slice_index first.now k < length labels.now }
    requires second_in { (k : ℕ) → k < length second.now → slice_index second.now k < length labels.now }
    requires below { (k : ℕ) → k < length labels.now → slice_index labels.now k ≤ k }
    ensures { MarksAt labels.now places.now first.now first_marks.now second.now second_marks.now row.new }
{
    note_both(classes, labels, first, first_marks, second, second_marks);
    spread_at(row, classes, labels, places);
}

// The same in a list of its own.
pub(crate) fn marks_at(
    alloc: Global,
    labels: &[u16],
    places: &[u16],
    first: &[u16],
    first_marks: &[bool],
    second: &[u16],
    second_marks: &[bool],
) -> Result<Vec<bool>, Memory>
    requires places { (k : ℕ) → k < length places.now → slice_index places.now k < length labels.now }
    requires first_len { length first_marks.now ≡ length first.now }
    requires second_len { length second_marks.now ≡ length second.now }
    requires first_in { (k : ℕ) → k < length first.now → slice_index first.now k < length labels.now }
    requires second_in { (k : ℕ) → k < length second.now → slice_index second.now k < length labels.now }
    requires below { (k : ℕ) → k < length labels.now → slice_index labels.now k ≤ k }
    ensures { IfOk result (λ marks.
        MarksAt labels.now places.now first.now first_marks.now second.now second_marks.now marks.items) }
{
    let mut row = vec![in alloc; false; places.len()]?;
    let mut classes = vec![in alloc; false; labels.len()]?;
    mark_at(
        &mut row,
        &mut classes,
        labels,
        places,
        first,
        first_marks,
        second,
        second_marks,
    );
    Ok(row)
}

// The same as bytes, into a row that has room for them.
pub(crate) fn flag_at(
    row: &mut [u8],
    classes: &mut [bool],
    labels: &[u16],
    places: &[u16],
    first: &[u16],
    first_marks: &[bool],
    second: &[u16],
    second_marks: &[bool],
)
    requires room { length row.old ≡ length places.now }
    requires none { classes.old ≡ replicate (length labels.now) false }
    requires places { (k : ℕ) → k < length places.now → slice_index places.now k < length labels.now }
    requires first_len { length first_marks.now ≡ length first.now }
    requires second_len { length second_marks.now ≡ length second.now }
    requires first_in { (k : ℕ) → k < length first.now → slice_index first.now k < length labels.now }
    requires second_in { (k : ℕ) → k < length second.now → slice_index second.now k < length labels.now }
    requires below { (k : ℕ) → k < length labels.now → slice_index labels.now k ≤ k }
    ensures { FlagsAt labels.now places.now first.now first_marks.now second.now second_marks.now row.new }
{
    note_both(classes, labels, first, first_marks, second, second_marks);
    spread_flags(row, classes, labels, places);
}

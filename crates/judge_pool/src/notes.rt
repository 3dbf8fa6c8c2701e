//! Notes of batches, found again without a hash: the batches of one value are noted mostly one after another, as the
//! layers that have the value come, so a few looks back from the last of them find each.
ghost use Rattle.std.specs.Prelude.{◌≡◌, [], IfSome, IfOk, OnOk, IsTrue};
ghost use Rattle.judge_pool.specs.declared.pool.Pool.{Pool as AnyPool};
ghost use Rattle.judge_pool.specs.Pooling.{HasBatch, NotesAreRight, noted};

use crate::batch::Batch;
use crate::seats::make_seat;
use ilk_base::Memory;
use std::alloc::Global;

// A batch and where it begins, and one more than the place of the note before it of the same value, or 0.
#[derive(Clone, Copy)]
pub(crate) struct Note {
    pub(crate) first: u32,
    pub(crate) letters: u32,
    pub(crate) keep: u32,
    pub(crate) start: u32,
    pub(crate) before: u32,
}

// The notes, as they came; and for each value one more than the place of its last note, or 0. Where to look is no more
// than a guess: each note says of which batch it is.
#[derive(Drop)]
pub(crate) struct BatchNotes {
    pub(crate) list: Vec<Note>,
    pub(crate) latest: Vec<usize>,
}

// The number in 32 bits. There is no room for a number that has more.
fn narrow(number: usize) -> Result<u32, Memory>
    ensures { IfOk result (λ n. n ≡ number) }
{
    if number > u32::MAX as usize {
        return Err(Memory);
    }
    Ok(number as u32)
}

// Whether the note is of this batch.
fn is_of(note: Note, batch: Batch) -> bool
    ensures { IsTrue result → noted note ≡ batch }
{
    let same_first = note.first as usize == batch.first;
    let same_letters = note.letters as usize == batch.letters;
    same_first && same_letters && note.keep as usize == batch.keep
}

// Where the batch begins, if it is noted, looked for from this note back: its place is one less, and 0 is none.
fn look_back(list: &[Note], latest: usize, batch: Batch) -> Option<usize>
    ensures { (p : AnyPool) → NotesAreRight p list.now → IfSome result (HasBatch p batch) }
{
    let mut next = latest;
    'notes: while next > 0 && next <= list.len() {
        let note = list[next - 1];
        if is_of(note, batch) {
            return Some(note.start as usize);
        }
        let before = note.before as usize;
        if before >= next {
            return None;
        }
        next = before;
    }
    None
}

impl BatchNotes {
    // No notes.
    pub(crate) fn new(alloc: Global) -> BatchNotes
        ensures empty { result.list.items ≡ [] }
    {
        BatchNotes {
            list: Vec::new(alloc),
            latest: Vec::new(alloc),
        }
    }

    // Where the batch begins, if it is noted.
    pub(crate) fn find(&self, batch: Batch) -> Option<usize>
        ensures { (p : AnyPool) → NotesAreRight p self.now.list.items → IfSome result (HasBatch p batch) }
    {
        let latest = self.latest.get(batch.first);
        look_back(&self.list, *latest.unwrap_or(&0), batch)
    }

    // Notes where the batch begins.
    pub(crate) fn note(&mut self, batch: Batch, start: usize) -> Result<(), Memory>
        ensures { OnOk result ((p : AnyPool) → NotesAreRight p self.old.list.items → HasBatch p batch start
            → NotesAreRight p self.new.list.items) }
    {
        make_seat(&mut self.latest, batch.first)?;
        let note = Note {
            first: narrow(batch.first)?,
            letters: narrow(batch.letters)?,
            keep: narrow(batch.keep)?,
            start: narrow(start)?,
            before: narrow(self.latest[batch.first])?,
        };
        self.list.push(note)?;
        self.latest[batch.first] = self.list.len();
        Ok(())
    }

    // Forgets all of them.
    pub(crate) fn clear(&mut self)
        ensures empty { self.new.list.items ≡ [] }
    {
        self.list.clear();
        self.latest.clear();
    }
}

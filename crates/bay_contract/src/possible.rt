//! Which indices are possible where words tell of the positions.
ghost use Rattle.std.specs.Prelude.{◌≡◌, ℕ, ◌+◌, ◌^◌, ◌<◌, ◌≤◌, ◌↔◌, drop, length};
ghost use Rattle.std.specs.Prelude.{slice_get, IfOk, IsTrue, MatchOption};
ghost use Rattle.bay_contract.specs.Paths.{NotesOne, NotesBoth, PathsTo, LeadsBack, MayLead, IsWay};
ghost use Rattle.part_alphabets.specs.Alphabets.{KeepsPosition, InSet};

use crate::alphabet::Alphabet;
use double_points::{Readings, agrees};
use ilk_base::Memory;
use part_alphabets::Fork;
use std::alloc::Global;
use std::marker::Model;

/// A set of indices of a part, each with a position of the part. It is seen as a list with a place for each
/// index: the position of an index that is in the set.
#[derive(Drop)]
pub struct IndexSet {
    positions: Vec<Option<u32>>,
}

impl Model for IndexSet {
    ghost use Rattle.std.specs.Prelude.{ℕ, List, Option};

    ghost Value = { List (Option ℕ) };

    ghost view = { λ s. s.positions.items };
}

impl IndexSet {
    /// The position of the index, as bits: bit i is 1 where switch i of the part is closed; none exactly
    /// where the index is not in the set. At once; takes no memory.
    pub fn position(&self, index: u8) -> Option<u32>
        ensures { MatchOption result (¬ InSet self.now index) (KeepsPosition self.now index) }
    {
        let place = index as usize;
        if place < self.positions.len() {
            self.positions[place]
        } else {
            None
        }
    }

    /// Whether the index is in the set, at once. Takes no memory.
    pub fn holds(&self, index: u8) -> bool
        ensures { IsTrue result ↔ InSet self.now index }
    {
        self.position(index).is_some()
    }
}

// Notes the position at this number, where the answer is yes.
fn note(paths: &mut [Option<u32>], at: usize, yes: bool, position: u32)
    requires { at < length paths.old }
    ensures { NotesOne yes at position paths.old paths.new }
{
    if yes {
        paths[at] = Some(position);
    }
}

// Notes where the step leads in each position that agrees with the word of its switch.
fn note_fork(fork: Fork, readings: &Readings, position: u32, bit: u32, paths: &mut [Option<u32>])
    requires switch { fork.switch.0 < length readings.now }
    requires off { fork.off < length paths.old }
    requires on { fork.on < length paths.old }
    requires room { position + bit < 2 ^ 32 }
    ensures { NotesBoth fork readings.now position bit paths.old paths.new }
{
    let word = readings.word(fork.switch);
    let open = agrees(word, false);
    let closed = agrees(word, true);
    note(paths, fork.off as usize, open, position);
    note(paths, fork.on as usize, closed, position + bit);
}

// So many numbers without a position.
fn unnoted(alloc: Global, count: usize) -> Result<Vec<Option<u32>>, Memory>
    ensures count { IfOk result (λ m. length m.items ≡ count) }
    ensures bare { IfOk result (λ m. (t p : ℕ) → LeadsBack m.items t p → ⊥) }
{
    let mut paths = Vec::new(alloc);
    'numbers: while paths.len() < count {
        paths.push(None)?;
    }
    Ok(paths)
}

// The positions that are noted at the indices, which are numbered behind so many steps.
fn noted(alloc: Global, paths: &[Option<u32>], steps: usize) -> Result<IndexSet, Memory>
    requires { steps ≤ length paths.now }
    ensures { IfOk result (λ s. s ≡ drop steps paths.now) }
{
    let positions = Vec::from_slice(alloc, &paths[steps..])?;
    Ok(IndexSet { positions })
}

impl Alphabet {
    // Goes over one step: notes where it may lead, where a position leads to it.
    fn pass(&self, i: usize, readings: &Readings, paths: &mut [Option<u32>])
        requires readings { length readings.now ≡ self.now.switches }
        requires place { i < length self.now.forks }
        requires paths { PathsTo self.now readings.now i paths.old }
        ensures { PathsTo self.now readings.now (i + 1) paths.new }
    {
        if let Some(position) = paths[i] {
            let fork = self.forks[i];
            let bit = 1u32 << (fork.switch.0 - self.first);
            note_fork(fork, readings, position, bit, paths);
        }
    }

    // For each step and each index a position that leads there and agrees with the words, if there is
    // one. Time and memory: the steps.
    pub(crate) fn paths(
        &self,
        alloc: Global,
        readings: &Readings,
    ) -> Result<Vec<Option<u32>>, Memory>
        requires { length readings.now ≡ self.now.switches }
        ensures { IfOk result (λ m. PathsTo self.now readings.now (length self.now.forks) m.items) }
    {
        let mut paths = unnoted(alloc, self.forks.len() + self.letters.len())?;
        paths[0] = Some(0);
        'steps: for i in 0..self.forks.len() {
            self.pass(i, readings, &mut paths);
        }
        Ok(paths)
    }

    // Exactly the indices of positions that agree with the words, each with such a position. Time and
    // memory: the steps.
    pub(crate) fn possible(&self, alloc: Global, readings: &Readings) -> Result<IndexSet, Memory>
        requires { length readings.now ≡ self.now.switches }
        ensures count { IfOk result (λ s. length s ≡ length self.now.letters) }
        ensures exact { IfOk result (λ s. (i : ℕ) → InSet s i ↔ MayLead self.now readings.now i) }
        ensures placed { IfOk result (λ s. (i p : ℕ) → KeepsPosition s i p → IsWay self.now readings.now i p) }
    {
        let paths = self.paths(alloc, readings)?;
        let set = noted(alloc, &paths, self.forks.len())?;
        Ok(set)
    }
}

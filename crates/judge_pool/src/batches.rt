//! Compositions of values of a pool, by batches, each made once until all of them are forgotten.
ghost use Rattle.std.specs.Prelude.{◌≡◌, ℕ, ◌+◌, ◌<◌, ◌≤◌, ◌⊎◌, ◌↔◌, length, map, slice_get, Some};
ghost use Rattle.std.specs.Prelude.{IfOk, IfSome, OnOk, Contains, IsTrue};
ghost use Rattle.contraction.specs.Answers.{Keeps};
ghost use Rattle.judge_pool.specs.declared.pool.Pool.{Pool as AnyPool};
ghost use Rattle.judge_pool.specs.Seen.{ComposesIn};
ghost use Rattle.judge_pool.specs.Pooling.{IsPool, GrewTo, Selects, SelectsFor, IsRowOfBoth, CanCompose, LettersFit};
ghost use Rattle.judge_pool.specs.Pooling.{WasMade, MakesEach, HasBatch, NotesAreRight};
ghost use Rattle.judge_pool.specs.Numbered.{letter_lists};
ghost use Rattle.judge_pool.specs.Pooling.{IsRowIn, IsToldBy, SelectsAll};

use crate::batch::{Batch, Made};
use crate::pool::Pool;
use crate::view::View;
use contraction::{Contraction, EmptyViews, Selection};
use ilk_base::{Memory, Text};
use station_graph::NodeList;
use std::alloc::Global;
use std::collections::hash_map::Entry;

// So many compositions are held in batches, and not many more.
const MANY: usize = 2_000_000;

// The row of the composition of two values in this view, on a selection of their nodes.
fn composed_row(
    alloc: Global,
    view: View,
    x: &Contraction,
    y: &Contraction,
    selection: &Selection,
) -> Result<Text, Memory>
    requires first { selection.now.first ≡ x.now.kept }
    requires second { selection.now.second ≡ y.now.kept }
    requires nodes { (n : ℕ) → Contains selection.now.nodes n → Keeps x.now.kept n ⊎ Keeps y.now.kept n }
    ensures { IfOk result (IsRowOfBoth view selection.now.nodes x.now y.now) }
{
    match view {
        View::Gap => x.composed_gap_row(alloc, y, selection),
        View::Load => x.composed_load_row(alloc, y, selection),
    }
}

// Whether the second value adds nothing to the first in this view, on a selection of just the nodes of the first.
fn adds_nothing(view: View, x: &Contraction, y: &Contraction, selection: &Selection) -> bool
    requires first { selection.now.first ≡ x.now.kept }
    requires second { selection.now.second ≡ y.now.kept }
    requires nodes { (n : ℕ) → Contains selection.now.nodes n → Keeps x.now.kept n ⊎ Keeps y.now.kept n }
    ensures composes { IsTrue result → ComposesIn view x.now y.now x.now }
    ensures kept { IsTrue result → (n : ℕ) → Keeps x.now.kept n ↔ Contains selection.now.nodes n }
{
    match view {
        View::Gap => x.gap_stays_with(y, selection),
        View::Load => x.load_stays_with(y, selection),
    }
}

// The value that the row tells in this view. Its kept nodes are those at hand, if they are the same, and its other view
// is that at hand, if it is on as many nodes.
fn value_of(
    alloc: Global,
    view: View,
    row: &Text,
    held: &mut Option<EmptyViews>,
) -> Result<Contraction, Memory>
    requires { IsRowIn view row.now }
    ensures { IfOk result (IsToldBy view row.now) }
{
    match view {
        View::Gap => Contraction::of_gap_row(alloc, row, held),
        View::Load => Contraction::of_load_row(alloc, row, held),
    }
}

impl Pool {
    // Where the batch of the value with these letters, which have the number, begins. It is made where it is not noted,
    // in a list that serves each batch; on one selection where there is one for all its compositions.
    pub(crate) fn batch(
        &mut self,
        alloc: Global,
        ids: &mut Vec<usize>,
        first: usize,
        letters: &[usize],
        number: usize,
        keep: usize,
        shared: &Option<Box<Selection>>,
    ) -> Result<usize, Memory>
        requires pool { IsPool self.old }
        requires letters { slice_get (letter_lists self.old) number ≡ Some letters.now }
        requires some { 0 < length letters.now }
        requires fit { LettersFit self.old (record { first = first; letters = number; keep = keep }) letters.now }
        requires shared { IfSome shared.now (λ s. SelectsAll self.old
            (record { first = first; letters = number; keep = keep }) letters.now s.value) }
        ensures grew { OnOk result (GrewTo self.old self.new) }
        ensures batch { IfOk result (HasBatch self.new (record { first = first; letters = number; keep = keep })) }
        ensures ends { IfOk result (λ start. start + length letters.now ≤ length self.new.made.items) }
    {
        let batch = Batch {
            first,
            letters: number,
            keep,
        };
        if let Some(start) = self.notes.find(batch) {
            return Ok(start);
        }
        self.forget_batches();
        let start = self.make_batch(alloc, ids, batch, letters, shared)?;
        self.notes.note(batch, start)?;
        Ok(start)
    }

    // Forgets all batches where they are many. Those that come again mostly come soon, so it costs little time.
    fn forget_batches(&mut self)
        requires { IsPool self.old }
        ensures { GrewTo self.old self.new }
    {
        if self.made.len() < MANY {
            return;
        }
        self.notes.clear();
        self.made.clear();
    }

    // Composes the batch, and puts it behind the others.
    fn make_batch(
        &mut self,
        alloc: Global,
        ids: &mut Vec<usize>,
        batch: Batch,
        letters: &[usize],
        shared: &Option<Box<Selection>>,
    ) -> Result<usize, Memory>
        requires pool { IsPool self.old }
        requires letters { slice_get (letter_lists self.old) batch.letters ≡ Some letters.now }
        requires fit { LettersFit self.old batch letters.now }
        requires shared { IfSome shared.now (λ s. SelectsAll self.old batch letters.now s.value) }
        ensures grew { OnOk result (GrewTo self.old self.new) }
        ensures batch { IfOk result (HasBatch self.new batch) }
    {
        self.compose_all(alloc, ids, batch, letters, shared)?;
        let held = self.made.as_slice();
        let start = held.len();
        self.made.extend_from_slice(ids)?;
        Ok(start)
    }

    // Makes the list that of the numbers of what the value and each letter of the batch make together, in order.
    fn compose_all(
        &mut self,
        alloc: Global,
        ids: &mut Vec<usize>,
        batch: Batch,
        letters: &[usize],
        shared: &Option<Box<Selection>>,
    ) -> Result<(), Memory>
        requires pool { IsPool self.old }
        requires fit { LettersFit self.old batch letters.now }
        requires shared { IfSome shared.now (λ s. SelectsAll self.old batch letters.now s.value) }
        ensures grew { OnOk result (GrewTo self.old self.new) }
        ensures made { OnOk result (MakesEach self.new batch letters.now ids.new.items) }
    {
        match shared {
            Some(selection) => self.compose_on(alloc, ids, batch, letters, selection),
            None => self.compose_each(alloc, ids, batch, letters),
        }
    }

    // The same on one selection for all of them.
    fn compose_on(
        &mut self,
        alloc: Global,
        ids: &mut Vec<usize>,
        batch: Batch,
        letters: &[usize],
        selection: &Selection,
    ) -> Result<(), Memory>
        requires pool { IsPool self.old }
        requires fit { LettersFit self.old batch letters.now }
        requires selects { SelectsAll self.old batch letters.now selection.now }
        ensures grew { OnOk result (GrewTo self.old self.new) }
        ensures made { OnOk result (MakesEach self.new batch letters.now ids.new.items) }
    {
        ids.clear();
        'letters: for c in 0..letters.len() {
            let key = Made {
                first: batch.first,
                second: letters[c],
                keep: batch.keep,
            };
            let id = self.find_or_make(alloc, key, selection)?;
            ids.push(id)?;
        }
        Ok(())
    }

    // The same, letter by letter.
    fn compose_each(
        &mut self,
        alloc: Global,
        ids: &mut Vec<usize>,
        batch: Batch,
        letters: &[usize],
    ) -> Result<(), Memory>
        requires pool { IsPool self.old }
        requires fit { LettersFit self.old batch letters.now }
        ensures grew { OnOk result (GrewTo self.old self.new) }
        ensures made { OnOk result (MakesEach self.new batch letters.now ids.new.items) }
    {
        ids.clear();
        'letters: for c in 0..letters.len() {
            let key = Made {
                first: batch.first,
                second: letters[c],
                keep: batch.keep,
            };
            let id = self.compose(alloc, key)?;
            ids.push(id)?;
        }
        Ok(())
    }

    // The number of the value that stands for both together, on these of their nodes.
    fn compose(&mut self, alloc: Global, key: Made) -> Result<usize, Memory>
        requires pool { IsPool self.old }
        requires fits { CanCompose self.old key }
        ensures grew { OnOk result (GrewTo self.old self.new) }
        ensures made { IfOk result (λ t. WasMade self.new.view self.new.values.items self.new.keeps.items key t) }
    {
        let selection = self.select(alloc, key)?;
        let place = self.find_or_make(alloc, key, &selection)?;
        self.selection = Some(selection);
        Ok(place)
    }

    // The number of the value that two values on this selection of their nodes make together. Where the second adds
    // nothing it is the first; where the pool has it, its row tells it, and it is not made; else it is read from the
    // row.
    fn find_or_make(
        &mut self,
        alloc: Global,
        key: Made,
        selection: &Selection,
    ) -> Result<usize, Memory>
        requires pool { IsPool self.old }
        requires fits { CanCompose self.old key }
        requires selection { SelectsFor self.old key selection.now }
        ensures grew { OnOk result (GrewTo self.old self.new) }
        ensures made { IfOk result (λ t. WasMade self.new.view self.new.values.items self.new.keeps.items key t) }
    {
        let x = &self.values[key.first];
        let y = &self.values[key.second];
        if adds_nothing(self.view, x, y, selection) {
            return Ok(key.first);
        }
        let row = composed_row(alloc, self.view, x, y, selection)?;
        match self.index.entry(row)? {
            Entry::Occupied(entry) => Ok(*entry.get()),
            Entry::Vacant(entry) => {
                let value = value_of(alloc, self.view, entry.key(), &mut self.empty_views)?;
                let place = self.values.len();
                self.values.push(value)?;
                entry.insert(place);
                Ok(place)
            }
        }
    }
}

//! How the nodes of a layer lie. Layers whose nodes lie alike among one another are one, whatever nodes these are: so
//! the states and letters of each are put on places of the nodes of both, and what comes behind is put back.
ghost use Rattle.std.specs.Prelude.{◌≡◌, ◌⊎◌, ◌<◌, ℕ, List, length, slice_get, Some, IfOk, OnOk, IsTrue, Contains};
ghost use Rattle.contraction.specs.Answers.{Keeps, AreNodes};
ghost use Rattle.contraction.specs.Selecting.{ArePlaced};
ghost use Rattle.judge_pool.specs.Numbered.{letter_lists};
ghost use Rattle.judge_pool.specs.Pooling.{IsPool, GrewTo, KeepAlike};
ghost use Rattle.judge_pool.specs.Standing.{AreOn};
ghost use Rattle.judge_pool.specs.Lying.{IsLying, AllKeepAs, HasNumbers, LettersReach, StatesFit};

use crate::batch::ListStand;
use crate::pool::Pool;
use contraction::{Contraction, Selection};
use ilk_base::Memory;
use std::alloc::Global;

// The states and letters of a layer with the numbers of their lists, and the list of nodes that is kept behind it, as
// they stand; and the nodes that are kept behind it.
#[derive(Drop)]
pub(crate) struct Lying {
    pub(crate) states: Vec<usize>,
    pub(crate) before: usize,
    pub(crate) letters: Vec<usize>,
    pub(crate) by: usize,
    pub(crate) keep: usize,
    pub(crate) kept: Vec<u16>,
}

// Whether each of the values keeps exactly these nodes.
pub(crate) fn all_keep(values: &[Contraction], ids: &[usize], nodes: &[u16]) -> bool
    requires { (k i : ℕ) → slice_get ids.now k ≡ Some i → i < length values.now }
    ensures { IsTrue result → AllKeepAs values.now ids.now nodes.now }
{
    for k in 0..ids.len() {
        if !values[ids[k]].keeps_just(nodes) {
            return false;
        }
    }
    true
}

impl Pool {
    // Whether the values of these numbers keep the same nodes.
    pub(crate) fn keep_alike(&self, ids: &[usize]) -> bool
        requires { (k i : ℕ) → slice_get ids.now k ≡ Some i → i < length self.now.values.items }
        ensures { IsTrue result → KeepAlike self.now.values.items ids.now }
    {
        match ids.first() {
            Some(id) => all_keep(&self.values, ids, self.values[*id].nodes()),
            None => true,
        }
    }

    // The layer on the places of the nodes of both, where all letters keep the same nodes.
    fn lie_in_places(
        &mut self,
        alloc: Global,
        states: &[usize],
        number: usize,
        row: &[usize],
        selection: &Selection,
    ) -> Result<Lying, Memory>
        requires pool { IsPool self.old }
        requires listed { slice_get (letter_lists self.old) number ≡ Some states.now }
        requires placed { ArePlaced selection.now }
        requires first { AreNodes selection.now.first }
        requires second { AreNodes selection.now.second }
        requires states { StatesFit self.old states.now selection.now.first }
        requires letters { AllKeepAs self.old.values.items row.now selection.now.second }
        requires row_in { (c i : ℕ) → slice_get row.now c ≡ Some i → i < length self.old.values.items }
        requires inside { (n : ℕ) → Contains selection.now.nodes n
            → Keeps selection.now.first n ⊎ Keeps selection.now.second n }
        ensures grew { OnOk result (GrewTo self.old self.new) }
        ensures lies { IfOk result
            (IsLying self.new states.now selection.now.first row.now selection.now.nodes) }
        ensures numbers { IfOk result (HasNumbers self.new) }
    {
        let list = self.note_letters(alloc, row)?;
        let first = self.keep_list(alloc, selection.first_places())?;
        let second = self.keep_list(alloc, selection.second_places())?;
        let keep = self.keep_list(alloc, selection.places())?;
        let here = ListStand {
            list: number,
            keep: first,
        };
        let placed = self.list_on(alloc, states, here)?;
        let there = ListStand { list, keep: second };
        let letters = self.list_on(alloc, row, there)?;
        Ok(Lying {
            states: placed.ids,
            before: placed.number,
            letters: letters.ids,
            by: letters.number,
            keep,
            kept: Vec::from_slice(alloc, selection.kept())?,
        })
    }

    // The layer on its own nodes.
    fn lie_on_nodes(
        &mut self,
        alloc: Global,
        states: &[usize],
        number: usize,
        kept: &[u16],
        row: &[usize],
        keep: usize,
        selection: &Selection,
    ) -> Result<Lying, Memory>
        requires pool { IsPool self.old }
        requires listed { slice_get (letter_lists self.old) number ≡ Some states.now }
        requires placed { ArePlaced selection.now }
        requires kept { kept.now ≡ selection.now.first }
        requires first { AreNodes selection.now.first }
        requires second { AreNodes selection.now.second }
        requires states { StatesFit self.old states.now selection.now.first }
        requires row_in { (c i : ℕ) → slice_get row.now c ≡ Some i → i < length self.old.values.items }
        requires keep { slice_get self.old.keeps.items keep ≡ Some selection.now.nodes }
        requires inside { (n : ℕ) → Contains selection.now.nodes n
            → Keeps selection.now.first n ⊎ Keeps selection.now.second n }
        requires reach { LettersReach self.old row.now selection.now.first selection.now.nodes }
        ensures grew { OnOk result (GrewTo self.old self.new) }
        ensures lies { IfOk result
            (IsLying self.new states.now selection.now.first row.now selection.now.nodes) }
        ensures numbers { IfOk result (HasNumbers self.new) }
    {
        let by = self.note_letters(alloc, row)?;
        let first = self.keep_list(alloc, kept)?;
        let here = ListStand {
            list: number,
            keep: first,
        };
        let placed = self.list_on(alloc, states, here)?;
        Ok(Lying {
            states: placed.ids,
            before: placed.number,
            letters: Vec::from_slice(alloc, row)?,
            by,
            keep,
            kept: Vec::from_slice(alloc, selection.kept())?,
        })
    }

    // How the layer with these states, which stand on the kept nodes, and these letters lies before the nodes of the
    // list. The number is that of the list of the states.
    pub(crate) fn lie(
        &mut self,
        alloc: Global,
        states: &[usize],
        number: usize,
        kept: &[u16],
        row: &[usize],
        keep: usize,
    ) -> Result<Lying, Memory>
        requires pool { IsPool self.old }
        requires listed { slice_get (letter_lists self.old) number ≡ Some states.now }
        requires kept { AreNodes kept.now }
        requires states { StatesFit self.old states.now kept.now }
        requires row_in { (c i : ℕ) → slice_get row.now c ≡ Some i → i < length self.old.values.items }
        requires some { 0 < length row.now }
        requires keep { keep < length self.old.keeps.items }
        requires reach { (nodes : List ℕ) → slice_get self.old.keeps.items keep ≡ Some nodes
            → LettersReach self.old row.now kept.now nodes }
        ensures grew { OnOk result (GrewTo self.old self.new) }
        ensures lies { IfOk result (λ l. (nodes : List ℕ) → slice_get self.old.keeps.items keep ≡ Some nodes
            → IsLying self.new states.now kept.now row.now nodes l) }
        ensures numbers { IfOk result (HasNumbers self.new) }
    {
        let second = self.values[row[0]].nodes();
        let selection = Selection::of(alloc, kept, second, &self.keeps[keep])?;
        let _places = selection.places();
        if all_keep(&self.values, row, second) {
            return self.lie_in_places(alloc, states, number, row, &selection);
        }
        self.lie_on_nodes(alloc, states, number, kept, row, keep, &selection)
    }

    // The states on the kept nodes.
    pub(crate) fn all_back(
        &mut self,
        alloc: Global,
        states: &[usize],
        kept: &[u16],
    ) -> Result<Vec<usize>, Memory>
        requires pool { IsPool self.old }
        requires kept { AreNodes kept.now }
        requires states { StatesFit self.old states.now kept.now }
        ensures grew { OnOk result (GrewTo self.old self.new) }
        ensures back { IfOk result (λ v. (k : ℕ) × (slice_get self.new.keeps.items k ≡ Some kept.now)
            × AreOn self.new k states.now v.items) }
    {
        let list = self.keep_list(alloc, kept)?;
        let placed = self.all_on(alloc, states, list)?;
        Ok(placed)
    }
}

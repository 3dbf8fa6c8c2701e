//! Lists of values on other nodes than their own, each by its number.
ghost use Rattle.std.specs.Prelude.{◌≡◌, ◌<◌, ℕ, length, slice_get, Some, IfOk, IfSome, OnOk};
ghost use Rattle.judge_pool.specs.declared.pool.Pool.{Pool as AnyPool};
ghost use Rattle.judge_pool.specs.Numbered.{letter_lists};
ghost use Rattle.judge_pool.specs.Pooling.{IsPool, GrewTo};
ghost use Rattle.judge_pool.specs.Standing.{AreOn, CanStand, KeepsNodes, ListIsOn, ListStandsAreRight};

use crate::batch::ListStand;
use crate::lists::{list_at, widened};
use crate::lying::all_keep;
use crate::pool::Pool;
use ilk_base::Memory;
use number_hash::NumberMap;
use std::alloc::Global;

// The numbers of values, and the number of the list of these.
#[derive(Drop)]
pub(crate) struct Numbered {
    pub(crate) ids: Vec<usize>,
    pub(crate) number: usize,
}

// The number of the list of the values on these nodes, if it is noted.
fn find_list(notes: &NumberMap<ListStand, usize>, stand: ListStand) -> Option<usize>
    ensures { (p : AnyPool) → ListStandsAreRight p notes.now → IfSome result (ListIsOn p stand.keep stand.list) }
{
    match notes.get(&stand) {
        Some(number) => Some(*number),
        None => None,
    }
}

// Notes the number of the list of the values on these nodes.
fn note_list_stand(
    notes: &mut NumberMap<ListStand, usize>,
    stand: ListStand,
    number: usize,
) -> Result<(), Memory>
    ensures { OnOk result ((p : AnyPool) → ListStandsAreRight p notes.old → ListIsOn p stand.keep stand.list number
        → ListStandsAreRight p notes.new) }
{
    notes.insert(stand, number)?;
    Ok(())
}

impl Pool {
    // Notes that the values of the list stand on these nodes already, where the first of them does. They all keep the
    // same nodes, so the others do too.
    pub(crate) fn note_own_list(&mut self, ids: &[usize], own: ListStand) -> Result<(), Memory>
        requires pool { IsPool self.old }
        requires listed { slice_get (letter_lists self.old) own.list ≡ Some ids.now }
        requires keep { own.keep < length self.old.keeps.items }
        requires kept { (k i : ℕ) → slice_get ids.now k ≡ Some i → KeepsNodes self.old own.keep i }
        ensures { OnOk result (GrewTo self.old self.new) }
    {
        if ids.is_empty() {
            return Ok(());
        }
        let nodes = self.keeps[own.keep].numbers();
        if all_keep(&self.values, &ids[..1], nodes) {
            note_list_stand(&mut self.list_stands, own, own.list)?;
            return Ok(());
        }
        Ok(())
    }

    // The list of this number.
    fn list_again(&self, alloc: Global, number: usize) -> Result<Vec<usize>, Memory>
        requires { number < length (letter_lists self.now) }
        ensures { IfOk result (λ v. slice_get (letter_lists self.now) number ≡ Some v.items) }
    {
        let lists = self.letters.as_slice();
        let list = widened(alloc, list_at(lists, number))?;
        Ok(list)
    }

    // The values of the list on these nodes, made and noted.
    fn new_list_on(
        &mut self,
        alloc: Global,
        ids: &[usize],
        stand: ListStand,
    ) -> Result<Numbered, Memory>
        requires pool { IsPool self.old }
        requires listed { slice_get (letter_lists self.old) stand.list ≡ Some ids.now }
        requires can { (k i : ℕ) → slice_get ids.now k ≡ Some i → CanStand self.old stand.keep i }
        ensures grew { OnOk result (GrewTo self.old self.new) }
        ensures on { IfOk result (λ l. AreOn self.new stand.keep ids.now l.ids.items) }
        ensures noted { IfOk result (λ l. slice_get (letter_lists self.new) l.number ≡ Some l.ids.items) }
    {
        let placed = self.all_on(alloc, ids, stand.keep)?;
        let number = self.note_letters(alloc, &placed)?;
        note_list_stand(&mut self.list_stands, stand, number)?;
        Ok(Numbered {
            ids: placed,
            number,
        })
    }

    // The values of the list on these nodes, one by one.
    pub(crate) fn list_on(
        &mut self,
        alloc: Global,
        ids: &[usize],
        stand: ListStand,
    ) -> Result<Numbered, Memory>
        requires pool { IsPool self.old }
        requires listed { slice_get (letter_lists self.old) stand.list ≡ Some ids.now }
        requires can { (k i : ℕ) → slice_get ids.now k ≡ Some i → CanStand self.old stand.keep i }
        ensures grew { OnOk result (GrewTo self.old self.new) }
        ensures on { IfOk result (λ l. AreOn self.new stand.keep ids.now l.ids.items) }
        ensures noted { IfOk result (λ l. slice_get (letter_lists self.new) l.number ≡ Some l.ids.items) }
    {
        match find_list(&self.list_stands, stand) {
            Some(number) => {
                let placed = self.list_again(alloc, number)?;
                Ok(Numbered {
                    ids: placed,
                    number,
                })
            }
            None => {
                let list = self.new_list_on(alloc, ids, stand)?;
                Ok(list)
            }
        }
    }
}

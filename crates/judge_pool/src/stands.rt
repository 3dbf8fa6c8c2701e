//! Values on other nodes than their own.
ghost use Rattle.std.specs.Prelude.{◌≡◌, ℕ, slice_get, Some, IfOk, IfSome, OnOk, IsTrue};
ghost use Rattle.judge_pool.specs.declared.pool.Pool.{Pool as AnyPool};
ghost use Rattle.judge_pool.specs.Pooling.{IsPool, GrewTo};
ghost use Rattle.judge_pool.specs.Standing.{IsOn, AreOn, CanStand, StandsAreRight};

use crate::batch::Stand;
use crate::lying::all_keep;
use crate::pool::Pool;
use crate::view::row_on;
use contraction::KeptNodes;
use ilk_base::Memory;
use number_hash::NumberMap;
use std::alloc::Global;
use std::collections::hash_map::Entry;

// The value on these nodes, if it is noted.
fn find_stand(notes: &NumberMap<Stand, usize>, stand: Stand) -> Option<usize>
    ensures { (p : AnyPool) → StandsAreRight p notes.now → IfSome result (IsOn p stand.keep stand.id) }
{
    match notes.get(&stand) {
        Some(id) => Some(*id),
        None => None,
    }
}

// Notes the value on these nodes.
fn note_stand(notes: &mut NumberMap<Stand, usize>, stand: Stand, id: usize) -> Result<(), Memory>
    ensures { OnOk result ((p : AnyPool) → StandsAreRight p notes.old → IsOn p stand.keep stand.id id
        → StandsAreRight p notes.new) }
{
    notes.insert(stand, id)?;
    Ok(())
}

impl Pool {
    // The value on these nodes. Where the pool has it, its row tells it, and it is not made; else it holds the list of
    // these nodes at hand.
    fn find_or_place(
        &mut self,
        alloc: Global,
        stand: Stand,
        held: &mut Option<KeptNodes>,
    ) -> Result<usize, Memory>
        requires pool { IsPool self.old }
        requires can { CanStand self.old stand.keep stand.id }
        ensures grew { OnOk result (GrewTo self.old self.new) }
        ensures on { IfOk result (IsOn self.new stand.keep stand.id) }
    {
        let nodes = self.keeps[stand.keep].numbers();
        let value = &self.values[stand.id];
        let row = row_on(alloc, self.view, value, nodes)?;
        match self.index.entry(row)? {
            Entry::Occupied(entry) => Ok(*entry.get()),
            Entry::Vacant(entry) => {
                let placed = value.on_held_nodes(alloc, nodes, held)?;
                let place = self.values.len();
                self.values.push(placed)?;
                entry.insert(place);
                Ok(place)
            }
        }
    }

    // The value on these nodes, found or made, and noted.
    fn new_stand(
        &mut self,
        alloc: Global,
        stand: Stand,
        held: &mut Option<KeptNodes>,
    ) -> Result<usize, Memory>
        requires pool { IsPool self.old }
        requires can { CanStand self.old stand.keep stand.id }
        ensures grew { OnOk result (GrewTo self.old self.new) }
        ensures on { IfOk result (IsOn self.new stand.keep stand.id) }
    {
        let id = self.find_or_place(alloc, stand, held)?;
        note_stand(&mut self.stands, stand, id)?;
        Ok(id)
    }

    // The value on these nodes in place of its own.
    fn stand(
        &mut self,
        alloc: Global,
        stand: Stand,
        held: &mut Option<KeptNodes>,
    ) -> Result<usize, Memory>
        requires pool { IsPool self.old }
        requires can { CanStand self.old stand.keep stand.id }
        ensures grew { OnOk result (GrewTo self.old self.new) }
        ensures on { IfOk result (IsOn self.new stand.keep stand.id) }
    {
        match find_stand(&self.stands, stand) {
            Some(id) => Ok(id),
            None => {
                let id = self.new_stand(alloc, stand, held)?;
                Ok(id)
            }
        }
    }

    // The values of these numbers on the nodes of the list, one by one. Those that are made hold one list of them.
    fn each_on(&mut self, alloc: Global, ids: &[usize], keep: usize) -> Result<Vec<usize>, Memory>
        requires pool { IsPool self.old }
        requires can { (k i : ℕ) → slice_get ids.now k ≡ Some i → CanStand self.old keep i }
        ensures grew { OnOk result (GrewTo self.old self.new) }
        ensures on { IfOk result (λ v. AreOn self.new keep ids.now v.items) }
    {
        let mut placed = Vec::with_capacity(alloc, ids.len())?;
        let mut held = None;
        'values: for c in 0..ids.len() {
            let stand = Stand { id: ids[c], keep };
            let id = self.stand(alloc, stand, &mut held)?;
            placed.push(id)?;
        }
        Ok(placed)
    }

    // Whether the values of these numbers keep the nodes of the list already.
    fn are_on(&self, ids: &[usize], keep: usize) -> bool
        requires can { (k i : ℕ) → slice_get ids.now k ≡ Some i → CanStand self.now keep i }
        ensures { IsTrue result → AreOn self.now keep ids.now ids.now }
    {
        match self.keeps.get(keep) {
            Some(nodes) => all_keep(&self.values, ids, nodes.numbers()),
            None => false,
        }
    }

    // The values of these numbers on the nodes of the list: these themselves where they keep just these nodes.
    pub(crate) fn all_on(
        &mut self,
        alloc: Global,
        ids: &[usize],
        keep: usize,
    ) -> Result<Vec<usize>, Memory>
        requires pool { IsPool self.old }
        requires can { (k i : ℕ) → slice_get ids.now k ≡ Some i → CanStand self.old keep i }
        ensures grew { OnOk result (GrewTo self.old self.new) }
        ensures on { IfOk result (λ v. AreOn self.new keep ids.now v.items) }
    {
        if self.are_on(ids, keep) {
            let same = Vec::from_slice(alloc, ids)?;
            return Ok(same);
        }
        let placed = self.each_on(alloc, ids, keep)?;
        Ok(placed)
    }
}

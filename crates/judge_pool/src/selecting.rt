//! Selections of the nodes of compositions.
ghost use Rattle.std.specs.Prelude.{◌≡◌, ℕ, ◌<◌, length, slice_get, Some, IfOk, IfSome, OnOk};
ghost use Rattle.judge_pool.specs.Pooling.{IsPool, GrewTo, CanCompose, CanComposeEach, SelectsFor, SelectsEach};

use crate::batch::Made;
use crate::pool::Pool;
use contraction::Selection;
use ilk_base::Memory;
use std::alloc::Global;

impl Pool {
    // The selection for each of the states with each of the letters, where all states keep the same nodes, and so do all
    // letters.
    pub(crate) fn select_all(
        &mut self,
        alloc: Global,
        states: &[usize],
        letters: &[usize],
        keep: usize,
    ) -> Result<Option<Box<Selection>>, Memory>
        requires pool { IsPool self.old }
        requires states { (k i : ℕ) → slice_get states.now k ≡ Some i → i < length self.old.values.items }
        requires letters { (c j : ℕ) → slice_get letters.now c ≡ Some j → j < length self.old.values.items }
        requires fit { CanComposeEach self.old states.now letters.now keep }
        ensures grew { OnOk result (GrewTo self.old self.new) }
        ensures selects { IfOk result (λ o. IfSome o (λ s.
            SelectsEach self.new states.now letters.now keep s.value)) }
    {
        if states.is_empty() || letters.is_empty() {
            return Ok(None);
        }
        if !self.keep_alike(states) || !self.keep_alike(letters) {
            return Ok(None);
        }
        let first = Made {
            first: states[0],
            second: letters[0],
            keep,
        };
        let selection = self.select(alloc, first)?;
        Ok(Some(selection))
    }

    // The selection of the nodes of a composition: that at hand, which is taken, or a new one.
    pub(crate) fn select(&mut self, alloc: Global, key: Made) -> Result<Box<Selection>, Memory>
        requires pool { IsPool self.old }
        requires fits { CanCompose self.old key }
        ensures grew { OnOk result (GrewTo self.old self.new) }
        ensures selects { IfOk result (λ s. SelectsFor self.new key s.value) }
    {
        let held = self.selection.take();
        let x = &self.values[key.first];
        let y = &self.values[key.second];
        let nodes = &self.keeps[key.keep];
        let selection = Selection::held_or_new(alloc, held, x.nodes(), y.nodes(), nodes)?;
        Ok(selection)
    }
}

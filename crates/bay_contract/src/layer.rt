//! One layer after another: the values after each switch of a part, and the steps that lead to them.
ghost use Rattle.std.specs.Prelude.{◌≡◌, ℕ, ◌+◌, ◌*◌, ◌^◌, ◌<◌, ◌≤◌, length, slice_get, slice_index, Some, IfOk};
ghost use Rattle.std.specs.Prelude.{IfSome, IfNone, Contains};
ghost use Rattle.station_graph.specs.declared.limits.TheConstants.{BAY_SWITCHES};
ghost use Rattle.station_graph.specs.Nodes.{Rises};
ghost use Rattle.contraction.specs.Answers.{Answers, Keeps};
ghost use Rattle.part_alphabets.specs.declared.limits.TheConstants.{CONTRACTIONS};
ghost use Rattle.bay_contract.specs.Building.{Forked, Ranked};
ghost use Rattle.bay_contract.specs.Turns.{Turns, TurnsPast};

use crate::course::Turn;
use crate::sorted::sorted;
use contraction::Contraction;
use ilk_base::{Memory, SwitchId};
use part_alphabets::Fork;
use std::alloc::Global;

// One step for each value of the last layer: places 2i and 2i + 1 say where value i leads.
pub(crate) fn fork_all(
    forks: &mut Vec<Fork>,
    id: SwitchId,
    targets: &[u32],
    count: usize,
) -> Result<(), Memory>
    requires places { length targets.now ≡ 2 * count }
    requires few { length forks.old.items + count < 2 ^ 31 }
    requires small { (s : ℕ) → s < length targets.now → slice_index targets.now s < 2 ^ 31 }
    ensures { IfOk result (λ _. Forked id.0 count targets.now forks.old.items forks.new.items) }
{
    let base = (forks.len() + count) as u32;
    'values: for i in 0..count {
        forks.push(Fork {
            switch: id,
            off: base + targets[2 * i],
            on: base + targets[2 * i + 1],
        })?;
    }
    Ok(())
}

// The least rank of each new value, from those of the last layer and the first place of each.
pub(crate) fn ranks_after(alloc: Global, last: &[u32], origins: &[u32]) -> Result<Vec<u32>, Memory>
    requires inside { (n : ℕ) → n < length origins.now → slice_index origins.now n < 2 * length last.now }
    requires small { (i : ℕ) → i < length last.now → slice_index last.now i < 2 ^ 30 }
    ensures { IfOk result (λ r. Ranked last.now origins.now r.items) }
{
    let mut ranks = Vec::new(alloc);
    for origin in origins {
        ranks.push(2 * last[(origin / 2) as usize] + origin % 2)?;
    }
    Ok(ranks)
}

// The values of a layer, and the least rank of each.
#[derive(Drop)]
pub(crate) struct Layer {
    pub(crate) values: Vec<Contraction>,
    pub(crate) ranks: Vec<u32>,
}

// The layer after the switch of the turn, which is switch j of the part; none where it has more values than
// the limit.
pub(crate) fn next_layer(
    alloc: Global,
    turn: &Turn,
    j: u16,
    limit: usize,
    layer: &Layer,
    forks: &mut Vec<Fork>,
) -> Result<Option<Layer>, Memory>
    requires few { length layer.now.values.items ≤ CONTRACTIONS }
    requires limit { limit ≤ CONTRACTIONS }
    requires low { j < BAY_SWITCHES }
    requires steps { length forks.old.items ≤ CONTRACTIONS * j }
    requires kept { (i : ℕ) (x : Answers) → slice_get layer.now.values.items i ≡ Some x
        → (n : ℕ) → Contains turn.now.kept n → Keeps x.kept n }
    requires rises { Rises turn.now.kept }
    requires ranks { length layer.now.ranks.items ≡ length layer.now.values.items }
    requires small { (i : ℕ) → i < length layer.now.ranks.items → slice_index layer.now.ranks.items i < 2 ^ 30 }
    ensures next { IfOk result (λ o. IfSome o (λ n. Turns j turn.now layer.now.values.items layer.now.ranks.items
        forks.old.items n.values.items n.ranks.items forks.new.items)) }
    ensures within { IfOk result (λ o. IfSome o (λ n. length n.values.items ≤ limit)) }
    ensures past { IfOk result (λ o. IfNone o (TurnsPast turn.now layer.now.values.items limit)) }
{
    let next = sorted(alloc, turn, &layer.values, limit)?;
    if next.table.values.len() > limit {
        return Ok(None);
    }
    fork_all(forks, SwitchId(j), &next.targets, layer.values.len())?;
    let ranks = ranks_after(alloc, &layer.ranks, &next.origins)?;
    Ok(Some(Layer {
        values: next.table.values,
        ranks,
    }))
}

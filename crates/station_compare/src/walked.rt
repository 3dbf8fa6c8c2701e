//! The walk of a switch that two stations have, and what is reached in it.
ghost use Rattle.std.specs.Prelude.{◌≡◌, ◌+◌, ◌<◌, ◌≤◌, ◌^◌, suc, true, length, map, replicate, IfOk, IfErr, OnOk};
ghost use Rattle.decision_graphs.specs.Label.{Layer};
ghost use Rattle.graph_walks.specs.Walks.{HasTwos, HasWalkRoom, IsWalkOf, IsWideWalk, set_for};
ghost use Rattle.change_search.specs.declared.limits.TheConstants.{WALK_EDGES};
ghost use Rattle.change_search.specs.Telling.{IsSwitchWalk};
ghost use Rattle.change_search.specs.Searching.{HaveReached};
ghost use Rattle.station_compare.specs.Walking.{AreStocks, IsWalked};
ghost use Rattle.judge_pool.specs.declared.layer.Trouble.TheVariants.{Wide};
ghost use Rattle.station_compare.specs.Moving.{IsMovedSwitch, KeepsMoved, PassesMoved};

use crate::loads::{new_load_graph, old_load_graph};
use crate::moved::{MovedSwitch, new_graph, old_graph};
use crate::stocks::Stocks;
use change_search::{Reached, free_steps, free_steps_allow};
use decision_graphs::{Graph, Marks};
use graph_products::ProductTrouble;
use graph_walks::{Walk, allowed_sets, walk_of};
use ilk_base::Memory;
use judge_pool::{Trouble, View};
use std::alloc::Global;

// The walk of a switch, and what isolating choices and all choices reach in it.
#[derive(Drop)]
pub(crate) struct Walked {
    pub(crate) walk: Walk,
    pub(crate) isolated: Reached,
    pub(crate) all: Reached,
}

// The four graphs of this many layers, walked together.
fn walk_together(
    alloc: Global,
    old_gap: &Graph,
    new_gap: &Graph,
    old_load: &Graph,
    new_load: &Graph,
    others: u16,
    limit: usize,
) -> Result<Walk, Trouble>
    requires old_gap { HasTwos others old_gap.now }
    requires new_gap { HasTwos others new_gap.now }
    requires old_load { HasTwos others old_load.now }
    requires new_load { HasTwos others new_load.now }
    requires limit { limit ≤ WALK_EDGES }
    ensures walk { IfOk result (λ w. IsWalkOf old_gap.now new_gap.now old_load.now new_load.now others w.graph
        w.codes.items) }
    ensures room { IfOk result (λ _. HasWalkRoom old_gap.now new_gap.now old_load.now new_load.now others limit) }
    ensures wide { IfErr result (λ e. e ≡ Wide →
        IsWideWalk old_gap.now new_gap.now old_load.now new_load.now others limit) }
{
    match walk_of(alloc, old_gap, new_gap, old_load, new_load, others, limit) {
        Ok(walk) => Ok(walk),
        Err(ProductTrouble::Memory) => Err(Trouble::Memory),
        Err(ProductTrouble::Wide) => Err(Trouble::Wide),
    }
}

// The walk of a switch that both stations have.
fn switch_walk(alloc: Global, stocks: &mut Stocks, moved: &MovedSwitch<'_>) -> Result<Walk, Trouble>
    requires stocks { AreStocks moved.now.old.now moved.now.new.now moved.now.steps.now stocks.old }
    requires moved { IsMovedSwitch moved.now }
    ensures stocks { OnOk result (AreStocks moved.now.old.now moved.now.new.now moved.now.steps.now stocks.new) }
    ensures walk { IfOk result (λ w. IsSwitchWalk moved.now.old.now moved.now.new.now moved.now.steps.now.old_steps.items
        moved.now.steps.now.new_steps.items moved.now.place moved.now.id.0 moved.now.new_id.0 w.graph w.codes.items) }
    ensures keeps { IfOk result (λ _. KeepsMoved moved.now) }
    ensures wide { IfErr result (λ e. e ≡ Wide → PassesMoved moved.now) }
{
    let others = (moved.steps.old_steps.len() - 1) as u16;
    let gap = View::Gap;
    let old_gap = old_graph(alloc, gap, &mut stocks.gap, moved)?;
    let new_gap = new_graph(alloc, gap, &mut stocks.gap, moved)?;
    let old_load = old_load_graph(alloc, &mut stocks.load, moved, &old_gap)?;
    let new_load = new_load_graph(alloc, &mut stocks.load, moved, &new_gap)?;
    let limit = moved.limit;
    let walk = walk_together(
        alloc, &old_gap, &new_gap, &old_load, &new_load, others, limit,
    )?;
    Ok(walk)
}

// What is reached in a walk where these layers are free.
fn reached(alloc: Global, walk: &Walk, free: &[bool]) -> Result<Reached, Memory>
    requires { map (λ (x : Layer). x.choices) walk.now.graph.layers ≡ replicate (length free.now) 2 }
    ensures reached { IfOk result (λ r. HaveReached walk.now.graph r.sets r.marks) }
    ensures sets { IfOk result (λ r. r.sets ≡ map set_for free.now) }
{
    let sets = allowed_sets(alloc, &walk.graph, free)?;
    let mut marks = Marks::new(alloc, &walk.graph)?;
    walk.graph.reach(&sets, &mut marks);
    Ok(Reached { sets, marks })
}

// So many free layers.
fn all_free(alloc: Global, others: u16) -> Result<Vec<bool>, Memory>
    ensures { IfOk result (λ v. v.items ≡ replicate others true) }
{
    let mut free = Vec::new(alloc);
    free.resize(usize::from(others), true)?;
    Ok(free)
}

// The walk of a switch that both stations have, and what is reached in it.
pub(crate) fn walk_switch(
    alloc: Global,
    stocks: &mut Stocks,
    moved: &MovedSwitch<'_>,
) -> Result<Walked, Trouble>
    requires stocks { AreStocks moved.now.old.now moved.now.new.now moved.now.steps.now stocks.old }
    requires moved { IsMovedSwitch moved.now }
    ensures stocks { OnOk result (AreStocks moved.now.old.now moved.now.new.now moved.now.steps.now stocks.new) }
    ensures walked { IfOk result (IsWalked moved.now.old.now moved.now.new.now moved.now.steps.now moved.now.place
        moved.now.id.0 moved.now.new_id.0) }
    ensures keeps { IfOk result (λ _. KeepsMoved moved.now) }
    ensures wide { IfErr result (λ e. e ≡ Wide → PassesMoved moved.now) }
{
    // what the free layers allow
    free_steps_allow();
    let olds = moved.steps.old_steps.as_slice();
    let news = moved.steps.new_steps.as_slice();
    let walk = switch_walk(alloc, stocks, moved)?;
    let free = free_steps(alloc, olds, news, moved.place)?;
    let isolated = reached(alloc, &walk, &free)?;
    let open = all_free(alloc, (olds.len() - 1) as u16)?;
    let all = reached(alloc, &walk, &open)?;
    Ok(Walked {
        walk,
        isolated,
        all,
    })
}

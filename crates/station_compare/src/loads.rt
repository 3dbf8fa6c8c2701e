//! The load graph of a switch.
ghost use Rattle.std.specs.Prelude.{◌≡◌, ◌↔◌, ◌<◌, length, replicate, IsTrue, IsFalse, IfOk, IfErr, OnOk};
ghost use Rattle.judge_pool.specs.declared.layer.Trouble.TheVariants.{Wide};
ghost use Rattle.judge_pool.specs.declared.view.View.TheVariants.{Gap, Load};
ghost use Rattle.step_graphs.specs.Edges.{StepsPass, StepsKeep};
ghost use Rattle.step_graphs.specs.Moved.{IsMovedGraph};
ghost use Rattle.station_compare.specs.Walking.{HasNoLoad, IsIdleOf};
ghost use Rattle.station_compare.specs.Moving.{IsMovedSwitch, IsStockFor};
ghost use Rattle.station_compare.specs.Width.{IsDisconnector};

use crate::moved::{MovedSwitch, new_graph, old_graph};
use crate::stocks::PairStock;
use decision_graphs::Graph;
use ilk_base::{Kind, Memory, SwitchId};
use judge_pool::{Trouble, View};
use station_graph::Station;
use std::alloc::Global;

// Whether the third rule may apply to a move of the switch: to those of a disconnector alone.
fn has_load(station: &Station, id: SwitchId) -> bool
    requires { id.0 < length station.now.switches }
    ensures some { IsTrue result ↔ IsDisconnector station.now id.0 }
    ensures none { IsFalse result → HasNoLoad station.now id.0 }
{
    station.switch(id).kind == Kind::Disconnector
}

// So many times the label 0.
fn zeros(alloc: Global, count: u32) -> Result<Vec<u32>, Memory>
    ensures { IfOk result (λ v. v.items ≡ replicate count 0) }
{
    let mut names = Vec::new(alloc);
    names.resize(count as usize, 0)?;
    Ok(names)
}

// The graph with the layers of this one that leads to the first of two labels whatever is chosen.
fn idle_graph(alloc: Global, gap: &Graph) -> Result<Graph, Memory>
    requires { 0 < length gap.now.layers }
    ensures { IfOk result (IsIdleOf gap.now) }
{
    let names = zeros(alloc, gap.labels())?;
    let named = gap.rename(alloc, 2, &names)?;
    let reduced = named.reduce(alloc)?;
    let _labels = reduced.labels();
    Ok(reduced)
}

// The load graph of a switch in the old station, where this is its gap graph: made for a disconnector alone.
pub(crate) fn old_load_graph(
    alloc: Global,
    stock: &mut PairStock,
    moved: &MovedSwitch<'_>,
    gap: &Graph,
) -> Result<Graph, Trouble>
    requires stock { IsStockFor Load moved.now stock.old }
    requires moved { IsMovedSwitch moved.now }
    requires gap { IsMovedGraph Gap moved.now.old.now moved.now.steps.now.old_steps.items moved.now.place
        moved.now.id.0 gap.now }
    ensures stock { OnOk result (IsStockFor Load moved.now stock.new) }
    ensures graph { IfOk result (IsMovedGraph Load moved.now.old.now moved.now.steps.now.old_steps.items
        moved.now.place moved.now.id.0) }
    ensures keeps { IfOk result (λ _. IsDisconnector moved.now.old.now moved.now.id.0 →
        StepsKeep Load moved.now.old.now moved.now.steps.now.old_steps.items moved.now.place moved.now.limit) }
    ensures wide { IfErr result (λ e. e ≡ Wide → IsDisconnector moved.now.old.now moved.now.id.0
        × StepsPass Load moved.now.old.now moved.now.steps.now.old_steps.items moved.now.place moved.now.limit) }
{
    if !has_load(moved.old, moved.id) {
        let idle = idle_graph(alloc, gap)?;
        return Ok(idle);
    }
    let graph = old_graph(alloc, View::Load, stock, moved)?;
    Ok(graph)
}

// The load graph of a switch in the new station, where this is its gap graph: made for a disconnector alone.
pub(crate) fn new_load_graph(
    alloc: Global,
    stock: &mut PairStock,
    moved: &MovedSwitch<'_>,
    gap: &Graph,
) -> Result<Graph, Trouble>
    requires stock { IsStockFor Load moved.now stock.old }
    requires moved { IsMovedSwitch moved.now }
    requires gap { IsMovedGraph Gap moved.now.new.now moved.now.steps.now.new_steps.items moved.now.place
        moved.now.new_id.0 gap.now }
    ensures stock { OnOk result (IsStockFor Load moved.now stock.new) }
    ensures graph { IfOk result (IsMovedGraph Load moved.now.new.now moved.now.steps.now.new_steps.items
        moved.now.place moved.now.new_id.0) }
    ensures keeps { IfOk result (λ _. IsDisconnector moved.now.new.now moved.now.new_id.0 →
        StepsKeep Load moved.now.new.now moved.now.steps.now.new_steps.items moved.now.place moved.now.limit) }
    ensures wide { IfErr result (λ e. e ≡ Wide → IsDisconnector moved.now.new.now moved.now.new_id.0
        × StepsPass Load moved.now.new.now moved.now.steps.now.new_steps.items moved.now.place moved.now.limit) }
{
    if !has_load(moved.new, moved.new_id) {
        let idle = idle_graph(alloc, gap)?;
        return Ok(idle);
    }
    let graph = new_graph(alloc, View::Load, stock, moved)?;
    Ok(graph)
}

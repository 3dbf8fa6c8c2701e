//! A switch that is moved, and its graphs in one view, of the stock of two stations.
ghost use Rattle.std.specs.Prelude.{◌≡◌, IfOk, IfErr, OnOk};
ghost use Rattle.judge_pool.specs.declared.layer.Trouble.TheVariants.{Wide};
ghost use Rattle.step_graphs.specs.Edges.{StepsPass, StepsKeep};
ghost use Rattle.step_graphs.specs.Moved.{IsMovedGraph};
ghost use Rattle.station_compare.specs.Moving.{IsMovedSwitch, IsStockFor};

use crate::stocks::PairStock;
use decision_graphs::Graph;
use ilk_base::SwitchId;
use judge_pool::{Trouble, View};
use station_graph::Station;
use station_joints::JointSteps;
use std::alloc::Global;
use step_graphs::moved_graph_in;

// A switch that both stations have, moved in both, with what stands around it.
#[derive(Clone, Copy)]
pub(crate) struct MovedSwitch<'a> {
    pub(crate) old: &'a Station,
    pub(crate) new: &'a Station,
    // the joint steps of both, and the place of those of the switch
    pub(crate) steps: &'a JointSteps,
    pub(crate) place: u16,
    // its number in the old station, and in the new one
    pub(crate) id: SwitchId,
    pub(crate) new_id: SwitchId,
    // how many edges its walk may have, and each of its graphs before it is reduced
    pub(crate) limit: usize,
}

// Its graph in the old station.
pub(crate) fn old_graph(
    alloc: Global,
    view: View,
    stock: &mut PairStock,
    moved: &MovedSwitch<'_>,
) -> Result<Graph, Trouble>
    requires stock { IsStockFor view moved.now stock.old }
    requires moved { IsMovedSwitch moved.now }
    ensures stock { OnOk result (IsStockFor view moved.now stock.new) }
    ensures graph { IfOk result (IsMovedGraph view moved.now.old.now moved.now.steps.now.old_steps.items moved.now.place
        moved.now.id.0) }
    ensures room { IfOk result (λ _. StepsKeep view moved.now.old.now moved.now.steps.now.old_steps.items
        moved.now.place moved.now.limit) }
    ensures wide { IfErr result (λ e. e ≡ Wide → StepsPass view moved.now.old.now moved.now.steps.now.old_steps.items
        moved.now.place moved.now.limit) }
{
    let _ = view;
    let graph = moved_graph_in(
        alloc,
        &mut stock.pool,
        &stock.old_rows,
        moved.old,
        &moved.steps.old_steps,
        moved.place,
        moved.id,
        moved.limit,
    )?;
    Ok(graph)
}

// Its graph in the new station.
pub(crate) fn new_graph(
    alloc: Global,
    view: View,
    stock: &mut PairStock,
    moved: &MovedSwitch<'_>,
) -> Result<Graph, Trouble>
    requires stock { IsStockFor view moved.now stock.old }
    requires moved { IsMovedSwitch moved.now }
    ensures stock { OnOk result (IsStockFor view moved.now stock.new) }
    ensures graph { IfOk result (IsMovedGraph view moved.now.new.now moved.now.steps.now.new_steps.items moved.now.place
        moved.now.new_id.0) }
    ensures room { IfOk result (λ _. StepsKeep view moved.now.new.now moved.now.steps.now.new_steps.items
        moved.now.place moved.now.limit) }
    ensures wide { IfErr result (λ e. e ≡ Wide → StepsPass view moved.now.new.now moved.now.steps.now.new_steps.items
        moved.now.place moved.now.limit) }
{
    let _ = view;
    let graph = moved_graph_in(
        alloc,
        &mut stock.pool,
        &stock.new_rows,
        moved.new,
        &moved.steps.new_steps,
        moved.place,
        moved.new_id,
        moved.limit,
    )?;
    Ok(graph)
}

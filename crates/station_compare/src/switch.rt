//! What changes for a switch that two stations have.
ghost use Rattle.std.specs.Prelude.{◌≡◌, ◌<◌, ◌≤◌, length, IfOk, IfErr, OnOk};
ghost use Rattle.judge_pool.specs.declared.layer.Trouble.TheVariants.{Wide};
ghost use Rattle.station_graph.specs.Connection.{a_switch};
ghost use Rattle.station_changes.specs.Compare.{SameSwitch};
ghost use Rattle.step_graphs.specs.Steps.{TakesIn};
ghost use Rattle.station_joints.specs.Joined.{HaveJointSteps};
ghost use Rattle.change_search.specs.declared.limits.TheConstants.{WALK_EDGES};
ghost use Rattle.station_compare.specs.Comparing.{AreSwitchChanges, IsFound, no_changes};
ghost use Rattle.station_compare.specs.Walking.{AreStocks};
ghost use Rattle.station_compare.specs.Width.{IsNarrowAlong, IsWideAlong};

use crate::found::{Found, OperationChanges, RuleChanges, SwitchChanges};
use crate::moved::MovedSwitch;
use crate::operation::operation_changes;
use crate::stocks::Stocks;
use crate::walked::walk_switch;
use ilk_base::{Direction, Op, SwitchId};
use judge_pool::Trouble;
use station_graph::Station;
use station_joints::{JointSteps, same_switch};
use std::alloc::Global;

// No change.
fn unchanged() -> OperationChanges
    ensures { result ≡ no_changes }
{
    OperationChanges {
        stricter: RuleChanges {
            by_r1: None,
            by_r2: None,
            by_r3: None,
        },
        looser: RuleChanges {
            by_r1: None,
            by_r2: None,
            by_r3: None,
        },
    }
}

// No change of the switch with this number in the old station.
fn unchanged_switch(id: SwitchId) -> SwitchChanges
    ensures old { result.old ≡ id }
    ensures opening { result.opening ≡ no_changes }
    ensures closing { result.closing ≡ no_changes }
{
    SwitchChanges {
        old: id,
        opening: unchanged(),
        closing: unchanged(),
    }
}

// What changes for a switch that both stations have, whose steps stand at this place.
fn moved_switch(
    alloc: Global,
    stocks: &mut Stocks,
    old: &Station,
    new: &Station,
    steps: &JointSteps,
    place: u16,
    limit: usize,
    id: SwitchId,
    new_id: SwitchId,
) -> Result<SwitchChanges, Trouble>
    requires stocks { AreStocks old.now new.now steps.now stocks.old }
    requires steps { HaveJointSteps old.now new.now steps.now }
    requires few { limit ≤ WALK_EDGES }
    requires same { SameSwitch old.now new.now id.0 new_id.0 }
    requires place { TakesIn steps.now.old_steps.items place (a_switch id.0) }
    requires some { 1 < length steps.now.old_steps.items }
    ensures stocks { OnOk result (AreStocks old.now new.now steps.now stocks.new) }
    ensures changes { IfOk result (AreSwitchChanges old.now new.now new_id.0) }
    ensures narrow { IfOk result (λ _. IsNarrowAlong old.now new.now steps.now.old_steps.items steps.now.new_steps.items
        new_id.0 limit) }
    ensures wide { IfErr result (λ e. e ≡ Wide → IsWideAlong old.now new.now steps.now.old_steps.items
        steps.now.new_steps.items new_id.0 limit) }
{
    old.is_station();
    new.is_station();
    let moved = MovedSwitch {
        old,
        new,
        steps,
        place,
        id,
        new_id,
        limit,
    };
    let walked = walk_switch(alloc, stocks, &moved)?;
    let open = Op {
        switch: id,
        direction: Direction::ToOff,
    };
    let new_open = Op {
        switch: new_id,
        direction: Direction::ToOff,
    };
    let opening = operation_changes(alloc, old, new, steps, &walked, place, open, new_open)?;
    let close = Op {
        switch: id,
        direction: Direction::ToOn,
    };
    let new_close = Op {
        switch: new_id,
        direction: Direction::ToOn,
    };
    let closing = operation_changes(alloc, old, new, steps, &walked, place, close, new_close)?;
    Ok(SwitchChanges {
        old: id,
        opening,
        closing,
    })
}

// What changes for a switch that both stations have.
fn switch_changes(
    alloc: Global,
    stocks: &mut Stocks,
    old: &Station,
    new: &Station,
    steps: &JointSteps,
    limit: usize,
    id: SwitchId,
    new_id: SwitchId,
) -> Result<SwitchChanges, Trouble>
    requires stocks { AreStocks old.now new.now steps.now stocks.old }
    requires steps { HaveJointSteps old.now new.now steps.now }
    requires few { limit ≤ WALK_EDGES }
    requires same { SameSwitch old.now new.now id.0 new_id.0 }
    ensures stocks { OnOk result (AreStocks old.now new.now steps.now stocks.new) }
    ensures changes { IfOk result (AreSwitchChanges old.now new.now new_id.0) }
    ensures narrow { IfOk result (λ _. IsNarrowAlong old.now new.now steps.now.old_steps.items steps.now.new_steps.items
        new_id.0 limit) }
    ensures wide { IfErr result (λ e. e ≡ Wide → IsWideAlong old.now new.now steps.now.old_steps.items
        steps.now.new_steps.items new_id.0 limit) }
{
    // where both stations have one item alone, which is the same switch, nothing changes for it
    if steps.old_steps.len() == 1 {
        return Ok(unchanged_switch(id));
    }
    let place = steps.old_places[id.0 as usize];
    moved_switch(alloc, stocks, old, new, steps, place, limit, id, new_id)
}

// What is found of a switch of the new station.
pub(crate) fn found_of(
    alloc: Global,
    stocks: &mut Stocks,
    old: &Station,
    new: &Station,
    steps: &JointSteps,
    limit: usize,
    new_id: SwitchId,
) -> Result<Found, Trouble>
    requires stocks { AreStocks old.now new.now steps.now stocks.old }
    requires steps { HaveJointSteps old.now new.now steps.now }
    requires few { limit ≤ WALK_EDGES }
    requires within { new_id.0 < length new.now.switches }
    ensures stocks { OnOk result (AreStocks old.now new.now steps.now stocks.new) }
    ensures found { IfOk result (IsFound old.now new.now new_id.0) }
    ensures narrow { IfOk result (λ _. IsNarrowAlong old.now new.now steps.now.old_steps.items steps.now.new_steps.items
        new_id.0 limit) }
    ensures wide { IfErr result (λ e. e ≡ Wide → IsWideAlong old.now new.now steps.now.old_steps.items
        steps.now.new_steps.items new_id.0 limit) }
{
    match same_switch(new, old, new_id) {
        None => Ok(Found::OnlyNew),
        Some(id) => {
            let changes = switch_changes(alloc, stocks, old, new, steps, limit, id, new_id)?;
            Ok(Found::InBoth(changes))
        }
    }
}

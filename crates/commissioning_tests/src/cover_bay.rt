//! The positions that show all of a bay's operations.
ghost use Rattle.std.specs.Prelude.{◌≡◌, ◌+◌, ◌*◌, ◌^◌, ◌<◌, ◌≤◌, length, slice_get, Some, IfOk, IfErr, OnOk};
ghost use Rattle.station_joints.specs.Joined.{HaveJointSteps};
ghost use Rattle.dependence_search.specs.RuleWalks.{AreRuleStocks};
ghost use Rattle.dependence_search.specs.Width.{IsNarrow, IsTooWide};
ghost use Rattle.judge_pool.specs.declared.layer.Trouble.TheVariants.{Wide};
ghost use Rattle.commissioning_tests.specs.Answering.{ArePositions};
ghost use Rattle.commissioning_tests.specs.Growing.{AreOperations, AreMore, AreCovered, IsCovered};
ghost use Rattle.release_dependence.specs.Operations.{opening, closing};
ghost use Rattle.commissioning_tests.specs.Held.{AreHeld, IsHeld};
ghost use Rattle.commissioning_tests.specs.Listed.{operations_from};
ghost use Rattle.commissioning_tests.specs.Refusing.{AllAreNarrow, SomeIsTooWide};
ghost use Rattle.judge_pool.specs.declared.limits.TheConstants.{BAY_EDGES};

use crate::bay_paths::bay_paths;
use crate::cover::cover_operation;
use crate::flips::Sweep;
use crate::found::Found;
use crate::open_turns::{open_turns, turns_of};
use crate::switch_paths::{SwitchPaths, switch_paths};
use crate::told::Told;
use crate::turn_index::TurnIndex;
use crate::values::TestPosition;
use crate::walked::OperationWalk;
use dependence_search::{RuleStocks, rule_stocks};
use ilk_base::{Memory, Op, SwitchId};
use judge_pool::Trouble;
use station_graph::Station;
use station_joints::JointSteps;
use std::alloc::Global;

// Makes the open turns those of this walk.
fn open_own(
    alloc: Global,
    station: &Station,
    steps: &JointSteps,
    stands: &[u16],
    own: &SwitchPaths,
    found: &mut Found,
) -> Result<(), Memory>
    ensures { found.new.positions.items ≡ found.old.positions.items }
{
    let turns = turns_of(alloc, station, steps, stands, &found.index, own)?;
    found.open.clear();
    found.open.push(turns)?;
    Ok(())
}

// Adds positions that show all of the two operations of a switch, by its walk.
fn cover_both(
    alloc: Global,
    station: &Station,
    steps: &JointSteps,
    operations: &[Op],
    stands: &[u16],
    bay: &[SwitchPaths],
    own: &SwitchPaths,
    switch: SwitchId,
    number: usize,
    found: &mut Found,
) -> Result<(), Memory>
    requires steps { HaveJointSteps station.now station.now steps.now }
    requires all { AreOperations station.now operations.now }
    requires room { number + 1 < length operations.now }
    requires opening { slice_get operations.now number ≡ Some (opening switch.0) }
    requires closing { slice_get operations.now (number + 1) ≡ Some (closing switch.0) }
    requires held { IsHeld station.now steps.now.old_steps.items switch.0 own.now }
    requires positions { ArePositions station.now operations.now found.old.positions.items }
    ensures more { OnOk result (AreMore station.now operations.now found.old.positions.items found.new.positions.items) }
    ensures opening { OnOk result (IsCovered station.now operations.now stands.now found.new.positions.items number) }
    ensures closing { OnOk result (IsCovered station.now operations.now stands.now found.new.positions.items (number + 1)) }
{
    let open = OperationWalk {
        station,
        steps,
        operations,
        stands,
        walk: &own.walk,
        place: own.place,
        own,
        bay,
        released: &own.opened,
        layers: &own.turns_opening,
        number,
        opening: number,
    };
    cover_operation(alloc, &open, found)?;
    let close = OperationWalk {
        station,
        steps,
        operations,
        stands,
        walk: &own.walk,
        place: own.place,
        own,
        bay,
        released: &own.closed,
        layers: &own.turns_closing,
        number: number + 1,
        opening: number,
    };
    cover_operation(alloc, &close, found)?;
    Ok(())
}

// Adds positions that show all of the two operations of a switch, the first of which has this number, where its walk has
// no more edges than the limit.
fn cover_switch(
    alloc: Global,
    stocks: &mut RuleStocks,
    station: &Station,
    steps: &JointSteps,
    operations: &[Op],
    stands: &[u16],
    switch: SwitchId,
    number: usize,
    limit: usize,
    found: &mut Found,
) -> Result<(), Trouble>
    requires limit { limit ≤ BAY_EDGES }
    requires steps { HaveJointSteps station.now station.now steps.now }
    requires some { 1 < length steps.now.old_steps.items }
    requires stocks { AreRuleStocks station.now steps.now.old_steps.items stocks.old }
    requires all { AreOperations station.now operations.now }
    requires room { number + 1 < length operations.now }
    requires opening { slice_get operations.now number ≡ Some (opening switch.0) }
    requires closing { slice_get operations.now (number + 1) ≡ Some (closing switch.0) }
    requires switch { switch.0 < length station.now.switches }
    requires positions { ArePositions station.now operations.now found.old.positions.items }
    ensures stocks { OnOk result (AreRuleStocks station.now steps.now.old_steps.items stocks.new) }
    ensures more { OnOk result (AreMore station.now operations.now found.old.positions.items found.new.positions.items) }
    ensures opening { OnOk result (IsCovered station.now operations.now stands.now found.new.positions.items number) }
    ensures closing { OnOk result (IsCovered station.now operations.now stands.now found.new.positions.items (number + 1)) }
    ensures narrow { IfOk result (λ _. IsNarrow station.now steps.now.old_steps.items switch.0 limit) }
    ensures wide { IfErr result (λ e. e ≡ Wide
        → IsTooWide station.now steps.now.old_steps.items switch.0 limit) }
{
    let own = switch_paths(alloc, stocks, station, steps, switch, number, limit)?;
    open_own(alloc, station, steps, stands, &own, found)?;
    cover_both(
        alloc,
        station,
        steps,
        operations,
        stands,
        &[],
        &own,
        switch,
        number,
        found,
    )?;
    Ok(())
}

// Adds positions that show all of the operations of so many switches, from this one on, of which one walk is held at a
// time.
fn cover_each(
    alloc: Global,
    stocks: &mut RuleStocks,
    station: &Station,
    steps: &JointSteps,
    operations: &[Op],
    stands: &[u16],
    first: SwitchId,
    count: u16,
    limit: usize,
    found: &mut Found,
) -> Result<(), Trouble>
    requires steps { HaveJointSteps station.now station.now steps.now }
    requires some { 1 < length steps.now.old_steps.items }
    requires stocks { AreRuleStocks station.now steps.now.old_steps.items stocks.old }
    requires operations { operations.now ≡ operations_from first.0 count }
    requires within { first.0 + count ≤ length station.now.switches }
    requires few { first.0 + count < 2 ^ 16 }
    requires limit { limit ≤ BAY_EDGES }
    requires positions { ArePositions station.now operations.now found.old.positions.items }
    ensures positions { OnOk result (ArePositions station.now operations.now found.new.positions.items) }
    ensures covered { OnOk result (AreCovered station.now operations.now stands.now found.new.positions.items (2 * count)) }
    ensures narrow { IfOk result (λ _. AllAreNarrow station.now steps.now.old_steps.items first.0 count limit) }
    ensures wide { IfErr result (λ e. e ≡ Wide → SomeIsTooWide station.now steps.now.old_steps.items first.0 count limit) }
{
    for i in 0..count {
        let switch = SwitchId(first.0 + i);
        let number = 2 * usize::from(i);
        cover_switch(
            alloc, stocks, station, steps, operations, stands, switch, number, limit, found,
        )?;
    }
    Ok(())
}

// Adds positions that show all of the operations of the switches whose walks are held, from this one on.
fn cover_held(
    alloc: Global,
    station: &Station,
    steps: &JointSteps,
    operations: &[Op],
    stands: &[u16],
    bay: &[SwitchPaths],
    first: SwitchId,
    found: &mut Found,
) -> Result<(), Memory>
    requires steps { HaveJointSteps station.now station.now steps.now }
    requires operations { operations.now ≡ operations_from first.0 (length bay.now) }
    requires within { first.0 + length bay.now ≤ length station.now.switches }
    requires few { first.0 + length bay.now < 2 ^ 16 }
    requires held { AreHeld station.now steps.now.old_steps.items first.0 bay.now }
    requires positions { ArePositions station.now operations.now found.old.positions.items }
    ensures positions { OnOk result (ArePositions station.now operations.now found.new.positions.items) }
    ensures covered { OnOk result (AreCovered station.now operations.now stands.now found.new.positions.items (2 * length bay.now)) }
{
    for i in 0..bay.len() {
        let switch = SwitchId(first.0 + i as u16);
        cover_both(
            alloc,
            station,
            steps,
            operations,
            stands,
            bay,
            &bay[i],
            switch,
            2 * i,
            found,
        )?;
    }
    Ok(())
}

// Adds positions that show all of the operations of so many switches, from this one on, whose walks are held, or none is.
fn cover_all(
    alloc: Global,
    station: &Station,
    steps: &JointSteps,
    operations: &[Op],
    stands: &[u16],
    bay: &[SwitchPaths],
    first: SwitchId,
    count: u16,
    limit: usize,
    found: &mut Found,
) -> Result<(), Trouble>
    requires steps { HaveJointSteps station.now station.now steps.now }
    requires some { 1 < length steps.now.old_steps.items }
    requires operations { operations.now ≡ operations_from first.0 count }
    requires within { first.0 + count ≤ length station.now.switches }
    requires few { first.0 + count < 2 ^ 16 }
    requires limit { limit ≤ BAY_EDGES }
    requires held { AreHeld station.now steps.now.old_steps.items first.0 bay.now }
    requires narrow { AllAreNarrow station.now steps.now.old_steps.items first.0 (length bay.now) limit }
    requires positions { ArePositions station.now operations.now found.old.positions.items }
    ensures positions { OnOk result (ArePositions station.now operations.now found.new.positions.items) }
    ensures covered { OnOk result (AreCovered station.now operations.now stands.now found.new.positions.items (2 * count)) }
    ensures narrow { IfOk result (λ _. AllAreNarrow station.now steps.now.old_steps.items first.0 count limit) }
    ensures wide { IfErr result (λ e. e ≡ Wide → SomeIsTooWide station.now steps.now.old_steps.items first.0 count limit) }
{
    if bay.len() == usize::from(count) {
        cover_held(alloc, station, steps, operations, stands, bay, first, found)?;
        return Ok(());
    }
    let mut stocks = rule_stocks(alloc, station, &steps.old_steps)?;
    cover_each(
        alloc,
        &mut stocks,
        station,
        steps,
        operations,
        stands,
        first,
        count,
        limit,
        found,
    )?;
    Ok(())
}

// Positions that show all of the operations of so many switches, from this one on.
pub(crate) fn cover_switches(
    alloc: Global,
    station: &Station,
    steps: &JointSteps,
    operations: &[Op],
    stands: &[u16],
    first: SwitchId,
    count: u16,
    limit: usize,
) -> Result<Vec<TestPosition>, Trouble>
    requires steps { HaveJointSteps station.now station.now steps.now }
    requires some { 1 < length steps.now.old_steps.items }
    requires operations { operations.now ≡ operations_from first.0 count }
    requires within { first.0 + count ≤ length station.now.switches }
    requires few { first.0 + count < 2 ^ 16 }
    requires limit { limit ≤ BAY_EDGES }
    ensures positions { IfOk result (λ ps. ArePositions station.now operations.now ps.items) }
    ensures covered { IfOk result (λ ps. AreCovered station.now operations.now stands.now ps.items (2 * count)) }
    ensures narrow { IfOk result (λ _. AllAreNarrow station.now steps.now.old_steps.items first.0 count limit) }
    ensures wide { IfErr result (λ e. e ≡ Wide → SomeIsTooWide station.now steps.now.old_steps.items first.0 count limit) }
{
    let bay = bay_paths(alloc, station, steps, first, count, limit)?;
    let index = TurnIndex::new(alloc, operations.len(), station.switch_count())?;
    let mut found = Found {
        positions: Vec::new(alloc),
        open: open_turns(alloc, station, steps, stands, &index, &bay)?,
        index,
        told: Told::new(alloc),
        sweep: Sweep::new(alloc),
    };
    cover_all(
        alloc, station, steps, operations, stands, &bay, first, count, limit, &mut found,
    )?;
    Ok(found.positions)
}

//! How positions are added until all is shown.
ghost use Rattle.std.specs.Prelude.{◌≡◌, ℕ, List, Bool, ◌<◌, length, slice_get, Some, IfOk, OnOk, option_map};
ghost use Rattle.ilk_base.specs.declared.words.Op.{Op as Operation};
ghost use Rattle.ilk_base.specs.declared.words.Rule.{Rule as Broken};
ghost use Rattle.station_graph.specs.Alike.{IsVector};
ghost use Rattle.station_graph.specs.CentralRules.{Breaks};
ghost use Rattle.release_dependence.specs.Depends.{DependsOn};
ghost use Rattle.dependence_search.specs.Turning.{IsTurn, IsTurning};
ghost use Rattle.commissioning_tests.specs.Answering.{ArePositions};
ghost use Rattle.commissioning_tests.specs.Standing.{IsMoved};
ghost use Rattle.commissioning_tests.specs.Covering.{TurnIsShown, RuleIsShown};
ghost use Rattle.commissioning_tests.specs.Growing.{AreMore, IsOperationWalk, IsCovered};

use crate::asked::asked_of;
use crate::depends::may_turn;
use crate::found::Found;
use crate::moves::add_position;
use crate::operations::operation_of;
use crate::rich::richer;
use crate::shown::is_rule_shown;
use crate::stands::is_moved;
use crate::turn_index::is_turn_noted;
use crate::walked::OperationWalk;
use dependence_search::{find_breach, find_turn, walks_answer};
use ilk_base::{Memory, Op, Rule, SwitchId};
use std::alloc::Global;

// A position in which moving the switch turns the operation.
fn turn_of(
    alloc: Global,
    walked: &OperationWalk<'_>,
    op: Op,
    switch: SwitchId,
) -> Result<Option<Vec<bool>>, Memory>
    requires walked { IsOperationWalk walked.now }
    requires op { slice_get walked.now.operations.now walked.now.number ≡ Some op }
    requires switch { switch.0 < length walked.now.station.now.switches }
    ensures turn { IfOk result (λ found. IsTurn walked.now.station.now op switch.0 (option_map (λ v. v.items) found)) }
{
    find_turn(
        alloc,
        walked.station,
        walked.steps,
        walked.released,
        walked.place,
        op,
        switch,
    )
}

// Adds the position, if none shows that moving the switch turns operation k.
fn add_unless_shown(
    alloc: Global,
    walked: &OperationWalk<'_>,
    switch: SwitchId,
    found: &mut Found,
    closed: Vec<bool>,
) -> Result<(), Memory>
    requires walked { IsOperationWalk walked.now }
    requires switch { switch.0 < length walked.now.station.now.switches }
    requires positions { ArePositions walked.now.station.now walked.now.operations.now found.old.positions.items }
    requires vector { IsVector walked.now.station.now closed.items }
    ensures more { OnOk result (AreMore walked.now.station.now walked.now.operations.now found.old.positions.items
        found.new.positions.items) }
    ensures shown { OnOk result ((op : Operation) → slice_get walked.now.operations.now walked.now.number ≡ Some op
        → IsTurning walked.now.station.now op switch.0 closed.items → TurnIsShown found.new.positions.items walked.now.number switch.0) }
{
    if is_turn_noted(&found.positions, &found.index, walked.number, switch) {
        return Ok(());
    }
    let asked = asked_of(alloc, walked, found, &closed, Some(switch))?;
    add_position(
        alloc,
        walked.station,
        walked.operations,
        &asked,
        found,
        closed,
    )?;
    Ok(())
}

// Adds a position that shows more than this one.
fn add_richer(
    alloc: Global,
    walked: &OperationWalk<'_>,
    switch: SwitchId,
    found: &mut Found,
    closed: &[bool],
) -> Result<(), Memory>
    requires walked { IsOperationWalk walked.now }
    requires positions { ArePositions walked.now.station.now walked.now.operations.now found.old.positions.items }
    requires vector { IsVector walked.now.station.now closed.now }
    ensures { OnOk result (AreMore walked.now.station.now walked.now.operations.now found.old.positions.items
        found.new.positions.items) }
{
    let rich = richer(alloc, walked, found, switch, closed)?;
    let asked = asked_of(alloc, walked, found, &rich, None)?;
    add_position(
        alloc,
        walked.station,
        walked.operations,
        &asked,
        found,
        rich,
    )?;
    Ok(())
}

// Adds positions, of which one shows what this one does of the switch.
fn add_both(
    alloc: Global,
    walked: &OperationWalk<'_>,
    switch: SwitchId,
    found: &mut Found,
    closed: Vec<bool>,
) -> Result<(), Memory>
    requires walked { IsOperationWalk walked.now }
    requires switch { switch.0 < length walked.now.station.now.switches }
    requires positions { ArePositions walked.now.station.now walked.now.operations.now found.old.positions.items }
    requires vector { IsVector walked.now.station.now closed.items }
    ensures more { OnOk result (AreMore walked.now.station.now walked.now.operations.now found.old.positions.items
        found.new.positions.items) }
    ensures shown { OnOk result ((op : Operation) → slice_get walked.now.operations.now walked.now.number ≡ Some op
        → IsTurning walked.now.station.now op switch.0 closed.items → TurnIsShown found.new.positions.items walked.now.number switch.0) }
{
    add_richer(alloc, walked, switch, found, &closed)?;
    add_unless_shown(alloc, walked, switch, found, closed)?;
    Ok(())
}

// Adds positions that show that moving the switch turns the operation, if it does and none shows it.
fn cover_turn(
    alloc: Global,
    walked: &OperationWalk<'_>,
    switch: SwitchId,
    found: &mut Found,
) -> Result<(), Memory>
    requires walked { IsOperationWalk walked.now }
    requires switch { switch.0 < length walked.now.station.now.switches }
    requires positions { ArePositions walked.now.station.now walked.now.operations.now found.old.positions.items }
    ensures more { OnOk result (AreMore walked.now.station.now walked.now.operations.now found.old.positions.items
        found.new.positions.items) }
    ensures shown { OnOk result ((op : Operation) → slice_get walked.now.operations.now walked.now.number ≡ Some op
        → IsMoved walked.now.stands.now switch.0 → DependsOn walked.now.station.now op switch.0 → TurnIsShown found.new.positions.items walked.now.number switch.0) }
{
    if !is_moved(walked.stands, switch.0)
        || is_turn_noted(&found.positions, &found.index, walked.number, switch)
    {
        return Ok(());
    }
    if !may_turn(walked, switch) {
        return Ok(());
    }
    let op = operation_of(walked);
    match turn_of(alloc, walked, op, switch)? {
        Some(closed) => Ok(add_both(alloc, walked, switch, found, closed)?),
        None => Ok(()),
    }
}

// Adds a position as it was found.
fn add_breach(
    alloc: Global,
    walked: &OperationWalk<'_>,
    found: &mut Found,
    closed: Vec<bool>,
) -> Result<(), Memory>
    requires walked { IsOperationWalk walked.now }
    requires positions { ArePositions walked.now.station.now walked.now.operations.now found.old.positions.items }
    requires vector { IsVector walked.now.station.now closed.items }
    ensures more { OnOk result (AreMore walked.now.station.now walked.now.operations.now found.old.positions.items
        found.new.positions.items) }
    ensures shown { OnOk result ((rule : Broken) (op : Operation)
        → slice_get walked.now.operations.now walked.now.number ≡ Some op
        → Breaks walked.now.station.now closed.items op (Some rule)
        → RuleIsShown found.new.positions.items walked.now.number rule) }
{
    let asked = asked_of(alloc, walked, found, &closed, None)?;
    add_position(
        alloc,
        walked.station,
        walked.operations,
        &asked,
        found,
        closed,
    )?;
    Ok(())
}

// Adds a position in which the operation breaks the rule, if there is one and none shows it.
fn cover_rule(
    alloc: Global,
    walked: &OperationWalk<'_>,
    rule: Rule,
    found: &mut Found,
) -> Result<(), Memory>
    requires walked { IsOperationWalk walked.now }
    requires positions { ArePositions walked.now.station.now walked.now.operations.now found.old.positions.items }
    ensures more { OnOk result (AreMore walked.now.station.now walked.now.operations.now found.old.positions.items
        found.new.positions.items) }
    ensures shown { OnOk result ((v : List Bool) (op : Operation)
        → slice_get walked.now.operations.now walked.now.number ≡ Some op → IsVector walked.now.station.now v
        → Breaks walked.now.station.now v op (Some rule)
        → RuleIsShown found.new.positions.items walked.now.number rule) }
{
    if is_rule_shown(&found.positions, walked.number, rule) {
        return Ok(());
    }
    let op = walked.operations[walked.number];
    let breach = find_breach(
        alloc,
        walked.station,
        walked.steps,
        walked.walk,
        walked.place,
        op,
        rule,
    )?;
    match breach {
        Some(closed) => Ok(add_breach(alloc, walked, found, closed)?),
        None => Ok(()),
    }
}

// Adds positions in which the operation breaks each of the rules that it can break.
fn cover_rules(alloc: Global, walked: &OperationWalk<'_>, found: &mut Found) -> Result<(), Memory>
    requires walked { IsOperationWalk walked.now }
    requires positions { ArePositions walked.now.station.now walked.now.operations.now found.old.positions.items }
    ensures more { OnOk result (AreMore walked.now.station.now walked.now.operations.now found.old.positions.items
        found.new.positions.items) }
    ensures shown { OnOk result ((rule : Broken) (v : List Bool) (op : Operation)
        → slice_get walked.now.operations.now walked.now.number ≡ Some op → IsVector walked.now.station.now v
        → Breaks walked.now.station.now v op (Some rule)
        → RuleIsShown found.new.positions.items walked.now.number rule) }
{
    cover_rule(alloc, walked, Rule::R1, found)?;
    cover_rule(alloc, walked, Rule::R2, found)?;
    cover_rule(alloc, walked, Rule::R3, found)?;
    Ok(())
}

// Adds positions that show for each switch on which the operation depends that it does.
fn cover_turns(alloc: Global, walked: &OperationWalk<'_>, found: &mut Found) -> Result<(), Memory>
    requires walked { IsOperationWalk walked.now }
    requires positions { ArePositions walked.now.station.now walked.now.operations.now found.old.positions.items }
    ensures more { OnOk result (AreMore walked.now.station.now walked.now.operations.now found.old.positions.items
        found.new.positions.items) }
    ensures shown { OnOk result ((s : ℕ) (op : Operation)
        → slice_get walked.now.operations.now walked.now.number ≡ Some op → IsMoved walked.now.stands.now s
        → DependsOn walked.now.station.now op s → TurnIsShown found.new.positions.items walked.now.number s) }
{
    for s in 0..walked.station.switch_count() {
        cover_turn(alloc, walked, SwitchId(s), found)?;
    }
    Ok(())
}

// Adds positions that show all of the operation.
pub(crate) fn cover_operation(
    alloc: Global,
    walked: &OperationWalk<'_>,
    found: &mut Found,
) -> Result<(), Memory>
    requires walked { IsOperationWalk walked.now }
    requires positions { ArePositions walked.now.station.now walked.now.operations.now found.old.positions.items }
    ensures more { OnOk result (AreMore walked.now.station.now walked.now.operations.now found.old.positions.items
        found.new.positions.items) }
    ensures covered { OnOk result (IsCovered walked.now.station.now walked.now.operations.now walked.now.stands.now found.new.positions.items
        walked.now.number) }
{
    walked.station.is_station();
    walks_answer();
    cover_turns(alloc, walked, found)?;
    cover_rules(alloc, walked, found)?;
    Ok(())
}

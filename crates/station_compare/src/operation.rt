//! What changes for an operation.
ghost use Rattle.std.specs.Prelude.{◌<◌, length, option_map, IfOk};
ghost use Rattle.station_changes.specs.Compare.{IsCommon, IsPart};
ghost use Rattle.station_joints.specs.Joined.{HaveJointSteps};
ghost use Rattle.change_search.specs.Showing.{witness_of};
ghost use Rattle.station_compare.specs.Comparing.{AreRuleChanges, AreChanges};
ghost use Rattle.station_compare.specs.Walking.{IsWalked};

use crate::found::{OperationChanges, RuleChanges};
use crate::walked::Walked;
use change_search::{Shown, find_part};
use ilk_base::{Memory, Op, Rule};
use station_changes::Change;
use station_graph::Station;
use station_joints::JointSteps;
use std::alloc::Global;

// For each rule a position that shows this change of the operation.
fn rule_changes(
    alloc: Global,
    old: &Station,
    new: &Station,
    steps: &JointSteps,
    walked: &Walked,
    place: u16,
    op: Op,
    new_op: Op,
    change: Change,
) -> Result<RuleChanges, Memory>
    requires steps { HaveJointSteps old.now new.now steps.now }
    requires place { place < length steps.now.old_steps.items }
    requires common { IsCommon old.now new.now op new_op }
    requires walked { IsWalked old.now new.now steps.now place op.switch.0 new_op.switch.0 walked.now }
    ensures { IfOk result (AreRuleChanges old.now new.now op new_op change) }
{
    let by_r1 = by_rule(
        alloc,
        old,
        new,
        steps,
        walked,
        place,
        op,
        new_op,
        change,
        Rule::R1,
    )?;
    let by_r2 = by_rule(
        alloc,
        old,
        new,
        steps,
        walked,
        place,
        op,
        new_op,
        change,
        Rule::R2,
    )?;
    let by_r3 = by_rule(
        alloc,
        old,
        new,
        steps,
        walked,
        place,
        op,
        new_op,
        change,
        Rule::R3,
    )?;
    Ok(RuleChanges {
        by_r1,
        by_r2,
        by_r3,
    })
}

// A position that shows this change of the operation by a rule.
fn by_rule(
    alloc: Global,
    old: &Station,
    new: &Station,
    steps: &JointSteps,
    walked: &Walked,
    place: u16,
    op: Op,
    new_op: Op,
    change: Change,
    rule: Rule,
) -> Result<Option<Shown>, Memory>
    requires steps { HaveJointSteps old.now new.now steps.now }
    requires place { place < length steps.now.old_steps.items }
    requires common { IsCommon old.now new.now op new_op }
    requires walked { IsWalked old.now new.now steps.now place op.switch.0 new_op.switch.0 walked.now }
    ensures { IfOk result (λ found. IsPart old.now new.now op new_op change rule (option_map witness_of found)) }
{
    find_part(
        alloc,
        old,
        new,
        steps,
        &walked.walk,
        &walked.isolated,
        &walked.all,
        place,
        op,
        new_op,
        change,
        rule,
    )
}

// What changes for an operation that both stations have.
pub(crate) fn operation_changes(
    alloc: Global,
    old: &Station,
    new: &Station,
    steps: &JointSteps,
    walked: &Walked,
    place: u16,
    op: Op,
    new_op: Op,
) -> Result<OperationChanges, Memory>
    requires steps { HaveJointSteps old.now new.now steps.now }
    requires place { place < length steps.now.old_steps.items }
    requires common { IsCommon old.now new.now op new_op }
    requires walked { IsWalked old.now new.now steps.now place op.switch.0 new_op.switch.0 walked.now }
    ensures { IfOk result (AreChanges old.now new.now op new_op) }
{
    let stricter = rule_changes(
        alloc,
        old,
        new,
        steps,
        walked,
        place,
        op,
        new_op,
        Change::Stricter,
    )?;
    let looser = rule_changes(
        alloc,
        old,
        new,
        steps,
        walked,
        place,
        op,
        new_op,
        Change::Looser,
    )?;
    Ok(OperationChanges { stricter, looser })
}

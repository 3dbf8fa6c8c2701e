//! What is found of an operation, a change and a rule.
ghost use Rattle.std.specs.Prelude.{◌≡◌, ◌<◌, ◌^◌, length, option_map, IfOk};
ghost use Rattle.station_changes.specs.Compare.{IsCommon, IsPart};
ghost use Rattle.station_joints.specs.Joined.{HaveJointSteps};
ghost use Rattle.change_search.specs.Telling.{IsSwitchWalk};
ghost use Rattle.change_search.specs.Searching.{HaveReached};
ghost use Rattle.change_search.specs.Showing.{AllowIsolating, AllowAll, witness_of};

use crate::search::find_change;
use decision_graphs::{ChoiceSets, Marks};
use graph_walks::Walk;
use ilk_base::{Memory, Op, Rule};
use station_changes::Change;
use station_graph::Station;
use station_joints::{JointSteps, joint_vectors};
use std::alloc::Global;

/// A position of all switches of both stations that shows a change.
#[derive(Drop)]
pub struct Shown {
    /// for each switch of the old station whether it is closed
    pub old_closed: Vec<bool>,
    /// and for each of the new one
    pub new_closed: Vec<bool>,
    /// whether every switch that only one of them has is open
    pub isolated: bool,
}

/// Allowed choices of a walk, and the marks of what they reach.
#[derive(Drop)]
pub struct Reached {
    /// the allowed choices
    pub sets: ChoiceSets,
    /// what they reach
    pub marks: Marks,
}

/// A position that shows the change of an operation by a rule, an isolated one where there is one; none where no position
/// shows it. The walk is that of the moved switch, whose steps stand at this place; `isolated` is what isolating choices
/// reach in it, `all` what all choices do. Time: the labels, the layers and the switches.
pub fn find_part(
    alloc: Global,
    old: &Station,
    new: &Station,
    steps: &JointSteps,
    walk: &Walk,
    isolated: &Reached,
    all: &Reached,
    place: u16,
    op: Op,
    new_op: Op,
    change: Change,
    rule: Rule,
) -> Result<Option<Shown>, Memory>
    requires steps { HaveJointSteps old.now new.now steps.now }
    requires place { place < length steps.now.old_steps.items }
    requires common { IsCommon old.now new.now op new_op }
    requires walk { IsSwitchWalk old.now new.now steps.now.old_steps.items steps.now.new_steps.items place op.switch.0
        new_op.switch.0 walk.now.graph walk.now.codes.items }
    requires isolated { HaveReached walk.now.graph isolated.now.sets isolated.now.marks }
    requires isolating { AllowIsolating steps.now.old_steps.items steps.now.new_steps.items place isolated.now.sets }
    requires all { HaveReached walk.now.graph all.now.sets all.now.marks }
    requires allowed { AllowAll steps.now.old_steps.items all.now.sets }
    ensures { IfOk result (λ found. IsPart old.now new.now op new_op change rule (option_map witness_of found)) }
{
    new.is_station();
    let direction = op.direction;
    match find_change(
        alloc,
        walk,
        &isolated.sets,
        &isolated.marks,
        direction,
        change,
        rule,
    )? {
        Some(choices) => {
            let vectors = joint_vectors(alloc, old, new, steps, place, &choices)?;
            Ok(Some(Shown {
                old_closed: vectors.old_closed,
                new_closed: vectors.new_closed,
                isolated: true,
            }))
        }
        None => match find_change(alloc, walk, &all.sets, &all.marks, direction, change, rule)? {
            Some(choices) => {
                let vectors = joint_vectors(alloc, old, new, steps, place, &choices)?;
                Ok(Some(Shown {
                    old_closed: vectors.old_closed,
                    new_closed: vectors.new_closed,
                    isolated: false,
                }))
            }
            None => Ok(None),
        },
    }
}

//! The search for a position in which an operation breaks a rule.
ghost use Rattle.std.specs.Prelude.{◌≡◌, ◌↔◌, ◌<◌, ℕ, suc, IsTrue, Some, length, slice_get, IfOk, option_map};
ghost use Rattle.station_graph.specs.Alike.{IsVector};
ghost use Rattle.station_graph.specs.Connection.{a_switch};
ghost use Rattle.step_graphs.specs.Moved.{AreGiven};
ghost use Rattle.step_graphs.specs.Steps.{TakesIn};
ghost use Rattle.station_joints.specs.Joined.{HaveJointSteps};
ghost use Rattle.dependence_search.specs.RuleWalks.{AreWanted, IsRuleWalk, rule_of};
ghost use Rattle.dependence_search.specs.Turning.{IsBreach};

use crate::label::find_label;
use change_search::answer;
use decision_graphs::ChoiceList;
use graph_walks::{Codes, Walk};
use ilk_base::{Direction, Memory, Op, Rule};
use station_graph::Station;
use station_joints::{JointSteps, joint_vectors};
use std::alloc::Global;

// Whether the labels say that the move breaks the rule.
fn is_broken(direction: Direction, rule: Rule, codes: Codes) -> bool
    ensures { IsTrue result ↔ (rule_of direction codes ≡ Some rule) }
{
    match answer(direction, codes.first, codes.third) {
        Some(broken) => broken == rule,
        None => false,
    }
}

// For each label whether it says that the move breaks the rule.
fn broken_labels(
    alloc: Global,
    codes: &[Codes],
    direction: Direction,
    rule: Rule,
) -> Result<Vec<bool>, Memory>
    ensures { IfOk result (λ v. AreWanted (λ c. rule_of direction c ≡ Some rule) codes.now v.items) }
{
    let mut wanted = Vec::new(alloc);
    for t in 0..codes.len() {
        wanted.push(is_broken(direction, rule, codes[t]))?;
    }
    Ok(wanted)
}

// The position of all switches for which the choices stand, the moved one open.
fn closed_by(
    alloc: Global,
    station: &Station,
    steps: &JointSteps,
    place: u16,
    choices: &ChoiceList,
) -> Result<Vec<bool>, Memory>
    requires steps { HaveJointSteps station.now station.now steps.now }
    requires place { place < length steps.now.old_steps.items }
    requires count { suc (length choices.now) ≡ length steps.now.old_steps.items }
    requires small { (j c : ℕ) → slice_get choices.now j ≡ Some c → c < 2 }
    ensures vector { IfOk result (λ v. IsVector station.now v.items) }
    ensures given { IfOk result (λ v. AreGiven steps.now.old_steps.items place v.items choices.now) }
{
    let vectors = joint_vectors(alloc, station, station, steps, place, choices)?;
    Ok(vectors.old_closed)
}

/// A position of all switches in which the operation breaks the rule; none where there is none. The steps are those of the
/// station with itself, the walk is that of the moved switch, whose step stands at this place of the old steps. Time: the
/// labels and edges of the walk, and the switches.
pub fn find_breach(
    alloc: Global,
    station: &Station,
    steps: &JointSteps,
    walk: &Walk,
    place: u16,
    op: Op,
    rule: Rule,
) -> Result<Option<Vec<bool>>, Memory>
    requires steps { HaveJointSteps station.now station.now steps.now }
    requires moved { TakesIn steps.now.old_steps.items place (a_switch op.switch.0) }
    requires walk { IsRuleWalk station.now steps.now.old_steps.items place op.switch.0 walk.now.graph
        walk.now.codes.items }
    ensures { IfOk result (λ found. IsBreach station.now op rule (option_map (λ v. v.items) found)) }
{
    station.is_station();
    let n = (steps.old_steps.len() - 1) as u16;
    let wanted = broken_labels(alloc, &walk.codes, op.direction, rule)?;
    match find_label(alloc, &walk.graph, &wanted, n)? {
        Some(choices) => Ok(Some(closed_by(alloc, station, steps, place, &choices)?)),
        None => Ok(None),
    }
}

//! The positions for which a list of choices stands.
ghost use Rattle.std.specs.Prelude.{◌≡◌, ℕ, suc, ◌<◌, ◌≤◌, Bool, List, length, map, slice_get, Some, IfOk};
ghost use Rattle.station_graph.specs.Diagram.{Diagram, IsStation};
ghost use Rattle.station_graph.specs.Connection.{a_switch};
ghost use Rattle.station_changes.specs.Compare.{SameSwitch, IsJoint, IsIsolated};
ghost use Rattle.step_graphs.specs.declared.step.Step.{Step};
ghost use Rattle.step_graphs.specs.Steps.{TakesIn};
ghost use Rattle.station_joints.specs.Together.{AreJointSteps, AreJointlyGiven, AreIsolating};
ghost use Rattle.station_joints.specs.Joined.{HaveJointSteps};
ghost use Rattle.station_joints.specs.Chosen.{closed_at};

use crate::joint::JointSteps;
use decision_graphs::ChoiceList;
use ilk_base::Memory;
use station_graph::Station;
use std::alloc::Global;

/// A position of all switches of two stations.
#[derive(Drop)]
pub struct JointVectors {
    /// for each switch of the old station whether it is closed
    pub old_closed: Vec<bool>,
    /// and for each of the new one
    pub new_closed: Vec<bool>,
}

// Whether the choices close the switch of the step at a place.
fn position(choices: &ChoiceList, moved: u16, place: u16) -> bool
    requires moved { moved ≤ length choices.now }
    requires place { place ≤ length choices.now }
    ensures { result ≡ closed_at moved choices.now place }
{
    if place == moved {
        return false;
    }
    let layer = if place < moved { place } else { place - 1 };
    choices.choice(layer) == 1
}

// The positions of the switches of a station with these places.
fn positions(
    alloc: Global,
    places: &[u16],
    moved: u16,
    choices: &ChoiceList,
) -> Result<Vec<bool>, Memory>
    requires moved { moved ≤ length choices.now }
    requires places { (i p : ℕ) → slice_get places.now i ≡ Some p → p ≤ length choices.now }
    ensures { IfOk result (λ v. v.items ≡ map (closed_at moved choices.now) places.now) }
{
    let mut closed = Vec::new(alloc);
    for i in 0..places.len() {
        let place = places[i];
        closed.push(position(choices, moved, place))?;
    }
    Ok(closed)
}

/// The position of all switches for which the choices stand, one for each step but that of the moved switch, which is
/// open. It is isolated where the choices are. Time: the switches.
pub fn joint_vectors(
    alloc: Global,
    old: &Station,
    new: &Station,
    steps: &JointSteps,
    moved: u16,
    choices: &ChoiceList,
) -> Result<JointVectors, Memory>
    requires steps { HaveJointSteps old.now new.now steps.now }
    requires moved { moved < length steps.now.old_steps.items }
    requires count { suc (length choices.now) ≡ length steps.now.old_steps.items }
    requires small { (j c : ℕ) → slice_get choices.now j ≡ Some c → c < 2 }
    ensures joint { IfOk result (λ v. IsJoint old.now new.now v.old_closed.items v.new_closed.items) }
    ensures given { IfOk result (λ v. AreJointlyGiven steps.now.old_steps.items steps.now.new_steps.items moved
        v.old_closed.items v.new_closed.items choices.now) }
    ensures isolated { IfOk result (λ v. AreIsolating steps.now.old_steps.items steps.now.new_steps.items moved
        choices.now → IsIsolated old.now new.now v.old_closed.items v.new_closed.items) }
{
    old.is_station();
    new.is_station();
    let old_closed = positions(alloc, &steps.old_places, moved, choices)?;
    let new_closed = positions(alloc, &steps.new_places, moved, choices)?;
    Ok(JointVectors {
        old_closed,
        new_closed,
    })
}

/// For each position of all switches there are choices that stand for it; they are isolating where it is isolated. And
/// the steps of a switch that is the same in both stations stand at one place. This is a law: the call does nothing.
pub fn positions_give_choices()
    ensures choices { (o n : Diagram) (old_steps new_steps : List Step) (b : ℕ) (u v : List Bool)
        → AreJointSteps o n old_steps new_steps → b < length old_steps → IsJoint o n u v
        → (cs : List ℕ) × AreJointlyGiven old_steps new_steps b u v cs
        × (IsIsolated o n u v → AreIsolating old_steps new_steps b cs) }
    ensures shared { (o n : Diagram) (old_steps new_steps : List Step) (b i k : ℕ)
        → IsStation n → AreJointSteps o n old_steps new_steps → SameSwitch o n i k
        → TakesIn old_steps b (a_switch i) → TakesIn new_steps b (a_switch k) }
{}

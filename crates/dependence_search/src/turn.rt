//! The search for a position in which moving a switch turns an operation.
ghost use Rattle.std.specs.Prelude.{◌≡◌, ◌≢◌, ◌↔◌, ◌<◌, ℕ, List, Bool, IsTrue, length, IfOk, option_map};
ghost use Rattle.ilk_base.specs.declared.words.Op.{Op as Operation};
ghost use Rattle.station_graph.specs.Connection.{a_switch};
ghost use Rattle.station_graph.specs.Diagram.{Diagram};
ghost use Rattle.release_dependence.specs.Depends.{DependsOn};
ghost use Rattle.step_graphs.specs.Steps.{TakesIn};
ghost use Rattle.station_joints.specs.Chosen.{layer_of};
ghost use Rattle.station_joints.specs.Joined.{HaveJointSteps};
ghost use Rattle.dependence_search.specs.RuleWalks.{OneIsNone};
ghost use Rattle.dependence_search.specs.Released.{IsReleasedWalk};
ghost use Rattle.dependence_search.specs.Turning.{IsTurn, IsTurning};

use crate::position::position_of;
use crate::telling::turning_choices;
use decision_graphs::Graph;
use ilk_base::{Memory, Op, Rule, SwitchId};
use station_graph::Station;
use station_joints::JointSteps;
use std::alloc::Global;

/// Whether of two answers one is none: in one of two positions the operation is released, and in the other it breaks a rule.
/// Constant time.
pub fn one_is_none(one: Option<Rule>, other: Option<Rule>) -> bool
    ensures { IsTrue result ↔ OneIsNone one other }
{
    match one {
        Some(_) => match other {
            Some(_) => false,
            None => true,
        },
        None => match other {
            Some(_) => true,
            None => false,
        },
    }
}

// The layer of the step at a place, where that at another place has none.
fn layer_at(moved: u16, place: u16) -> u16
    requires { moved ≢ place }
    ensures { result ≡ layer_of moved place }
{
    if place < moved { place } else { place - 1 }
}

/// A position of all switches in which moving a switch turns the operation: it is released before or after, and the other
/// time it breaks a rule. None exactly where the release does not depend on the switch; it never depends on the moved
/// switch itself. The steps are those of the station with itself, the graph is that of the operation, as
/// `released_graph` makes it, and the step of its switch stands at this place of the old steps. Time: the edges of the
/// graph, and the switches. Memory: a byte for each of its nodes, and the switches.
pub fn find_turn(
    alloc: Global,
    station: &Station,
    steps: &JointSteps,
    released: &Graph,
    place: u16,
    op: Op,
    switch: SwitchId,
) -> Result<Option<Vec<bool>>, Memory>
    requires steps { HaveJointSteps station.now station.now steps.now }
    requires moved { TakesIn steps.now.old_steps.items place (a_switch op.switch.0) }
    requires released { IsReleasedWalk station.now steps.now.old_steps.items place op.switch.0 op.direction released.now }
    requires switch { switch.0 < length station.now.switches }
    ensures { IfOk result (λ found. IsTurn station.now op switch.0 (option_map (λ v. v.items) found)) }
{
    station.is_station();
    if switch.0 == op.switch.0 {
        return Ok(None);
    }
    let layer = layer_at(place, steps.old_places[usize::from(switch.0)]);
    match turning_choices(alloc, released, layer)? {
        Some(choices) => Ok(Some(position_of(alloc, station, steps, place, &choices)?)),
        None => Ok(None),
    }
}

/// Where moving a switch of the station turns an operation in some position, the release of the operation depends on the
/// switch. This is a law: the call does nothing.
pub fn turning_depends()
    ensures { (d : Diagram) (op : Operation) (s : ℕ) (v : List Bool) → s < length d.switches → IsTurning d op s v
        → DependsOn d op s }
{}

//! The ruling on an order.
ghost use Rattle.std.specs.Prelude.{◌≡◌, ◌<◌, ◌↔◌, length, Some, None, IfOk, IsTrue};
ghost use Rattle.station_graph.specs.CentralRules.{IsOperation};
ghost use Rattle.switching_orders.specs.OrderRuling.{Rules, IsIdle, IsAcceptedFrom, IsRuling, AreOperations};

use crate::order::{Order, wanted_end};
use crate::ruling::{Ruling, Step};
use central_rules::breaks;
use ilk_base::{Memory, Op};
use station_graph::{Station, Vector};
use std::alloc::Global;

// Whether the switch has the wanted position already.
fn is_idle(vector: &Vector, op: Op) -> bool
    requires { op.switch.0 < length vector.now }
    ensures { IsTrue result ↔ IsIdle vector.now op }
{
    vector.closed(op.switch) == wanted_end(op.direction)
}

// The ruling on one step.
fn rule(alloc: Global, station: &Station, vector: &Vector, op: Op) -> Result<Step, Memory>
    requires vector { length vector.now ≡ length station.now.switches }
    requires op { IsOperation station.now op }
    ensures { IfOk result (Rules station.now vector.now op) }
{
    if is_idle(vector, op) {
        return Ok(Step::Idle);
    }
    match breaks(alloc, station, vector, op)? {
        Some(rule) => Ok(Step::Denied(rule)),
        None => Ok(Step::Ok),
    }
}

// The ruling that so many steps are ok, and this stops the next.
fn stop(passed: u32, step: Step) -> Ruling
    ensures { result ≡ record { passed = passed; stopped = Some step } }
{
    Ruling {
        passed,
        stopped: Some(step),
    }
}

/// The ruling on an order from a vector: how many of its steps are ok, each after those before it, and what
/// stops the next. The order and the vector are of the station. Time: that of `breaks` for each step that
/// is judged. Memory: the nodes and the switches.
pub fn judge_order(
    alloc: Global,
    station: &Station,
    start: &Vector,
    order: &Order,
) -> Result<Ruling, Memory>
    requires start { length start.now ≡ length station.now.switches }
    requires order { AreOperations station.now order.now }
    ensures ruling { IfOk result (IsRuling station.now start.now order.now) }
    ensures accepted { IfOk result (λ r. (r.stopped ≡ None) ↔ IsAcceptedFrom station.now start.now order.now) }
{
    let mut vector = start.copy(alloc)?;
    for i in 0..order.len() {
        let op = order.step(i);
        match rule(alloc, station, &vector, op)? {
            Step::Ok => vector.set(op.switch, wanted_end(op.direction)),
            Step::Denied(rule) => return Ok(stop(i, Step::Denied(rule))),
            Step::Idle => return Ok(stop(i, Step::Idle)),
        }
    }
    Ok(Ruling {
        passed: order.len(),
        stopped: None,
    })
}

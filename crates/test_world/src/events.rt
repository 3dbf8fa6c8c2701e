//! Stories of two bays: what happens one thing after the other, and what comes of each.
ghost use Rattle.std.specs.Prelude.{◌≡◌, ◌<◌, IfSome, IsTrue, length};
ghost use Rattle.station_graph.specs.Alike.{IsVector};
ghost use Rattle.central_rules.specs.WordRows.{by_rows};
ghost use Rattle.reservation_core.specs.Happens.{InRange};
ghost use Rattle.reservation_core.specs.World.{WorldFacts, OutputFits};

use crate::interruptions::INTERRUPTIONS;
use crate::operations::OPERATIONS;
use crate::outcomes::is_outcome;
use crate::premises::PREMISES;
use crate::stories::{Happens, Line, Says, Story};
use bay_protocol::is_bay;
use central_rules::{PlainJudge, fits_plain};
use ilk_base::{BayId, Dbpos, Direction, Memory, Op, SwitchId};
use reservation_core::{World, WorldEvent, WorldOutcome, facts_hold_at_the_start};
use station_graph::{Station, Vector};
use std::alloc::Global;
use test_stations::{Example, StationRow, rows_hold};

// What happens, as an event of a world.
fn event_of(happens: Happens) -> WorldEvent {
    match happens {
        Happens::Open(switch) => WorldEvent::Command(Op {
            switch: SwitchId(switch),
            direction: Direction::ToOff,
        }),
        Happens::Close(switch) => WorldEvent::Command(Op {
            switch: SwitchId(switch),
            direction: Direction::ToOn,
        }),
        Happens::Sense(switch, word) => WorldEvent::Sense {
            switch: SwitchId(switch),
            word,
        },
        Happens::Deliver(message) => WorldEvent::Deliver { message },
        Happens::Part(message, bytes) => WorldEvent::Part { message, bytes },
        Happens::Tick(bay) => WorldEvent::Tick(BayId(bay)),
        Happens::Withdraw(bay) => WorldEvent::Withdraw(BayId(bay)),
        Happens::Restart(bay) => WorldEvent::Restart(BayId(bay)),
        Happens::Begin(switch) => WorldEvent::Begin(SwitchId(switch)),
        Happens::End(switch) => WorldEvent::End(SwitchId(switch)),
        Happens::Cut(switch) => WorldEvent::Cut(SwitchId(switch)),
    }
}

// Whether the switch or the bay of the event is one of the station.
fn fits(station: &Station, event: &WorldEvent) -> bool
    ensures { IsTrue result → InRange station.now event.now }
{
    match event {
        WorldEvent::Command(op) => op.switch.0 < station.switch_count(),
        WorldEvent::Sense { switch, .. }
        | WorldEvent::Begin(switch)
        | WorldEvent::End(switch)
        | WorldEvent::Cut(switch) => switch.0 < station.switch_count(),
        WorldEvent::Tick(bay) => is_bay(station, *bay),
        WorldEvent::Withdraw(bay) => is_bay(station, *bay),
        WorldEvent::Restart(bay) => is_bay(station, *bay),
        WorldEvent::Deliver { .. } | WorldEvent::Part { .. } => true,
    }
}

// One step, and once more after want of memory, which leaves the world as it was: so the tables hold also where
// any one allocation of a step is refused. None where the event is not of the station, or too many frames were sent.
fn step(
    alloc: Global,
    station: &Station,
    judge: &PlainJudge<'_>,
    world: &mut World,
    happens: Happens,
) -> Option<WorldOutcome>
    requires same { judge.now ≡ station.now }
    requires facts { WorldFacts (by_rows station.now) world.old }
    requires few { length world.old.scene.sent < 2000 }
    ensures facts { WorldFacts (by_rows station.now) world.new }
    ensures few { length world.new.scene.sent < 2000 }
    ensures output { IfSome result (OutputFits station.now) }
{
    let event = event_of(happens);
    if !fits(station, &event) || world.sent() >= 1000 {
        return None;
    }
    if let Ok(outcome) = world.step(alloc, station, event, judge) {
        return Some(outcome);
    }
    world.step(alloc, station, event, judge).ok()
}

// Whether a line is as it says.
fn plays_line(
    alloc: Global,
    station: &Station,
    judge: &PlainJudge<'_>,
    world: &mut World,
    line: &Line,
) -> bool
    requires same { judge.now ≡ station.now }
    requires facts { WorldFacts (by_rows station.now) world.old }
    requires few { length world.old.scene.sent < 2000 }
    ensures facts { WorldFacts (by_rows station.now) world.new }
    ensures few { length world.new.scene.sent < 2000 }
{
    match step(alloc, station, judge, world, line.0) {
        Some(outcome) => is_outcome(alloc, station, line.1, &outcome),
        None => false,
    }
}

// Whether one line after the other is.
fn plays(
    alloc: Global,
    station: &Station,
    judge: &PlainJudge<'_>,
    world: &mut World,
    lines: &[Line],
) -> bool
    requires same { judge.now ≡ station.now }
    requires facts { WorldFacts (by_rows station.now) world.old }
    requires few { length world.old.scene.sent < 2000 }
    ensures facts { WorldFacts (by_rows station.now) world.new }
    ensures few { length world.new.scene.sent < 2000 }
{
    for line in lines {
        if !plays_line(alloc, station, judge, world, line) {
            return false;
        }
    }
    true
}

// Whether each switch is read as it stands.
fn senses_all(
    alloc: Global,
    station: &Station,
    judge: &PlainJudge<'_>,
    world: &mut World,
    start: &Vector,
) -> bool
    requires same { judge.now ≡ station.now }
    requires start { IsVector station.now start.now }
    requires facts { WorldFacts (by_rows station.now) world.old }
    requires few { length world.old.scene.sent < 2000 }
    ensures facts { WorldFacts (by_rows station.now) world.new }
    ensures few { length world.new.scene.sent < 2000 }
{
    for i in 0..station.switch_count() {
        let word = if start.closed(SwitchId(i)) {
            Dbpos::On
        } else {
            Dbpos::Off
        };
        let bay = station.switch(SwitchId(i)).bay.0;
        let line = Line(Happens::Sense(i, word), Says::Quiet(bay, 1));
        if !plays_line(alloc, station, judge, world, &line) {
            return false;
        }
    }
    true
}

// Whether the parts of a story are as they say.
fn plays_parts(
    alloc: Global,
    station: &Station,
    judge: &PlainJudge<'_>,
    world: &mut World,
    parts: &[&[Line]],
) -> bool
    requires same { judge.now ≡ station.now }
    requires facts { WorldFacts (by_rows station.now) world.old }
    requires few { length world.old.scene.sent < 2000 }
{
    for part in parts {
        if !plays(alloc, station, judge, world, part) {
            return false;
        }
    }
    true
}

// Whether a story is, from the start on.
fn plays_story(
    alloc: Global,
    station: &Station,
    judge: &PlainJudge<'_>,
    start: &Vector,
    story: &Story,
) -> Result<bool, Memory>
    requires same { judge.now ≡ station.now }
    requires start { IsVector station.now start.now }
{
    // Its clause says that the facts hold at the start; it does nothing.
    facts_hold_at_the_start(judge);
    let mut world = World::new(alloc, station, start)?;
    let sensed = senses_all(alloc, station, judge, &mut world, start);
    Ok(sensed && plays_parts(alloc, station, judge, &mut world, story.parts))
}

// Where each switch stands at first; none where one of those that are closed is not of the station.
pub(crate) fn start_of(alloc: Global, station: &Station, closed: &[u16]) -> Option<Vector>
    ensures { IfSome result (λ v. IsVector station.now v) }
{
    let Ok(mut start) = Vector::all_open(alloc, station) else {
        return None;
    };
    for switch in closed {
        if *switch >= station.switch_count() {
            return None;
        }
        start.set(SwitchId(*switch), true);
    }
    Some(start)
}

// Whether the story is as it says from there on.
fn is_story(alloc: Global, station: &Station, start: &Vector, story: &Story) -> bool
    requires { IsVector station.now start.now }
{
    if !fits_plain(station) {
        return false;
    }
    matches!(
        plays_story(alloc, station, &PlainJudge::new(station), start, story),
        Ok(true)
    )
}

impl StationRow for Story {
    fn example(&self) -> Example {
        Example::TwoFeeders
    }

    fn holds(&self, alloc: Global, station: &Station) -> bool {
        match start_of(alloc, station, self.closed) {
            Some(start) => is_story(alloc, station, &start, self),
            None => false,
        }
    }
}

#[test]
fn whole_operations(rt: HostRuntime) {
    assert!(rt; rows_hold(rt.alloc(), OPERATIONS));
}

#[test]
fn losses_and_restarts(rt: HostRuntime) {
    assert!(rt; rows_hold(rt.alloc(), INTERRUPTIONS));
}

#[test]
fn broken_premises(rt: HostRuntime) {
    assert!(rt; rows_hold(rt.alloc(), PREMISES));
}

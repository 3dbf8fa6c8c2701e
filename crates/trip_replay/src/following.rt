//! The replay of a log with trips.
ghost use Rattle.std.specs.Prelude.{◌≡◌, ◌<◌, ◌≤◌, ◌+◌, [], length, Some, None, All, IfOk};
ghost use Rattle.station_graph.specs.declared.limits.TheConstants.{BAYS};
ghost use Rattle.reservation_core.specs.declared.values.TheConstants.{MESSAGES};
ghost use Rattle.log_replay.specs.Following.{FitsAt};
ghost use Rattle.log_replay.specs.Replay.{ReportFits};
ghost use Rattle.log_replay.specs.Telling.{IsShowable, IsWholeReport};
ghost use Rattle.trip_core.specs.declared.values.TheConstants.{EVENTS};
ghost use Rattle.trip_core.specs.Facts.{TripFacts};
ghost use Rattle.trip_core.specs.Start.{IsTripStart};
ghost use Rattle.trip_core.specs.TripRuns.{TripHeadline};
ghost use Rattle.trip_replay.specs.TripRecords.{TripMayBeTold};
ghost use Rattle.trip_replay.specs.TripLogLines.{trip_start_of, TripHasStart, trip_lines_of};
ghost use Rattle.trip_replay.specs.TripReplays.{TripLineHappens, IsTripReplay};

use crate::event::TripLogEvent;
use crate::log::TripLog;
use central_rules::Judge;
use ilk_base::Memory;
use log_replay::{at_count, broken, is_numbered, start_of};
use reservation_core::{Which, WorldOutcome};
use station_graph::{Station, Vector};
use std::alloc::Global;
use trip_core::{TripWorld, trip_facts_hold_at_the_start};

/// What the replay of a log with trips shows.
pub use log_replay::Report as TripReport;

// What comes of an event: nothing, where it tells where a switch stands at first.
fn follow<J: Judge>(
    world: &mut TripWorld,
    alloc: Global,
    station: &Station,
    event: TripLogEvent,
    judge: &J,
) -> Result<Option<WorldOutcome>, Memory>
    requires same { (J.meaning judge.now).diagram ≡ station.now }
    requires facts { TripFacts (J.meaning judge.now) world.old }
    requires told { TripMayBeTold station.now event }
    requires room { length world.old.world.scene.sent ≤ MESSAGES }
    requires count { world.old.events ≤ EVENTS }
    ensures happens { IfOk result (TripLineHappens (J.meaning judge.now) world.old event world.new) }
    ensures fits { IfOk result (FitsAt station.now) }
    ensures few { length world.new.world.scene.sent < length world.old.world.scene.sent + BAYS }
    ensures count { world.new.events ≤ world.old.events + 1 }
    ensures facts { TripFacts (J.meaning judge.now) world.new }
{
    match event {
        TripLogEvent::At { .. } => Ok(None),
        TripLogEvent::Step(event) => Ok(Some(world.step(alloc, station, event, judge)?)),
    }
}

// The replay in a new world.
fn replay_in<J: Judge>(
    alloc: Global,
    station: &Station,
    start: &Vector,
    world: &mut TripWorld,
    log: &TripLog,
    judge: &J,
) -> Result<TripReport, Memory>
    requires same { (J.meaning judge.now).diagram ≡ station.now }
    requires log { All (TripMayBeTold station.now) log.now }
    requires start { start.now ≡ trip_start_of station.now log.now }
    requires has { TripHasStart station.now log.now }
    requires new { IsTripStart station.now start.now world.old }
    ensures replay { IfOk result (IsTripReplay (J.meaning judge.now) log.now) }
    ensures count { IfOk result (λ r. r.count ≡ length log.now) }
    ensures fits { IfOk result (ReportFits station.now) }
    ensures showable { IfOk result (λ r. All (IsShowable station.now) r.out) }
{
    // Their clauses are used; they do nothing.
    judge.diagram_is_station();
    trip_facts_hold_at_the_start(judge);
    let mut outcomes = Vec::new(alloc);
    for i in 0..log.count() {
        let outcome = follow(world, alloc, station, log.event(i), judge)?;
        is_numbered(&outcome);
        if let Some(which) = broken(&outcome) {
            return Ok(TripReport::new(outcomes, Some((i + 1, which)), log.count()));
        }
        outcomes.push(outcome)?;
    }
    Ok(TripReport::new(outcomes, None, log.count()))
}

// The replay from a start.
fn replay_from<J: Judge>(
    alloc: Global,
    station: &Station,
    start: &Vector,
    log: &TripLog,
    judge: &J,
) -> Result<TripReport, Memory>
    requires same { (J.meaning judge.now).diagram ≡ station.now }
    requires log { All (TripMayBeTold station.now) log.now }
    requires start { start.now ≡ trip_start_of station.now log.now }
    requires has { TripHasStart station.now log.now }
    ensures replay { IfOk result (IsTripReplay (J.meaning judge.now) log.now) }
    ensures count { IfOk result (λ r. r.count ≡ length log.now) }
    ensures fits { IfOk result (ReportFits station.now) }
    ensures showable { IfOk result (λ r. All (IsShowable station.now) r.out) }
{
    let mut world = TripWorld::new(alloc, station, start)?;
    replay_in(alloc, station, start, &mut world, log, judge)
}

/// The replay of a log with trips: all bays of the station take the steps that the log says, and breakers open
/// where it says so, up to its end or to the first line that breaks a premise. The log and the judge are of the
/// station. Time and memory: those of `TripWorld::step` for each record, and what is shown.
pub fn replay_trips<J: Judge>(
    alloc: Global,
    station: &Station,
    log: &TripLog,
    judge: &J,
) -> Result<TripReport, Memory>
    requires same { (J.meaning judge.now).diagram ≡ station.now }
    requires log { All (TripMayBeTold station.now) log.now }
    // The report is that of one run of the log, in which a trip is a step of no node.
    ensures replay { IfOk result (IsTripReplay (J.meaning judge.now) log.now) }
    ensures count { IfOk result (λ r. r.count ≡ length log.now) }
    // Every decision is exact; every movement was granted and obeys the first two rules on the true positions
    // throughout, and the third as long as no breaker has tripped that its grant used; a sound start stays sound.
    ensures headline { IfOk result (λ r. TripHeadline station.now (trip_start_of station.now log.now)
        (trip_lines_of log.now r.out [])) }
    ensures fits { IfOk result (ReportFits station.now) }
    // All that it shows is of the station, and its numbers are of 32 bits: so its text decides it.
    ensures whole { IfOk result (IsWholeReport station.now (length log.now)) }
{
    judge.diagram_is_station();
    let count = log.count();
    match start_of(alloc, station, log.plain())? {
        Some(start) => replay_from(alloc, station, &start, log, judge),
        None => {
            let line = at_count(log.plain()) + 1;
            Ok(TripReport::new(Vec::new(alloc), Some((line, Which::Start)), count))
        }
    }
}

//! The replay of a log.
ghost use Rattle.std.specs.Prelude.{◌≡◌, ◌<◌, ◌≤◌, ◌+◌, ◌↔◌, [], length, Some, None, All, IfOk, IfSome, IfNone, OnErr};
ghost use Rattle.station_graph.specs.declared.limits.TheConstants.{BAYS};
ghost use Rattle.reservation_core.specs.declared.values.Which.{Which as Broken};
ghost use Rattle.reservation_core.specs.declared.values.TheConstants.{MESSAGES};
ghost use Rattle.reservation_core.specs.Headline.{Headline};
ghost use Rattle.reservation_core.specs.LogLines.{HasStart, start_of, lines_of};
ghost use Rattle.reservation_core.specs.World.{IsNewWorld, WorldFacts};
ghost use Rattle.log_replay.specs.Records.{MayBeTold};
ghost use Rattle.log_replay.specs.Replay.{IsReplay, ReportFits};
ghost use Rattle.log_replay.specs.Following.{LineHappens, FitsAt, IsBroken};
ghost use Rattle.log_replay.specs.Telling.{IsShowable, IsWholeReport};

use crate::log::Log;
use crate::numbered::is_numbered;
use crate::report::Report;
use crate::start::{at_count, start_of};
use central_rules::Judge;
use ilk_base::Memory;
use reservation_core::{LogEvent, Which, World, WorldOutcome, facts_hold_at_the_start};
use station_graph::{Station, Vector};
use std::alloc::Global;

// What comes of an event: nothing, where it tells where a switch stands at first.
fn follow<J: Judge>(
    world: &mut World,
    alloc: Global,
    station: &Station,
    event: LogEvent,
    judge: &J,
) -> Result<Option<WorldOutcome>, Memory>
    requires same { (J.meaning judge.now).diagram ≡ station.now }
    requires facts { WorldFacts (J.meaning judge.now) world.old }
    requires told { MayBeTold station.now event }
    requires room { length world.old.scene.sent ≤ MESSAGES }
    ensures happens { IfOk result (LineHappens (J.meaning judge.now) world.old.scene event world.new.scene) }
    ensures fits { IfOk result (FitsAt station.now) }
    ensures few { length world.new.scene.sent < length world.old.scene.sent + BAYS }
    ensures facts { WorldFacts (J.meaning judge.now) world.new }
{
    match event {
        LogEvent::At { .. } => Ok(None),
        LogEvent::Step(event) => Ok(Some(world.step(alloc, station, event, judge)?)),
    }
}

/// The premise that is broken by what comes of an event, if one is. At once; takes no memory.
pub fn broken(outcome: &Option<WorldOutcome>) -> Option<Which>
    ensures some { IfSome result (λ which. IsBroken outcome.now which) }
    ensures none { IfNone result ((which : Broken) → ¬ IsBroken outcome.now which) }
{
    match outcome {
        Some(WorldOutcome::Premise(which)) => Some(*which),
        _ => None,
    }
}

// The replay in a new world.
fn replay_in<J: Judge>(
    alloc: Global,
    station: &Station,
    start: &Vector,
    world: &mut World,
    log: &Log,
    judge: &J,
) -> Result<Report, Memory>
    requires same { (J.meaning judge.now).diagram ≡ station.now }
    requires log { All (MayBeTold station.now) log.now }
    requires start { start.now ≡ start_of station.now log.now }
    requires has { HasStart station.now log.now }
    requires new { IsNewWorld station.now start.now world.old }
    ensures replay { IfOk result (IsReplay (J.meaning judge.now) log.now) }
    ensures count { IfOk result (λ r. r.count ≡ length log.now) }
    ensures fits { IfOk result (ReportFits station.now) }
    ensures showable { IfOk result (λ r. All (IsShowable station.now) r.out) }
{
    // Their clauses are used; they do nothing.
    judge.diagram_is_station();
    facts_hold_at_the_start(judge);
    let mut outcomes = Vec::new(alloc);
    for i in 0..log.count() {
        let outcome = follow(world, alloc, station, log.event(i), judge)?;
        is_numbered(&outcome);
        if let Some(which) = broken(&outcome) {
            return Ok(Report::new(outcomes, Some((i + 1, which)), log.count()));
        }
        outcomes.push(outcome)?;
    }
    Ok(Report::new(outcomes, None, log.count()))
}

// The replay from a start.
fn replay_from<J: Judge>(
    alloc: Global,
    station: &Station,
    start: &Vector,
    log: &Log,
    judge: &J,
) -> Result<Report, Memory>
    requires same { (J.meaning judge.now).diagram ≡ station.now }
    requires log { All (MayBeTold station.now) log.now }
    requires start { start.now ≡ start_of station.now log.now }
    requires has { HasStart station.now log.now }
    ensures replay { IfOk result (IsReplay (J.meaning judge.now) log.now) }
    ensures count { IfOk result (λ r. r.count ≡ length log.now) }
    ensures fits { IfOk result (ReportFits station.now) }
    ensures showable { IfOk result (λ r. All (IsShowable station.now) r.out) }
{
    let mut world = World::new(alloc, station, start)?;
    replay_in(alloc, station, start, &mut world, log, judge)
}

/// The replay of a log: all bays of the station take the steps that the log says, from where it says that
/// the switches stand, up to its end or to the first line that breaks a premise. The log and the judge are
/// of the station. Time and memory: those of `World::step` for each record, and what is shown.
pub fn replay<J: Judge>(
    alloc: Global,
    station: &Station,
    log: &Log,
    judge: &J,
) -> Result<Report, Memory>
    requires same { (J.meaning judge.now).diagram ≡ station.now }
    requires log { All (MayBeTold station.now) log.now }
    // The report is that of one run of the log.
    ensures replay { IfOk result (IsReplay (J.meaning judge.now) log.now) }
    ensures count { IfOk result (λ r. r.count ≡ length log.now) }
    // Every decision is exact, and every movement was granted and obeys the rules on the true positions throughout.
    ensures headline { IfOk result (λ r. Headline station.now (start_of station.now log.now)
        (lines_of log.now r.out [])) }
    ensures fits { IfOk result (ReportFits station.now) }
    // All that it shows is of the station, and its numbers are of 32 bits: so its text decides it.
    ensures whole { IfOk result (IsWholeReport station.now (length log.now)) }
{
    judge.diagram_is_station();
    let count = log.count();
    match start_of(alloc, station, log)? {
        Some(start) => replay_from(alloc, station, &start, log, judge),
        None => {
            let line = at_count(log) + 1;
            Ok(Report::new(Vec::new(alloc), Some((line, Which::Start)), count))
        }
    }
}

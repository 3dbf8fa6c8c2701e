//! Where the switches stand before anything happens, as a log tells it.
ghost use Rattle.std.specs.Prelude.{◌≡◌, ◌<◌, ◌≤◌, length, Some, None, IfOk, IfSome, IfNone};
ghost use Rattle.reservation_core.specs.LogLines.{told_by, told_at, start_of, HasStart, is_at, at_count};

use crate::log::Log;
use ilk_base::{Memory, SwitchId};
use reservation_core::LogEvent;
use station_graph::{Station, Vector};
use std::alloc::Global;

// The position of the switch, if the event tells it.
fn told_by(event: LogEvent, id: SwitchId) -> Option<bool>
    ensures { result ≡ told_by event id.0 }
{
    match event {
        LogEvent::At { switch, closed } => { if switch.0 == id.0 { Some(closed) } else { None } }
        LogEvent::Step(_) => None,
    }
}

// Where a switch stands at first, if the log tells it.
fn told_at(log: &Log, id: SwitchId) -> Option<bool>
    ensures { result ≡ told_at log.now id.0 }
{
    for i in 0..log.count() {
        let told = told_by(log.event(i), id);
        if told.is_some() {
            return told;
        }
    }
    None
}

/// Where each switch stands at first; none where the log does not tell it of each. Time: the records `at`
/// times the switches; where a switch is not told of, the records. Memory: the switches.
pub fn start_of(alloc: Global, station: &Station, log: &Log) -> Result<Option<Vector>, Memory>
    ensures some { IfOk result (λ o. IfSome o (λ v. v ≡ start_of station.now log.now)) }
    ensures has { IfOk result (λ o. IfSome o (λ _. HasStart station.now log.now)) }
    ensures none { IfOk result (λ o. IfNone o (¬ HasStart station.now log.now)) }
{
    let mut start = Vector::all_open(alloc, station)?;
    for i in 0..station.switch_count() {
        let Some(closed) = told_at(log, SwitchId(i)) else {
            return Ok(None);
        };
        start.set(SwitchId(i), closed);
    }
    Ok(Some(start))
}

// Whether the event tells where a switch stands at first.
fn is_at(event: LogEvent) -> bool
    ensures { result ≡ is_at event }
{
    match event {
        LogEvent::At { .. } => true,
        LogEvent::Step(_) => false,
    }
}

/// How many records tell where a switch stands at first. Time: the records. Takes no memory.
pub fn at_count(log: &Log) -> u32
    ensures count { result ≡ at_count log.now }
    ensures few { result ≤ length log.now }
{
    let mut count = 0;
    for i in 0..log.count() {
        if is_at(log.event(i)) {
            count += 1;
        }
    }
    count
}

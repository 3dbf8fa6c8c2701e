//! The trial of every reading.
ghost use Rattle.std.specs.Prelude.{◌≡◌, ◌<◌, ◌≤◌, ◌+◌, length, true, false, Some, IfOk, IfSome, IfNone};
ghost use Rattle.station_graph.specs.CentralRules.{Breaks, IsOperation};
ghost use Rattle.central_rules.specs.Readings.{IsReadingFrom, IsReading, Decides};
ghost use Rattle.central_rules.specs.Trying.{SameBelow, NoneBreaks, NoneBreaksWith};
ghost use Rattle.double_points.specs.Words.{AreWords};

use crate::rules::breaks;
use crate::verdict::Verdict;
use double_points::{Readings, agrees};
use ilk_base::{Memory, Op, Rule, SwitchId};
use station_graph::{Station, Vector};
use std::alloc::Global;

// Looks for a reading that breaks a rule, among those that are as the vector is below a switch. Where
// there is one, the vector is it.
#[cycle(trial)]
fn find_from(
    alloc: Global,
    station: &Station,
    readings: &Readings,
    op: Op,
    at: u16,
    vector: &mut Vector,
) -> Result<Option<Rule>, Memory>
    requires whole { length vector.old ≡ length readings.now }
    requires all { AreWords station.now readings.now }
    requires op { IsOperation station.now op }
    requires within { at ≤ length readings.now }
    ensures count { length vector.new ≡ length vector.old }
    ensures below { SameBelow at vector.old vector.new }
    ensures found { IfOk result (λ o. IfSome o (λ rule. IsReadingFrom at readings.now vector.new
        × Breaks station.now vector.new op (Some rule))) }
    ensures none { IfOk result (λ o. IfNone o (NoneBreaks station.now at readings.now vector.old op)) }
{
    if at == station.switch_count() {
        return breaks(alloc, station, vector, op);
    }
    if let Some(rule) = find_with(alloc, station, readings, op, at, false, vector)? {
        return Ok(Some(rule));
    }
    find_with(alloc, station, readings, op, at, true, vector)
}

// The same among those with this position there.
#[cycle(trial)]
fn find_with(
    alloc: Global,
    station: &Station,
    readings: &Readings,
    op: Op,
    at: u16,
    closed: bool,
    vector: &mut Vector,
) -> Result<Option<Rule>, Memory>
    requires whole { length vector.old ≡ length readings.now }
    requires all { AreWords station.now readings.now }
    requires op { IsOperation station.now op }
    requires within { at < length readings.now }
    ensures count { length vector.new ≡ length vector.old }
    ensures below { SameBelow at vector.old vector.new }
    ensures found { IfOk result (λ o. IfSome o (λ rule. IsReadingFrom at readings.now vector.new
        × Breaks station.now vector.new op (Some rule))) }
    ensures none { IfOk result (λ o. IfNone o (NoneBreaksWith closed station.now at readings.now vector.old op)) }
{
    if !agrees(readings.word(SwitchId(at)), closed) {
        return Ok(None);
    }
    station.is_station();
    vector.set(SwitchId(at), closed);
    find_from(alloc, station, readings, op, at + 1, vector)
}

/// The verdict over all readings of these words, by trial of each. Time: that of `breaks` for each
/// reading, of which there are two for each switch whose word is neither off nor on, multiplied.
/// Memory: the nodes and the switches.
pub fn trial(
    alloc: Global,
    station: &Station,
    readings: &Readings,
    op: Op,
) -> Result<Verdict, Memory>
    requires all { AreWords station.now readings.now }
    requires op { IsOperation station.now op }
    ensures { IfOk result (Decides station.now (IsReading readings.now) op) }
{
    let mut vector = Vector::all_open(alloc, station)?;
    match find_from(alloc, station, readings, op, 0, &mut vector)? {
        Some(rule) => Ok(Verdict::Denied {
            rule,
            reading: vector,
        }),
        None => Ok(Verdict::Release),
    }
}

//! What is decided with a switch off, and with it on.
ghost use Rattle.std.specs.Prelude.{◌≡◌, ◌<◌, ◌&&◌, length, IfOk};
ghost use Rattle.station_graph.specs.CentralRules.{IsOperation};
ghost use Rattle.double_points.specs.Words.{AreWords};
ghost use Rattle.whatever_text.specs.Whatever.{is_denial, DeniedWith, DeniedWithBoth};

use central_rules::{Judge, Verdict};
use double_points::Readings;
use ilk_base::{Dbpos, Memory, Op, SwitchId};
use station_graph::Station;
use std::alloc::Global;

// Whether the verdict is a denial.
fn is_denial(verdict: &Verdict) -> bool
    ensures { result ≡ is_denial verdict.now }
{
    match verdict {
        Verdict::Release => false,
        Verdict::Denied { .. } => true,
    }
}

// Whether the operation is denied where the switch has this word.
fn denied_with<J: Judge>(
    alloc: Global,
    station: &Station,
    judge: &J,
    readings: &Readings,
    op: Op,
    switch: SwitchId,
    word: Dbpos,
) -> Result<bool, Memory>
    requires same { (J.meaning judge.now).diagram ≡ station.now }
    requires words { AreWords station.now readings.now }
    requires op { IsOperation station.now op }
    requires switch { switch.0 < length station.now.switches }
    ensures { IfOk result (DeniedWith station.now readings.now op switch.0 word) }
{
    let _ = station;
    let mut other = readings.copy(alloc)?;
    other.sense(switch, word);
    let verdict = judge.judge_all(alloc, op, &other)?;
    Ok(is_denial(&verdict))
}

// Whether the operation is denied with the switch off, and denied with it on.
pub(crate) fn denied_with_both<J: Judge>(
    alloc: Global,
    station: &Station,
    judge: &J,
    readings: &Readings,
    op: Op,
    switch: SwitchId,
) -> Result<bool, Memory>
    requires same { (J.meaning judge.now).diagram ≡ station.now }
    requires words { AreWords station.now readings.now }
    requires op { IsOperation station.now op }
    requires switch { switch.0 < length station.now.switches }
    ensures { IfOk result (DeniedWithBoth station.now readings.now op switch.0) }
{
    let off = denied_with(alloc, station, judge, readings, op, switch, Dbpos::Off)?;
    let on = denied_with(alloc, station, judge, readings, op, switch, Dbpos::On)?;
    Ok(off && on)
}

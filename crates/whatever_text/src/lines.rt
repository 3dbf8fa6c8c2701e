//! The lines of the switches that do not matter alone.
ghost use Rattle.std.specs.Prelude.{◌≡◌, ◌<◌, length, IfOk, if◌then◌else◌, []};
ghost use Rattle.station_graph.specs.CentralRules.{IsOperation};
ghost use Rattle.double_points.specs.Words.{AreWords};
ghost use Rattle.whatever_text.specs.Whatever.{is_unknown, whatever_line, IsWhateverLine, IsWhateverText};

use crate::verdicts::denied_with_both;
use central_rules::{Judge, is_uncertain};
use double_points::Readings;
use ilk_base::{Memory, Op, SwitchId, Text};
use station_graph::Station;
use std::alloc::Global;

// Whether the switch is another than the one that is moved, and its position is not known.
fn is_unknown(readings: &Readings, op: Op, switch: SwitchId) -> bool
    requires { switch.0 < length readings.now }
    ensures { result ≡ is_unknown readings.now op.switch.0 switch.0 }
{
    if switch.0 == op.switch.0 {
        return false;
    }
    is_uncertain(readings.word(switch))
}

// The line of a switch where it does not matter, else none.
fn line_where(
    alloc: Global,
    station: &Station,
    switch: SwitchId,
    both: bool,
) -> Result<Text, Memory>
    requires { switch.0 < length station.now.switches }
    ensures { IfOk result (λ t. t ≡ (if both then whatever_line station.now switch.0 else [])) }
{
    let mut text = Text::new(alloc);
    if both {
        text.push(b"whatever ")?;
        text.push(station.switch_path(switch).as_bytes())?;
        text.push(b"\n")?;
    }
    Ok(text)
}

// The line of the switch, if it has one.
fn whatever_line<J: Judge>(
    alloc: Global,
    station: &Station,
    judge: &J,
    readings: &Readings,
    op: Op,
    switch: SwitchId,
) -> Result<Text, Memory>
    requires same { (J.meaning judge.now).diagram ≡ station.now }
    requires words { AreWords station.now readings.now }
    requires op { IsOperation station.now op }
    requires switch { switch.0 < length station.now.switches }
    ensures { IfOk result (IsWhateverLine station.now readings.now op switch.0) }
{
    if !is_unknown(readings, op, switch) {
        return Ok(Text::new(alloc));
    }
    let both = denied_with_both(alloc, station, judge, readings, op, switch)?;
    line_where(alloc, station, switch, both)
}

/// A line `whatever PATH` for each switch, in document order, whose word is neither off nor on, and with which the
/// operation is denied both where that word is off and where it is on, the others being as they are. Time: two verdicts
/// of the judge for each switch whose position is not known.
pub fn whatever_text<J: Judge>(
    alloc: Global,
    station: &Station,
    judge: &J,
    readings: &Readings,
    op: Op,
) -> Result<Text, Memory>
    requires same { (J.meaning judge.now).diagram ≡ station.now }
    requires words { AreWords station.now readings.now }
    requires op { IsOperation station.now op }
    ensures { IfOk result (IsWhateverText station.now readings.now op) }
{
    let mut text = Text::new(alloc);
    for i in 0..station.switch_count() {
        let next = whatever_line(alloc, station, judge, readings, op, SwitchId(i))?;
        text.push(next.bytes())?;
    }
    Ok(text)
}

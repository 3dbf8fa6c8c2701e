//! The rule that an operation breaks.
ghost use Rattle.std.specs.Prelude.{◌≡◌, ◌<◌, ◌↔◌, length, IsTrue, IfOk};
ghost use Rattle.station_graph.specs.Diagram.{node_count};
ghost use Rattle.station_graph.specs.Connection.{Bonded};
ghost use Rattle.station_graph.specs.CentralRules.{Breaks, BreaksEarthing, BreaksClosing, BreaksFeeding, BreaksLoad};
ghost use Rattle.station_graph.specs.CentralRules.{GapCarriesLoad, IsOperation};
ghost use Rattle.station_graph.specs.Alike.{IsVector};

use crate::labelling::labels;
use crate::supply::{coupled, is_earthable, is_energisable, is_live, is_loaded};
use ilk_base::{Direction, Kind, Memory, NodeId, Op, Rule};
use station_graph::{Station, Vector};
use std::alloc::Global;

// Whether an earthing switch is closed at a node that is energisable.
fn breaks_earthing(
    alloc: Global,
    station: &Station,
    vector: &Vector,
    op: Op,
) -> Result<bool, Memory>
    requires vector { IsVector station.now vector.now }
    requires op { IsOperation station.now op }
    ensures { IfOk result (λ b. IsTrue b ↔ BreaksEarthing station.now vector.now op) }
{
    let moved = station.switch(op.switch);
    if moved.kind != Kind::Earthing || op.direction != Direction::ToOn {
        return Ok(false);
    }
    let open = vector.with(alloc, op.switch, false)?;
    let coupled = coupled(alloc, station, &open)?;
    Ok(is_energisable(station, &open, &coupled, moved.first))
}

// Whether a breaker or disconnector is closed with which its first end is energisable and earthable.
fn breaks_closing(alloc: Global, station: &Station, vector: &Vector, op: Op) -> Result<bool, Memory>
    requires vector { IsVector station.now vector.now }
    requires op { IsOperation station.now op }
    ensures { IfOk result (λ b. IsTrue b ↔ BreaksClosing station.now vector.now op) }
{
    let moved = station.switch(op.switch);
    if moved.second.is_none() || op.direction != Direction::ToOn {
        return Ok(false);
    }
    let closed = vector.with(alloc, op.switch, true)?;
    let coupled = coupled(alloc, station, &closed)?;
    if !is_energisable(station, &closed, &coupled, moved.first) {
        return Ok(false);
    }
    Ok(is_earthable(station, &closed, &coupled, moved.first))
}

// Whether an infeed is set on at a node that is earthable.
fn breaks_feeding(alloc: Global, station: &Station, vector: &Vector, op: Op) -> Result<bool, Memory>
    requires vector { IsVector station.now vector.now }
    requires op { IsOperation station.now op }
    ensures { IfOk result (λ b. IsTrue b ↔ BreaksFeeding station.now vector.now op) }
{
    let moved = station.switch(op.switch);
    if moved.kind != Kind::Infeed || op.direction != Direction::ToOn {
        return Ok(false);
    }
    let open = vector.with(alloc, op.switch, false)?;
    let coupled = coupled(alloc, station, &open)?;
    Ok(is_earthable(station, &open, &coupled, moved.first))
}

// Whether a gap between two nodes makes or breaks load.
fn gap_carries_load(
    alloc: Global,
    station: &Station,
    vector: &Vector,
    first: NodeId,
    second: NodeId,
) -> Result<bool, Memory>
    requires vector { IsVector station.now vector.now }
    requires first { first.0 < node_count station.now }
    requires second { second.0 < node_count station.now }
    ensures { IfOk result
        (λ b. IsTrue b ↔ GapCarriesLoad station.now vector.now first.0 second.0) }
{
    let joined = labels(alloc, station, vector, false)?;
    let live = is_live(station, vector, &joined, first)
        || is_live(station, vector, &joined, second);
    if !live
        || !is_loaded(station, vector, &joined, first)
        || !is_loaded(station, vector, &joined, second)
    {
        return Ok(false);
    }
    Ok(!is_bonded(alloc, station, vector, first, second)?)
}

// Whether two nodes are bonded.
fn is_bonded(
    alloc: Global,
    station: &Station,
    vector: &Vector,
    first: NodeId,
    second: NodeId,
) -> Result<bool, Memory>
    requires vector { IsVector station.now vector.now }
    requires first { first.0 < node_count station.now }
    requires second { second.0 < node_count station.now }
    ensures { IfOk result (λ b. IsTrue b ↔ Bonded station.now vector.now first.0 second.0) }
{
    let bonded = labels(alloc, station, vector, true)?;
    Ok(bonded.get(first.0 as usize) == bonded.get(second.0 as usize))
}

// Whether a disconnector is moved that would make or break load.
fn breaks_load(alloc: Global, station: &Station, vector: &Vector, op: Op) -> Result<bool, Memory>
    requires vector { IsVector station.now vector.now }
    requires op { IsOperation station.now op }
    ensures { IfOk result (λ b. IsTrue b ↔ BreaksLoad station.now vector.now op) }
{
    let moved = station.switch(op.switch);
    let Some(second) = moved.second else {
        return Ok(false);
    };
    if moved.kind != Kind::Disconnector {
        return Ok(false);
    }
    let open = vector.with(alloc, op.switch, false)?;
    gap_carries_load(alloc, station, &open, moved.first, second)
}

/// The first central rule that the operation breaks in this vector, or none. Nobody earths what may be
/// live (R1), nobody joins what may be live to what may be earthed (R2), and no disconnector makes or
/// breaks load (R3); for the first two each breaker counts as closed, since an open breaker is no
/// isolating gap. The position of the moved switch itself is not looked at. (Interlocking by the
/// station's topology, in the manner of Brand, Lohmann and Wimmer, Substation Automation Handbook; the
/// wording is this project's.)
///
/// Time: at most three times that of `labels`, and the switches and taps. Memory: the nodes and the
/// switches.
pub fn breaks(
    alloc: Global,
    station: &Station,
    vector: &Vector,
    op: Op,
) -> Result<Option<Rule>, Memory>
    requires vector { IsVector station.now vector.now }
    requires op { IsOperation station.now op }
    ensures { IfOk result (Breaks station.now vector.now op) }
{
    if breaks_earthing(alloc, station, vector, op)? {
        return Ok(Some(Rule::R1));
    }
    if breaks_closing(alloc, station, vector, op)? || breaks_feeding(alloc, station, vector, op)? {
        return Ok(Some(Rule::R2));
    }
    if breaks_load(alloc, station, vector, op)? {
        return Ok(Some(Rule::R3));
    }
    Ok(None)
}

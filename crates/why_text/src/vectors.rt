//! The positions in which the ways of a denial are shown, and those that count for them.
ghost use Rattle.std.specs.Prelude.{◌≡◌, IfOk};
ghost use Rattle.station_graph.specs.Alike.{IsVector};
ghost use Rattle.station_graph.specs.CentralRules.{IsOperation};
ghost use Rattle.station_graph.specs.Connection.{with_breakers_closed};
ghost use Rattle.why_text.specs.WhyText.{counted_in, shown_in};

use ilk_base::{Memory, Op, Rule};
use station_graph::{Station, Vector};
use std::alloc::Global;

// The reading with the moved switch open, or, for R2, closed.
pub(crate) fn shown_vector(
    alloc: Global,
    station: &Station,
    rule: Rule,
    op: Op,
    reading: &Vector,
) -> Result<Vector, Memory>
    requires reading { IsVector station.now reading.now }
    requires op { IsOperation station.now op }
    ensures value { IfOk result (λ v. v ≡ shown_in rule reading.now op) }
    ensures whole { IfOk result (IsVector station.now) }
{
    let _ = station;
    match rule {
        Rule::R1 => reading.with(alloc, op.switch, false),
        Rule::R2 => reading.with(alloc, op.switch, true),
        Rule::R3 => reading.with(alloc, op.switch, false),
    }
}

// The vector in which what is coupled is joined.
fn coupling(alloc: Global, station: &Station, vector: &Vector) -> Result<Vector, Memory>
    requires { IsVector station.now vector.now }
    ensures value { IfOk result (λ v. v ≡ with_breakers_closed station.now vector.now) }
    ensures whole { IfOk result (λ v. IsVector station.now v) }
{
    vector.with_breakers_closed(alloc, station)
}

// The vector with every breaker closed, or, for R3, as it is.
pub(crate) fn counted_vector(
    alloc: Global,
    station: &Station,
    rule: Rule,
    vector: &Vector,
) -> Result<Vector, Memory>
    requires vector { IsVector station.now vector.now }
    ensures value { IfOk result (λ v. v ≡ counted_in rule station.now vector.now) }
    ensures whole { IfOk result (IsVector station.now) }
{
    match rule {
        Rule::R1 => coupling(alloc, station, vector),
        Rule::R2 => coupling(alloc, station, vector),
        Rule::R3 => vector.copy(alloc),
    }
}

//! Whether a position is sound: no node is both energisable and earthable.
ghost use Rattle.std.specs.Prelude.{◌≡◌, ◌↔◌, ◌<◌, IsTrue, IfOk, length, Some};
ghost use Rattle.ilk_base.specs.declared.words.Rule.TheVariants.{R2};
ghost use Rattle.station_graph.specs.Alike.{IsVector};
ghost use Rattle.station_graph.specs.Supply.{Apart};
ghost use Rattle.commissioning_tests.specs.Growing.{FeedsEarth};

use crate::operations::operation;
use central_rules::breaks;
use ilk_base::{Direction, Kind, Memory, Rule, SwitchId};
use station_graph::{Station, Vector};
use std::alloc::Global;

// Whether the answer is the second rule.
fn is_second(answer: Option<Rule>) -> bool
    ensures { IsTrue result ↔ (answer ≡ Some R2) }
{
    match answer {
        Some(rule) => rule == Rule::R2,
        None => false,
    }
}

// Whether the switch is a closed infeed, and closing it breaks the second rule.
fn feeds_earth(
    alloc: Global,
    station: &Station,
    vector: &Vector,
    switch: SwitchId,
) -> Result<bool, Memory>
    requires vector { IsVector station.now vector.now }
    requires switch { switch.0 < length station.now.switches }
    ensures { IfOk result (λ b. IsTrue b ↔ FeedsEarth station.now vector.now switch.0) }
{
    let moved = station.switch(switch);
    if moved.kind != Kind::Infeed {
        return Ok(false);
    }
    if !vector.closed(switch) {
        return Ok(false);
    }
    let answer = breaks(alloc, station, vector, operation(switch, Direction::ToOn))?;
    Ok(is_second(answer))
}

// Whether no node is both energisable and earthable: by the infeeds, at one of whose nodes each energisable node is.
pub(crate) fn is_sound(alloc: Global, station: &Station, vector: &Vector) -> Result<bool, Memory>
    requires { IsVector station.now vector.now }
    ensures { IfOk result (λ b. IsTrue b ↔ Apart station.now vector.now) }
{
    for i in 0..station.switch_count() {
        let feeds = feeds_earth(alloc, station, vector, SwitchId(i))?;
        if feeds {
            return Ok(false);
        }
    }
    Ok(true)
}

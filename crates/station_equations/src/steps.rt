//! The lines of the parts of a station.
ghost use Rattle.std.specs.Prelude.{◌≡◌, ◌<◌, ◌++◌, ◌∷◌, [], length, IfOk};
ghost use Rattle.station_graph.specs.Diagram.{part_count};
ghost use Rattle.part_alphabets.specs.Alphabets.{AreAlphabets};
ghost use Rattle.station_equations.specs.Compiling.{AreStepsOf, ArePartsOf};

use crate::part::PartSteps;
use bay_contract::Parts;
use ilk_base::{BayId, Memory};
use station_graph::Station;
use std::alloc::Global;

// The lines of a part: the steps of its decision diagram.
fn steps_of(alloc: Global, parts: &Parts, part: BayId) -> Result<PartSteps, Memory>
    requires { part.0 < length parts.now.parts }
    ensures { IfOk result (AreStepsOf parts.now part.0) }
{
    let mut steps = Vec::new(alloc);
    for i in 0..parts.steps(part) {
        steps.push(parts.step(part, i))?;
    }
    Ok(PartSteps {
        start: parts.start(part),
        steps,
    })
}

// Puts the lines of one more part last.
fn keep(lines: &mut Vec<PartSteps>, steps: PartSteps) -> Result<(), Memory>
    ensures { IfOk result (λ _. lines.new.items ≡ lines.old.items ++ steps ∷ []) }
{
    lines.push(steps)?;
    Ok(())
}

// The lines of all parts.
pub(crate) fn all_steps(
    alloc: Global,
    station: &Station,
    parts: &Parts,
) -> Result<Vec<PartSteps>, Memory>
    requires { AreAlphabets station.now parts.now }
    ensures { IfOk result (λ v. ArePartsOf parts.now (part_count station.now) v.items) }
{
    let mut lines = Vec::new(alloc);
    for part in 0..station.part_count() {
        let steps = steps_of(alloc, parts, BayId(part as u8))?;
        keep(&mut lines, steps)?;
    }
    Ok(lines)
}

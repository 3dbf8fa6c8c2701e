//! Whether a program of blocks stands for lines.
ghost use Rattle.std.specs.Prelude.{[], IsTrue, IfOk};
ghost use Rattle.program_blocks.specs.Standing.{AreReleased, AreVariables, StandFor};
ghost use Rattle.program_blocks.specs.Wiring.{AreWired, known_after};

use crate::block::{Block, Step};
use crate::names::is_among;
use crate::sides::are_blocks_sided;
use crate::unfolding::unfold_to;
use crate::wiring::known_behind;
use crate::within::{are_blocks_within, are_names_within, are_steps_within, is_number};
use ilk_base::Memory;
use station_graph::Station;
use std::alloc::Global;
use structured_text::{Line, Name, is_release};

// Whether each release that the lines set is known.
fn are_released(known: &[Name], lines: &[Line]) -> bool
    ensures { IsTrue result → AreReleased known.now lines.now }
{
    for line in lines {
        if is_release(line.name) && !is_among(known, line.name) {
            return false;
        }
    }
    true
}

// Whether each variable that is known is a release, or one of these.
fn are_variables(known: &[Name], variables: &[Name]) -> bool
    ensures { IsTrue result → AreVariables known.now variables.now }
{
    for name in known {
        if !is_release(*name) && !is_among(variables, *name) {
            return false;
        }
    }
    true
}

// Whether the steps are wired, set the releases, and set nothing else than these variables.
fn set_releases(
    alloc: Global,
    lines: &[Line],
    blocks: &[Block],
    steps: &[Step],
    variables: &[Name],
) -> Result<bool, Memory>
    ensures { IfOk result (λ r. IsTrue r → AreWired blocks.now [] steps.now
        × AreReleased (known_after blocks.now [] steps.now) lines.now
        × AreVariables (known_after blocks.now [] steps.now) variables.now) }
{
    let found = known_behind(alloc, blocks, steps)?;
    match found {
        None => Ok(false),
        Some(known) => {
            let released = are_released(&known, lines);
            let declared = are_variables(&known, variables);
            Ok(released && declared)
        }
    }
}

/// Whether the steps stand for the lines, with each variable set once and before it is read, these are the variables of
/// the program, and the blocks are on the side of denial. The cost grows as the square of the number of variables of the program.
pub fn stand_for(
    alloc: Global,
    station: &Station,
    lines: &[Line],
    blocks: &[Block],
    steps: &[Step],
    variables: &[Name],
) -> Result<bool, Memory>
    ensures { IfOk result (λ r. IsTrue r → StandFor station.now lines.now blocks.now steps.now variables.now) }
{
    let set = set_releases(alloc, lines, blocks, steps, variables)?;
    let same = unfold_to(blocks, steps, lines);
    let all = are_blocks_within(station, blocks);
    let each = are_steps_within(station, blocks, steps);
    let names = are_names_within(station, variables);
    let sided = are_blocks_sided(blocks);
    let few = is_number(blocks.len()) && is_number(steps.len());
    Ok(set && same && few && all && each && names && sided)
}

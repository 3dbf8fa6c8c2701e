//! The program of a station: blocks, and steps that call them.
ghost use Rattle.std.specs.Prelude.{IfOk};
ghost use Rattle.structured_text.specs.Order.{IsInput, AreInOrder};
ghost use Rattle.structured_text.specs.Within.{LinesWithin};
ghost use Rattle.program_blocks.specs.Standing.{StandFor};
ghost use Rattle.program_text.specs.ProgramText.{IsProgram};

use crate::block_program::BlockProgram;
use crate::forming::form;
use crate::numbering::Counts;
use crate::program::{interlocking, lines_by_bays};
use crate::unblocked::without_blocks;
use ilk_base::Memory;
use program_blocks::stand_for;
use station_graph::Station;
use std::alloc::Global;
use structured_text::{Line, missing_signals};

// The lines as a program: one of blocks where what was formed is found to stand for them, and else one without blocks.
fn formed_of(
    alloc: Global,
    station: &Station,
    lines: &[Line],
    counts: Counts,
) -> Result<BlockProgram, Memory>
    requires order { AreInOrder IsInput lines.now }
    requires within { LinesWithin station.now lines.now }
    ensures { IfOk result (λ f. StandFor station.now lines.now f.blocks.items f.steps.items f.variables.items) }
{
    let formed = form(alloc, station, lines, counts)?;
    let stands = stand_for(
        alloc,
        station,
        lines,
        &formed.blocks,
        &formed.steps,
        &formed.variables,
    )?;
    if stands {
        Ok(formed)
    } else {
        without_blocks(alloc, station, lines)
    }
}

/// The program of a station. `text_of_program` and `text_of_bay` write it: what they write of one
/// program belongs together.
pub fn program_of(alloc: Global, station: &Station) -> Result<BlockProgram, Memory>
    ensures { IfOk result (IsProgram station.now) }
{
    let program = interlocking(alloc, station)?;
    let lines = lines_by_bays(alloc, station, &program)?;
    let counts = Counts {
        may: program.may_count,
        sure: program.sure_count,
    };
    let formed = formed_of(alloc, station, &lines, counts)?;
    // Its clause says that blocks on the side of denial are cautious; it does nothing.
    missing_signals();
    Ok(formed)
}

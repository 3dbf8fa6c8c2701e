//! Lines as a program without blocks.
ghost use Rattle.std.specs.Prelude.{◌≡◌, IfOk};
ghost use Rattle.structured_text.specs.Order.{IsInput, AreInOrder};
ghost use Rattle.structured_text.specs.Within.{LinesWithin};
ghost use Rattle.program_blocks.specs.Standing.{StandFor};
ghost use Rattle.program_text.specs.Unblocked.{assigned};

use crate::block_program::BlockProgram;
use crate::variables::variables_of;
use ilk_base::Memory;
use program_blocks::Step;
use station_graph::Station;
use std::alloc::Global;
use structured_text::Line;

// The lines as steps.
fn steps_of(alloc: Global, lines: &[Line]) -> Result<Vec<Step>, Memory>
    ensures { IfOk result (λ r. r.items ≡ assigned lines.now) }
{
    let mut steps = Vec::new(alloc);
    for line in lines {
        steps.push(Step::Assign(*line))?;
    }
    Ok(steps)
}

/// The lines as a program without blocks. It stands for them, as long as they are in order.
pub(crate) fn without_blocks(
    alloc: Global,
    station: &Station,
    lines: &[Line],
) -> Result<BlockProgram, Memory>
    requires order { AreInOrder IsInput lines.now }
    requires within { LinesWithin station.now lines.now }
    ensures { IfOk result (λ f. StandFor station.now lines.now f.blocks.items f.steps.items f.variables.items) }
{
    let steps = steps_of(alloc, lines)?;
    let blocks = Vec::new(alloc);
    let variables = variables_of(alloc, &blocks, &steps)?;
    Ok(BlockProgram {
        blocks,
        firsts: Vec::new(alloc),
        steps,
        variables,
    })
}

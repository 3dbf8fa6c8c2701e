//! What blocks hand on: their outputs, and their other variables.
use crate::section_reads::{Reads, is_output};
use ilk_base::Memory;
use program_blocks::{Block, BlockCall, Step, outer};

// Adds the outputs of a block that one call of it needs.
fn add_outputs(reads: &Reads, call: &BlockCall, block: &mut Block) -> Result<(), Memory> {
    for line in &block.lines {
        if is_output(reads, outer(call, line.name)) && !block.outputs.contains(&line.name) {
            block.outputs.push(line.name)?;
        }
    }
    Ok(())
}

// Adds the outputs that a step needs of the block that it calls.
pub(crate) fn give_outputs(
    blocks: &mut Vec<Block>,
    step: &Step,
    reads: &Reads,
) -> Result<(), Memory> {
    match step {
        Step::Assign(_) => Ok(()),
        Step::Call(call) => match blocks.get_mut(call.block) {
            None => Ok(()),
            Some(block) => add_outputs(reads, call, block),
        },
    }
}

// What a block sets beside its outputs.
fn give_locals(block: &mut Block) -> Result<(), Memory> {
    for line in &block.lines {
        if !block.outputs.contains(&line.name) {
            block.locals.push(line.name)?;
        }
    }
    Ok(())
}

// What each block sets beside its outputs.
pub(crate) fn give_all_locals(blocks: &mut Vec<Block>) -> Result<(), Memory> {
    for number in 0..blocks.len() {
        give_locals(&mut blocks[number])?;
    }
    Ok(())
}

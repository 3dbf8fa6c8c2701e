//! The text of one bay.
ghost use Rattle.std.specs.Prelude.{◌≡◌, ◌++◌, [], OnOk, IfOk, if◌then◌else◌};
ghost use Rattle.program_blocks.specs.Standing.{BlockWithin, BlocksWithin};
ghost use Rattle.program_text.specs.ProgramText.{block_text, IsProgram};
ghost use Rattle.program_text.specs.BayText.{calls_for, is_called_for, bay_blocks_text, bay_exchange_text};
ghost use Rattle.program_text.specs.BayText.{IsBayText, IsBayProgramText};

use crate::bay_calls::is_of_bay;
use crate::bay_exchange::passed;
use crate::block_program::BlockProgram;
use crate::block_text::write_block;
use crate::standing_program::program_of;
use ilk_base::{BayId, Memory, Text};
use program_blocks::{Block, Step};
use station_graph::Station;
use std::alloc::Global;

// Whether the step calls the block of this number for the bay.
fn calls_for(bay: BayId, number: usize, step: &Step) -> bool
    ensures { result ≡ calls_for bay.0 number step.now }
{
    match step {
        Step::Assign(_) => false,
        Step::Call(call) => call.block == number && is_of_bay(bay, call.heading),
    }
}

// Whether one of the steps does.
fn is_called_for(bay: BayId, number: usize, steps: &[Step]) -> bool
    ensures { result ≡ is_called_for bay.0 number steps.now }
{
    for step in steps {
        if calls_for(bay, number, step) {
            return true;
        }
    }
    false
}

// Appends the block of this number, if it is called for the bay.
fn write_called(
    alloc: Global,
    text: &mut Text,
    station: &Station,
    bay: BayId,
    number: usize,
    block: &Block,
    steps: &[Step],
) -> Result<(), Memory>
    requires { BlockWithin station.now block.now }
    ensures { OnOk result (text.new ≡ text.old
        ++ (if is_called_for bay.0 number steps.now then block_text station.now number block.now else [])) }
{
    if is_called_for(bay, number, steps) {
        return write_block(alloc, text, station, number, block);
    }
    Ok(())
}

// Appends the blocks that are called for the bay.
fn write_bay_blocks(
    alloc: Global,
    text: &mut Text,
    station: &Station,
    bay: BayId,
    blocks: &[Block],
    steps: &[Step],
) -> Result<(), Memory>
    requires { BlocksWithin station.now blocks.now }
    ensures { OnOk result (text.new ≡ text.old ++ bay_blocks_text station.now steps.now bay.0 0 blocks.now) }
{
    let mut number = 0;
    for block in blocks {
        write_called(alloc, text, station, bay, number, block, steps)?;
        number += 1;
    }
    Ok(())
}

// Appends the comment on what the bay exchanges.
fn write_bay_exchange(text: &mut Text, told: usize, tells: usize) -> Result<(), Memory>
    ensures { OnOk result (text.new ≡ text.old ++ bay_exchange_text told tells) }
{
    text.push(b"(* from other bays ")?;
    text.push_decimal(told)?;
    text.push(b" BOOLs, to other bays ")?;
    text.push_decimal(tells)?;
    text.push(b" *)\n")?;
    Ok(())
}

/// The blocks of one bay in a program of the station, as `text_of_program` writes them of the same program, and how many
/// BOOLs it exchanges with others.
pub fn text_of_bay(
    alloc: Global,
    station: &Station,
    program: &BlockProgram,
    bay: BayId,
) -> Result<Text, Memory>
    requires { IsProgram station.now program.now }
    ensures { IfOk result (IsBayText station.now program.now bay.0) }
{
    // Its clause says how many switches there may be.
    let _count = station.switch_count();
    let told = passed(alloc, &program.blocks, bay, false, &program.steps)?;
    let tells = passed(alloc, &program.blocks, bay, true, &program.steps)?;
    let mut text = Text::new(alloc);
    write_bay_exchange(&mut text, told, tells)?;
    write_bay_blocks(
        alloc,
        &mut text,
        station,
        bay,
        &program.blocks,
        &program.steps,
    )?;
    Ok(text)
}

/// The blocks of one bay in the program of the station. It costs about as much as the text of all.
pub fn bay_program_text(alloc: Global, station: &Station, bay: BayId) -> Result<Text, Memory>
    ensures { IfOk result (IsBayProgramText station.now bay.0) }
{
    // Its clause says how many switches there may be.
    let _count = station.switch_count();
    let program = program_of(alloc, station)?;
    let text = text_of_bay(alloc, station, &program, bay)?;
    Ok(text)
}

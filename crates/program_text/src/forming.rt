//! Sections of lines as blocks, which have no outputs yet, and calls of them.
use crate::block_outputs::{give_all_locals, give_outputs};
use crate::block_program::BlockProgram;
use crate::numbering::{Counts, Wiring, wiring_of};
use crate::section_reads::reads_between;
use crate::variables::variables_of;
use ilk_base::{BayId, Memory};
use program_blocks::{Block, BlockCall, Step, are_all_same, outer_line};
use station_graph::Station;
use std::alloc::Global;
use structured_text::{Heading, Line};

// The number of the first switch of a bay.
fn first_switch(station: &Station, bay: BayId) -> u16 {
    if u16::from(bay.0) < station.part_count() {
        let (first, _count) = station.switches_of(bay);
        return first.0;
    }
    0
}

// The bay of a section, if it has one.
fn bay_of(heading: Option<Heading>) -> Option<BayId> {
    match heading {
        Some(Heading::Signals(bay)) => Some(bay),
        Some(Heading::Releases(bay)) => Some(bay),
        Some(Heading::Together) => None,
        None => None,
    }
}

// The number of a block that stands for the lines, if there is one. The call is left as it calls it.
fn find_block(
    formed: &BlockProgram,
    call: &mut BlockCall,
    first: u16,
    lines: &[Line],
) -> Option<usize> {
    for number in 0..formed.blocks.len() {
        call.block = number;
        call.shift = first.saturating_sub(formed.firsts.get(number).copied().unwrap_or(0));
        if are_all_same(call, &formed.blocks[number].lines, lines) {
            return Some(number);
        }
    }
    None
}

// The lines of a section in the variables of a block.
fn block_lines(alloc: Global, to_block: &BlockCall, lines: &[Line]) -> Result<Vec<Line>, Memory> {
    let mut inner = Vec::new(alloc);
    for line in lines {
        inner.push(outer_line(to_block, *line))?;
    }
    Ok(inner)
}

// A block for a section.
fn new_block(
    alloc: Global,
    formed: &mut BlockProgram,
    wiring: Wiring,
    first: u16,
    lines: &[Line],
) -> Result<(), Memory> {
    let inner = block_lines(alloc, &wiring.to_block, lines)?;
    let mut call = wiring.to_program;
    call.block = formed.blocks.len();
    call.shift = 0;
    formed.firsts.push(first)?;
    formed.blocks.push(Block {
        heading: call.heading,
        inputs: wiring.inputs,
        outputs: Vec::new(alloc),
        locals: Vec::new(alloc),
        lines: inner,
    })?;
    formed.steps.push(Step::Call(call))?;
    Ok(())
}

// Adds a section of a bay.
fn add_bay_section(
    alloc: Global,
    formed: &mut BlockProgram,
    counts: Counts,
    heading: Option<Heading>,
    first: u16,
    lines: &[Line],
) -> Result<(), Memory> {
    let mut wiring = wiring_of(alloc, heading, lines, counts)?;
    match find_block(formed, &mut wiring.to_program, first, lines) {
        Some(_) => {
            formed.steps.push(Step::Call(wiring.to_program))?;
            Ok(())
        }
        None => new_block(alloc, formed, wiring, first, lines),
    }
}

// Adds a section that is of no bay.
fn add_lines(formed: &mut BlockProgram, lines: &[Line]) -> Result<(), Memory> {
    for line in lines {
        formed.steps.push(Step::Assign(*line))?;
    }
    Ok(())
}

// Adds a section.
fn add_section(
    alloc: Global,
    station: &Station,
    formed: &mut BlockProgram,
    counts: Counts,
    lines: &[Line],
) -> Result<(), Memory> {
    if lines.is_empty() {
        return Ok(());
    }
    let heading = lines[0].heading;
    match bay_of(heading) {
        None => add_lines(formed, lines),
        Some(bay) => {
            let first = first_switch(station, bay);
            add_bay_section(alloc, formed, counts, heading, first, lines)
        }
    }
}

// Adds each section of the lines.
fn add_sections(
    alloc: Global,
    station: &Station,
    formed: &mut BlockProgram,
    counts: Counts,
    lines: &[Line],
) -> Result<(), Memory> {
    let mut section = Vec::new(alloc);
    for line in lines {
        if line.heading.is_some() {
            add_section(alloc, station, formed, counts, &section)?;
            section.clear();
        }
        section.push(*line)?;
    }
    add_section(alloc, station, formed, counts, &section)
}

// The sections as blocks without outputs, and calls.
fn form_sections(
    alloc: Global,
    station: &Station,
    lines: &[Line],
    counts: Counts,
) -> Result<BlockProgram, Memory> {
    let mut formed = BlockProgram {
        blocks: Vec::new(alloc),
        firsts: Vec::new(alloc),
        steps: Vec::new(alloc),
        variables: Vec::new(alloc),
    };
    add_sections(alloc, station, &mut formed, counts, lines)?;
    Ok(formed)
}

// What blocks hand on, and the variables of the program.
fn give_variables(
    alloc: Global,
    formed: &mut BlockProgram,
    lines: &[Line],
    counts: Counts,
) -> Result<(), Memory> {
    let reads = reads_between(alloc, lines, counts)?;
    for step in &formed.steps {
        give_outputs(&mut formed.blocks, step, &reads)?;
    }
    give_all_locals(&mut formed.blocks)?;
    formed.variables = variables_of(alloc, &formed.blocks, &formed.steps)?;
    Ok(())
}

/// The lines as a program of blocks: sections of bays that are the same but for their numbers share one. There are so
/// many formulas of what may be and of what is certain.
pub(crate) fn form(
    alloc: Global,
    station: &Station,
    lines: &[Line],
    counts: Counts,
) -> Result<BlockProgram, Memory> {
    let mut formed = form_sections(alloc, station, lines, counts)?;
    give_variables(alloc, &mut formed, lines, counts)?;
    Ok(formed)
}

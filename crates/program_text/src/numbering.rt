//! The formulas of a section, numbered from 0: those that it sets, and then those that it reads.
use crate::read_names::names_of;
use ilk_base::Memory;
use program_blocks::BlockCall;
use std::alloc::Global;
use structured_text::{Heading, Line, Name};

/// The sizes of the tables of formulas: of what may be, and of what is certain.
#[derive(Clone, Copy)]
pub(crate) struct Counts {
    pub may: usize,
    pub sure: usize,
}

// The formulas of one reading of a section.
#[derive(Drop)]
struct Table {
    /// the formula of the program for each number
    to_program: Vec<usize>,
    /// the number for each formula of the program that has one
    to_block: Vec<Option<usize>>,
}

// The numbers of the formulas of a section.
#[derive(Drop)]
struct Numbering {
    may: Table,
    sure: Table,
    /// what the section reads and does not set, by these numbers
    inputs: Vec<Name>,
}

// The number of a formula that had none.
fn number_in(table: &mut Table, formula: usize) -> Result<Option<usize>, Memory> {
    if formula < table.to_block.len() && table.to_block[formula].is_none() {
        let number = table.to_program.len();
        table.to_block[formula] = Some(number);
        table.to_program.push(formula)?;
        return Ok(Some(number));
    }
    Ok(None)
}

// The name by which a new variable is known in the section.
fn new_name(numbering: &mut Numbering, name: Name) -> Result<Option<Name>, Memory> {
    match name {
        Name::May(formula) => {
            let number = number_in(&mut numbering.may, formula)?;
            Ok(number.map(Name::May))
        }
        Name::Sure(formula) => {
            let number = number_in(&mut numbering.sure, formula)?;
            Ok(number.map(Name::Sure))
        }
        _ => Ok(None),
    }
}

// Whether the variable is a contact that is no input yet.
fn is_new_contact(inputs: &[Name], name: Name) -> bool {
    match name {
        Name::Off(_) => !inputs.contains(&name),
        Name::On(_) => !inputs.contains(&name),
        _ => false,
    }
}

// A variable that the section reads.
fn number_read(numbering: &mut Numbering, name: Name) -> Result<(), Memory> {
    if is_new_contact(&numbering.inputs, name) {
        numbering.inputs.push(name)?;
        return Ok(());
    }
    let found = new_name(numbering, name)?;
    if let Some(new) = found {
        numbering.inputs.push(new)?;
    }
    Ok(())
}

// The variables that a line reads.
fn number_line(alloc: Global, numbering: &mut Numbering, line: Line) -> Result<(), Memory> {
    let names = names_of(alloc, line.formula)?;
    for name in &names {
        number_read(numbering, *name)?;
    }
    Ok(())
}

// A table of so many formulas, without numbers.
fn no_table(alloc: Global, count: usize) -> Result<Table, Memory> {
    let to_block = vec![in alloc; None; count]?;
    Ok(Table {
        to_program: Vec::new(alloc),
        to_block,
    })
}

// No numbers yet.
fn no_numbers(alloc: Global, counts: Counts) -> Result<Numbering, Memory> {
    let may = no_table(alloc, counts.may)?;
    let sure = no_table(alloc, counts.sure)?;
    Ok(Numbering {
        may,
        sure,
        inputs: Vec::new(alloc),
    })
}

// The formulas that the lines set.
fn number_set(numbering: &mut Numbering, lines: &[Line]) -> Result<(), Memory> {
    for line in lines {
        new_name(numbering, line.name)?;
    }
    Ok(())
}

// The numbers of the formulas of a section.
fn numbering_of(alloc: Global, lines: &[Line], counts: Counts) -> Result<Numbering, Memory> {
    let mut numbering = no_numbers(alloc, counts)?;
    number_set(&mut numbering, lines)?;
    for line in lines {
        number_line(alloc, &mut numbering, *line)?;
    }
    Ok(numbering)
}

/// What the variables of a section stand for, on the way to its block and back.
#[derive(Drop)]
pub(crate) struct Wiring {
    /// the formula of the program for each number
    pub to_program: BlockCall,
    /// the number for each formula of the program
    pub to_block: BlockCall,
    /// what the section reads and does not set, by these numbers
    pub inputs: Vec<Name>,
}

// The numbers of formulas; of one that the section does not name any.
fn numbers_of(alloc: Global, numbers: &[Option<usize>]) -> Result<Vec<usize>, Memory> {
    let mut all = Vec::new(alloc);
    for number in numbers {
        all.push(number.unwrap_or(0))?;
    }
    Ok(all)
}

// The formulas of one reading, on the way to the block and back.
#[derive(Drop)]
struct Ways {
    to_program: Vec<usize>,
    to_block: Vec<usize>,
}

fn ways_of(alloc: Global, table: Table) -> Result<Ways, Memory> {
    let to_block = numbers_of(alloc, &table.to_block)?;
    Ok(Ways {
        to_program: table.to_program,
        to_block,
    })
}

/// The formulas of a section, numbered from 0.
pub(crate) fn wiring_of(
    alloc: Global,
    heading: Option<Heading>,
    lines: &[Line],
    counts: Counts,
) -> Result<Wiring, Memory> {
    let numbering = numbering_of(alloc, lines, counts)?;
    let may = ways_of(alloc, numbering.may)?;
    let sure = ways_of(alloc, numbering.sure)?;
    let to_block = BlockCall {
        heading,
        block: 0,
        shift: 0,
        may: may.to_block,
        sure: sure.to_block,
    };
    let to_program = BlockCall {
        heading,
        block: 0,
        shift: 0,
        may: may.to_program,
        sure: sure.to_program,
    };
    Ok(Wiring {
        to_program,
        to_block,
        inputs: numbering.inputs,
    })
}

//! The text of function blocks.
ghost use Rattle.std.specs.Prelude.{◌≡◌, ◌++◌, decimal, OnOk, IfOk};
ghost use Rattle.std.specs.List.{flat_map};
ghost use Rattle.structured_text.specs.declared.name.Name.{Name as OfName};
ghost use Rattle.program_blocks.specs.Standing.{BlockWithin, BlocksWithin};
ghost use Rattle.program_text.specs.ProgramText.{if_formula, formula_count, exchange_text, block_head, block_names, block_text, blocks_text};

use crate::declarations::{write_block_inputs, write_names_section};
use ilk_base::{Memory, Text};
use program_blocks::Block;
use station_graph::Station;
use std::alloc::Global;
use structured_text::{Name, write_heading, write_lines};

// Adds the variable, if it is one of a formula.
fn add_formula(name: Name, names: &mut Vec<Name>) -> Result<(), Memory>
    ensures { OnOk result (names.new.items ≡ names.old.items ++ if_formula name) }
{
    match name {
        Name::May(_) => {
            names.push(name)?;
            Ok(())
        }
        Name::Sure(_) => {
            names.push(name)?;
            Ok(())
        }
        Name::Off(_) => Ok(()),
        Name::On(_) => Ok(()),
        Name::Opens(_) => Ok(()),
        Name::Closes(_) => Ok(()),
    }
}

// The variables of formulas among these.
fn formulas_of(alloc: Global, names: &[Name]) -> Result<Vec<Name>, Memory>
    ensures { IfOk result (λ r. r.items ≡ flat_map (λ (n : OfName). if_formula n) names.now) }
{
    let mut found = Vec::new(alloc);
    for name in names {
        add_formula(*name, &mut found)?;
    }
    Ok(found)
}

// Appends how many of the variables are of formulas.
fn write_count(alloc: Global, text: &mut Text, names: &[Name]) -> Result<(), Memory>
    ensures { OnOk result (text.new ≡ text.old ++ decimal (formula_count names.now)) }
{
    let found = formulas_of(alloc, names)?;
    text.push_decimal(found.len())?;
    Ok(())
}

// Appends the comment on what the block exchanges.
fn write_exchange(alloc: Global, text: &mut Text, block: &Block) -> Result<(), Memory>
    ensures { OnOk result (text.new ≡ text.old ++ exchange_text block.now) }
{
    text.push(b"  (* from outside of the block ")?;
    write_count(alloc, text, &block.inputs)?;
    text.push(b" BOOLs, to the outside ")?;
    write_count(alloc, text, &block.outputs)?;
    text.push(b" *)\n")?;
    Ok(())
}

fn write_block_head(
    alloc: Global,
    text: &mut Text,
    station: &Station,
    number: usize,
    block: &Block,
) -> Result<(), Memory>
    requires { BlockWithin station.now block.now }
    ensures { OnOk result (text.new ≡ text.old ++ block_head station.now number block.now) }
{
    write_heading(text, station, block.heading)?;
    write_exchange(alloc, text, block)?;
    text.push(b"FUNCTION_BLOCK BLOCK_")?;
    text.push_decimal(number)?;
    text.push(b"\n")?;
    Ok(())
}

fn write_block_names(
    alloc: Global,
    text: &mut Text,
    station: &Station,
    block: &Block,
) -> Result<(), Memory>
    requires { BlockWithin station.now block.now }
    ensures { OnOk result (text.new ≡ text.old ++ block_names station.now block.now) }
{
    write_block_inputs(alloc, text, station, &block.inputs)?;
    write_names_section(alloc, text, station, b"VAR_OUTPUT\n", &block.outputs)?;
    write_names_section(alloc, text, station, b"VAR\n", &block.locals)?;
    Ok(())
}

/// Appends the block of this number.
pub(crate) fn write_block(
    alloc: Global,
    text: &mut Text,
    station: &Station,
    number: usize,
    block: &Block,
) -> Result<(), Memory>
    requires { BlockWithin station.now block.now }
    ensures { OnOk result (text.new ≡ text.old ++ block_text station.now number block.now) }
{
    write_block_head(alloc, text, station, number, block)?;
    write_block_names(alloc, text, station, block)?;
    write_lines(text, station, &block.lines)?;
    text.push(b"END_FUNCTION_BLOCK\n")?;
    Ok(())
}

/// Appends the blocks.
pub(crate) fn write_blocks(
    alloc: Global,
    text: &mut Text,
    station: &Station,
    blocks: &[Block],
) -> Result<(), Memory>
    requires { BlocksWithin station.now blocks.now }
    ensures { OnOk result (text.new ≡ text.old ++ blocks_text station.now 0 blocks.now) }
{
    let mut number = 0;
    for block in blocks {
        write_block(alloc, text, station, number, block)?;
        number += 1;
    }
    Ok(())
}

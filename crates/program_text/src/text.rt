//! The text of an interlocking.
ghost use Rattle.std.specs.Prelude.{◌≡◌, ◌++◌, length, codes, OnOk, IfOk};
ghost use Rattle.program_blocks.specs.Standing.{BlocksWithin, StepsWithin, AreNamesWithin};
ghost use Rattle.program_text.specs.ProgramText.{inputs_text, outputs_text, contacts_text, variables_text, wiring_text};
ghost use Rattle.program_text.specs.ProgramText.{whole_text, IsProgram, IsWholeText, IsProgramText};

use crate::block_program::BlockProgram;
use crate::block_text::write_blocks;
use crate::declarations::write_section;
use crate::standing_program::program_of;
use crate::step_text::{write_instances, write_steps};
use ilk_base::{Memory, SwitchId, Text};
use station_graph::Station;
use std::alloc::Global;
use structured_text::{write_input, write_names, write_output};

// What the text says of itself.
const HEAD: &[u8] =
    b"(* The releases EnaOpn and EnaCls of each switch, derived from the single-line diagram.\n\
    \x20  sw1_QB1_off, sw1_QB1_on  contacts of switch 1, whose last name is QB1, in its open and its closed position:\n\
    \x20                           10 off, 01 on; 00 and 11 say nothing. Its path stands where they are declared.\n\
    \x20  m..  what holds where each switch that is not known to be off is closed: coupled, joined, live, earthed, tapped\n\
    \x20  c..  what holds where each switch that is not known to be on is open: bonded\n\
    \x20  Each block is of one bay: what it is to the other bays, or its releases. Bays that are alike share them, in the\n\
    \x20  names of the first of these bays. The program calls them in order; the m.. and c.. that it gives to a block\n\
    \x20  come from other blocks, of this bay or of others, or say what bays are together.\n\
    \x20  A contact or a c.. that does not come counts as FALSE, an m.. of a block as TRUE: nothing is released without an\n\
    \x20  m.. or c.. that is not released with it. The releases hold at one moment: two controllers that both see one may\n\
    \x20  both move, which this text does not forbid. *)\n";

// Appends the declarations of the contacts of each switch.
fn write_inputs(text: &mut Text, station: &Station) -> Result<(), Memory>
    ensures { OnOk result (text.new ≡ text.old
        ++ inputs_text station.now.switch_paths 0 (length station.now.switches)) }
{
    for i in 0..station.switch_count() {
        write_input(text, station, SwitchId(i))?;
    }
    Ok(())
}

// Appends the declarations of the releases of each switch.
fn write_outputs(text: &mut Text, station: &Station) -> Result<(), Memory>
    ensures { OnOk result (text.new ≡ text.old
        ++ outputs_text station.now.switch_paths 0 (length station.now.switches)) }
{
    for i in 0..station.switch_count() {
        write_output(text, station, SwitchId(i))?;
    }
    Ok(())
}

// The declarations of the contacts of all switches.
fn inputs_of(alloc: Global, station: &Station) -> Result<Text, Memory>
    ensures { IfOk result (λ t. t ≡ inputs_text station.now.switch_paths 0 (length station.now.switches)) }
{
    let mut declared = Text::new(alloc);
    write_inputs(&mut declared, station)?;
    Ok(declared)
}

// Those of their releases.
fn outputs_of(alloc: Global, station: &Station) -> Result<Text, Memory>
    ensures { IfOk result (λ t. t ≡ outputs_text station.now.switch_paths 0 (length station.now.switches)) }
{
    let mut declared = Text::new(alloc);
    write_outputs(&mut declared, station)?;
    Ok(declared)
}

// Appends the begin of the program, with its inputs and outputs.
fn write_contacts(alloc: Global, text: &mut Text, station: &Station) -> Result<(), Memory>
    ensures { OnOk result (text.new ≡ text.old ++ contacts_text station.now) }
{
    let inputs = inputs_of(alloc, station)?;
    let outputs = outputs_of(alloc, station)?;
    text.push(b"\nPROGRAM INTERLOCKING\n")?;
    write_section(text, b"VAR_INPUT\n", inputs.bytes())?;
    write_section(text, b"VAR_OUTPUT\n", outputs.bytes())?;
    Ok(())
}

// Appends the declarations of the instances and of the variables of the program.
fn write_variables(
    alloc: Global,
    text: &mut Text,
    station: &Station,
    formed: &BlockProgram,
) -> Result<(), Memory>
    requires { AreNamesWithin (length station.now.switches) formed.now.variables.items }
    ensures { OnOk result (text.new
        ≡ text.old ++ variables_text station.now formed.now.steps.items formed.now.variables.items) }
{
    let mut declared = Text::new(alloc);
    write_instances(&mut declared, &formed.steps)?;
    write_names(&mut declared, station, &formed.variables)?;
    write_section(text, b"VAR\n", declared.bytes())?;
    Ok(())
}

// Appends the program.
fn write_wiring(
    alloc: Global,
    text: &mut Text,
    station: &Station,
    formed: &BlockProgram,
) -> Result<(), Memory>
    requires blocks { BlocksWithin station.now formed.now.blocks.items }
    requires steps { StepsWithin station.now formed.now.blocks.items formed.now.steps.items }
    requires names { AreNamesWithin (length station.now.switches) formed.now.variables.items }
    ensures { OnOk result (text.new ≡ text.old ++ wiring_text station.now formed.now.blocks.items
        formed.now.steps.items formed.now.variables.items) }
{
    write_contacts(alloc, text, station)?;
    write_variables(alloc, text, station, formed)?;
    write_steps(text, station, &formed.blocks, &formed.steps)?;
    text.push(b"END_PROGRAM\n")?;
    Ok(())
}

// Appends the whole text.
fn write_whole(
    alloc: Global,
    text: &mut Text,
    station: &Station,
    formed: &BlockProgram,
) -> Result<(), Memory>
    requires blocks { BlocksWithin station.now formed.now.blocks.items }
    requires steps { StepsWithin station.now formed.now.blocks.items formed.now.steps.items }
    requires names { AreNamesWithin (length station.now.switches) formed.now.variables.items }
    ensures { OnOk result (text.new ≡ text.old ++ whole_text station.now formed.now.blocks.items
        formed.now.steps.items formed.now.variables.items) }
{
    text.push(HEAD)?;
    write_blocks(alloc, text, station, &formed.blocks)?;
    write_wiring(alloc, text, station, formed)?;
    Ok(())
}

/// The text of a program of the station.
pub fn text_of_program(
    alloc: Global,
    station: &Station,
    program: &BlockProgram,
) -> Result<Text, Memory>
    requires { IsProgram station.now program.now }
    ensures { IfOk result (IsWholeText station.now program.now) }
{
    // Its clause says how many switches there may be.
    let _count = station.switch_count();
    let mut text = Text::new(alloc);
    write_whole(alloc, &mut text, station, program)?;
    Ok(text)
}

/// The interlocking of a station as structured text (IEC 61131-3): function blocks of assignments of AND, OR and NOT
/// alone, each variable set before it is read, and a program that calls them. The cost grows as the square of the number
/// of variables between the bays. That a block releases nothing more where signals do not come is the law
/// `missing_signals` of `structured_text`.
pub fn program_text(alloc: Global, station: &Station) -> Result<Text, Memory>
    ensures { IfOk result (IsProgramText station.now) }
{
    let program = program_of(alloc, station)?;
    let text = text_of_program(alloc, station, &program)?;
    Ok(text)
}

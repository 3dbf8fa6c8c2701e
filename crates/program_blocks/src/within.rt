//! Whether a program names parts and switches of a station alone.
ghost use Rattle.std.specs.Prelude.{◌≡◌, ◌<◌, ◌^◌, ℕ, IsTrue, length, slice_get, Some};
ghost use Rattle.station_graph.specs.Diagram.{part_count};
ghost use Rattle.structured_text.specs.declared.name.Name.{Name as OfName};
ghost use Rattle.structured_text.specs.declared.line.Line.{Line as OfLine};
ghost use Rattle.structured_text.specs.Within.{NameWithin, IsOfFormula, GapWithin, LoadWithin, OperandWithin, FormulaWithin};
ghost use Rattle.structured_text.specs.Within.{HeadingWithin, LineWithin, LinesWithin};
ghost use Rattle.program_blocks.specs.declared.block.Block.{Block as OfBlock};
ghost use Rattle.program_blocks.specs.declared.block.Step.{Step as OfStep};
ghost use Rattle.program_blocks.specs.Renaming.{outer};
ghost use Rattle.program_blocks.specs.Standing.{AreNamesWithin, AreWiresWithin, BlockWithin, BlocksWithin, WiresWithin, AreDeclared};
ghost use Rattle.program_blocks.specs.Standing.{StepWithin, StepsWithin};

use crate::block::{Block, BlockCall, Step};
use crate::names::is_among;
use crate::renaming::outer;
use station_graph::Station;
use structured_text::{Formula, GapDenial, Heading, Line, LoadDenial, Name, Operand};

// More formulas than there are.
const NUMBERS: usize = 1_000_000_000;

/// Whether the number has at most 64 bits: it has fewer.
pub(crate) fn is_number(number: usize) -> bool
    ensures { IsTrue result → number < 2 ^ 64 }
{
    number < NUMBERS
}

fn is_formula(name: Name) -> bool
    ensures { IsTrue result → IsOfFormula name }
{
    match name {
        Name::May(number) => is_number(number),
        Name::Sure(number) => is_number(number),
        Name::Off(_) => false,
        Name::On(_) => false,
        Name::Opens(_) => false,
        Name::Closes(_) => false,
    }
}

fn is_name_within(station: &Station, name: Name) -> bool
    ensures { IsTrue result → NameWithin (length station.now.switches) name }
{
    match name {
        Name::May(number) => is_number(number),
        Name::Sure(number) => is_number(number),
        Name::Off(id) => id.0 < station.switch_count(),
        Name::On(id) => id.0 < station.switch_count(),
        Name::Opens(id) => id.0 < station.switch_count(),
        Name::Closes(id) => id.0 < station.switch_count(),
    }
}

fn is_gap_within(gap: GapDenial) -> bool
    ensures { IsTrue result → GapWithin gap }
{
    match gap {
        GapDenial::One(first) => is_formula(first),
        GapDenial::Two(first, second) => is_formula(first) && is_formula(second),
    }
}

fn is_load_within(load: LoadDenial) -> bool
    ensures { IsTrue result → LoadWithin load }
{
    match load {
        LoadDenial::Loaded(first, second) => is_formula(first) && is_formula(second),
        LoadDenial::Unbonded(first, second, third) => {
            is_formula(first) && is_formula(second) && is_formula(third)
        }
    }
}

fn is_operand_within(operand: Operand) -> bool
    ensures { IsTrue result → OperandWithin operand }
{
    match operand {
        Operand::Variable(first) => is_formula(first),
        Operand::Product(first, second) => is_formula(first) && is_formula(second),
        Operand::Sum(first, second) => is_formula(first) && is_formula(second),
    }
}

fn is_formula_within(station: &Station, formula: Formula) -> bool
    ensures { IsTrue result → FormulaWithin (length station.now.switches) formula }
{
    match formula {
        Formula::Always => true,
        Formula::Never => true,
        Formula::MayBeClosed(id) => id.0 < station.switch_count(),
        Formula::IsClosed(id) => id.0 < station.switch_count(),
        Formula::Both(first, second) => is_operand_within(first) && is_operand_within(second),
        Formula::Either(first, second) => is_operand_within(first) && is_operand_within(second),
        Formula::Apart(gap) => is_gap_within(gap),
        Formula::Unloaded(load) => is_load_within(load),
        Formula::Released(gap, load) => is_gap_within(gap) && is_load_within(load),
    }
}

fn is_heading_within(station: &Station, heading: Option<Heading>) -> bool
    ensures { IsTrue result → HeadingWithin (part_count station.now) heading }
{
    match heading {
        None => true,
        Some(Heading::Together) => true,
        Some(Heading::Signals(part)) => u32::from(part.0) < u32::from(station.part_count()),
        Some(Heading::Releases(part)) => u32::from(part.0) < u32::from(station.part_count()),
    }
}

fn is_line_within(station: &Station, line: Line) -> bool
    ensures { IsTrue result → LineWithin station.now line }
{
    is_heading_within(station, line.heading)
        && is_name_within(station, line.name)
        && is_formula_within(station, line.formula)
}

fn are_lines_within(station: &Station, lines: &[Line]) -> bool
    ensures { IsTrue result → LinesWithin station.now lines.now }
{
    for line in lines {
        if !is_line_within(station, *line) {
            return false;
        }
    }
    true
}

/// Whether the variables are those of switches that there are, and of formulas.
pub(crate) fn are_names_within(station: &Station, names: &[Name]) -> bool
    ensures { IsTrue result → AreNamesWithin (length station.now.switches) names.now }
{
    for name in names {
        if !is_name_within(station, *name) {
            return false;
        }
    }
    true
}

fn are_wires_within(station: &Station, call: &BlockCall, names: &[Name]) -> bool
    ensures { IsTrue result → AreWiresWithin (length station.now.switches) call.now names.now }
{
    for name in names {
        if !is_name_within(station, outer(call, *name)) {
            return false;
        }
    }
    true
}

// Whether each variable that the block sets is declared.
fn are_declared(block: &Block) -> bool
    ensures { IsTrue result → AreDeclared block.now }
{
    for line in &block.lines {
        if !is_among(&block.outputs, line.name) && !is_among(&block.locals, line.name) {
            return false;
        }
    }
    true
}

fn is_block_within(station: &Station, block: &Block) -> bool
    ensures { IsTrue result → BlockWithin station.now block.now }
{
    let heading = is_heading_within(station, block.heading);
    let inputs = are_names_within(station, &block.inputs);
    let outputs = are_names_within(station, &block.outputs);
    let locals = are_names_within(station, &block.locals);
    let lines = are_lines_within(station, &block.lines);
    let declared = are_declared(block);
    heading && inputs && outputs && locals && lines && declared
}

/// Whether the blocks name parts and switches of the station alone.
pub(crate) fn are_blocks_within(station: &Station, blocks: &[Block]) -> bool
    ensures { IsTrue result → BlocksWithin station.now blocks.now }
{
    for block in blocks {
        if !is_block_within(station, block) {
            return false;
        }
    }
    true
}

fn is_call_within(station: &Station, blocks: &[Block], call: &BlockCall) -> bool
    ensures { IsTrue result → WiresWithin station.now call.now (slice_get blocks.now call.now.block) }
{
    match blocks.get(call.block) {
        None => true,
        Some(block) => {
            let inputs = are_wires_within(station, call, &block.inputs);
            let outputs = are_wires_within(station, call, &block.outputs);
            inputs && outputs
        }
    }
}

fn is_step_within(station: &Station, blocks: &[Block], step: &Step) -> bool
    ensures { IsTrue result → StepWithin station.now blocks.now step.now }
{
    match step {
        Step::Assign(line) => is_line_within(station, *line),
        Step::Call(call) => {
            is_number(call.block)
                && is_heading_within(station, call.heading)
                && is_call_within(station, blocks, call)
        }
    }
}

/// Whether the steps do.
pub(crate) fn are_steps_within(station: &Station, blocks: &[Block], steps: &[Step]) -> bool
    ensures { IsTrue result → StepsWithin station.now blocks.now steps.now }
{
    for step in steps {
        if !is_step_within(station, blocks, step) {
            return false;
        }
    }
    true
}

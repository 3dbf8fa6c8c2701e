//! Whether each variable is set once, and before it is read.
ghost use Rattle.std.specs.Prelude.{◌≡◌, ◌≢◌, ◌↔◌, ◌++◌, [], ◌∷◌, ℕ, false, true, IsTrue, IfOk, IfSome, OnOk, slice_get, Some, map, Option};
ghost use Rattle.structured_text.specs.declared.name.Name.{Name as OfName};
ghost use Rattle.structured_text.specs.Order.{IsSetIn};
ghost use Rattle.structured_text.specs.Reads.{GapReads, LoadReads, OperandReads, FormulaReads};
ghost use Rattle.program_blocks.specs.Renaming.{outer};
ghost use Rattle.program_blocks.specs.Wiring.{IsGiven, IsLineWired, AreLinesWired, IsBlockWired, IsCallWired, IsStepWired};
ghost use Rattle.program_blocks.specs.Wiring.{call_names, step_names, AreWired, known_after};

use crate::block::{Block, BlockCall, Step};
use crate::names::is_among;
use crate::renaming::outer;
use ilk_base::Memory;
use std::alloc::Global;
use structured_text::{Formula, GapDenial, Line, LoadDenial, Name, Operand, is_contact};

// Whether the variable can be read.
fn is_known(known: &[Name], name: Name) -> bool
    ensures { IsTrue result ↔ IsGiven true known.now name }
{
    is_contact(name) || is_among(known, name)
}

// Whether it can be, in a block or in a program.
fn is_given(program: bool, names: &[Name], name: Name) -> bool
    ensures { IsTrue result → IsGiven program names.now name }
{
    if program {
        return is_known(names, name);
    }
    is_among(names, name)
}

fn gap_reads(program: bool, names: &[Name], gap: GapDenial) -> bool
    ensures { IsTrue result → GapReads (IsGiven program names.now) gap }
{
    match gap {
        GapDenial::One(first) => is_given(program, names, first),
        GapDenial::Two(first, second) => {
            is_given(program, names, first) && is_given(program, names, second)
        }
    }
}

fn load_reads(program: bool, names: &[Name], load: LoadDenial) -> bool
    ensures { IsTrue result → LoadReads (IsGiven program names.now) load }
{
    match load {
        LoadDenial::Loaded(first, second) => {
            is_given(program, names, first) && is_given(program, names, second)
        }
        LoadDenial::Unbonded(first, second, third) => {
            is_given(program, names, first)
                && is_given(program, names, second)
                && is_given(program, names, third)
        }
    }
}

fn operand_reads(program: bool, names: &[Name], operand: Operand) -> bool
    ensures { IsTrue result → OperandReads (IsGiven program names.now) operand }
{
    match operand {
        Operand::Variable(first) => is_given(program, names, first),
        Operand::Product(first, second) => {
            is_given(program, names, first) && is_given(program, names, second)
        }
        Operand::Sum(first, second) => {
            is_given(program, names, first) && is_given(program, names, second)
        }
    }
}

// Whether all that a formula reads can be read.
fn formula_reads(program: bool, names: &[Name], formula: Formula) -> bool
    ensures { IsTrue result → FormulaReads (IsGiven program names.now) formula }
{
    match formula {
        Formula::Always => true,
        Formula::Never => true,
        Formula::MayBeClosed(id) => {
            is_given(program, names, Name::Off(id)) && is_given(program, names, Name::On(id))
        }
        Formula::IsClosed(id) => {
            is_given(program, names, Name::Off(id)) && is_given(program, names, Name::On(id))
        }
        Formula::Both(first, second) => {
            operand_reads(program, names, first) && operand_reads(program, names, second)
        }
        Formula::Either(first, second) => {
            operand_reads(program, names, first) && operand_reads(program, names, second)
        }
        Formula::Apart(gap) => gap_reads(program, names, gap),
        Formula::Unloaded(load) => load_reads(program, names, load),
        Formula::Released(gap, load) => {
            gap_reads(program, names, gap) && load_reads(program, names, load)
        }
    }
}

// Whether no variable of these stands for the variable of the program.
fn is_untaken(call: &BlockCall, inner: &[Name], name: Name) -> bool
    ensures { IsTrue result → (k : ℕ) (n : OfName) → slice_get inner.now k ≡ Some n → outer call.now n ≢ name }
{
    for other in inner {
        if outer(call, *other) == name {
            return false;
        }
    }
    true
}

fn is_line_wired(known: &[Name], call: &BlockCall, inner: &[Name], line: Line) -> bool
    ensures { IsTrue result → IsLineWired known.now call.now inner.now line }
{
    let name = outer(call, line.name);
    let reads = formula_reads(false, inner, line.formula);
    let fresh = !is_known(known, name);
    let once = is_untaken(call, inner, name);
    reads && fresh && once
}

fn are_lines_wired(
    alloc: Global,
    known: &[Name],
    call: &BlockCall,
    block: &Block,
) -> Result<bool, Memory>
    ensures { IfOk result (λ r. IsTrue r
        → AreLinesWired known.now call.now block.now.inputs.items block.now.lines.items) }
{
    let mut inner = Vec::from_slice(alloc, &block.inputs)?;
    for line in &block.lines {
        if !is_line_wired(known, call, &inner, *line) {
            return Ok(false);
        }
        inner.push(line.name)?;
    }
    Ok(true)
}

fn are_inputs_known(known: &[Name], call: &BlockCall, inputs: &[Name]) -> bool
    ensures { IsTrue result → (k : ℕ) (n : OfName) → slice_get inputs.now k ≡ Some n
        → IsGiven true known.now (outer call.now n) }
{
    for name in inputs {
        if !is_known(known, outer(call, *name)) {
            return false;
        }
    }
    true
}

// Whether a line sets the variable.
fn is_set(lines: &[Line], name: Name) -> bool
    ensures { IsTrue result → IsSetIn lines.now name }
{
    for line in lines {
        if line.name == name {
            return true;
        }
    }
    false
}

fn are_outputs_set(lines: &[Line], outputs: &[Name]) -> bool
    ensures { IsTrue result → (k : ℕ) (n : OfName) → slice_get outputs.now k ≡ Some n → IsSetIn lines.now n }
{
    for name in outputs {
        if !is_set(lines, *name) {
            return false;
        }
    }
    true
}

fn is_block_wired(
    alloc: Global,
    known: &[Name],
    call: &BlockCall,
    block: &Block,
) -> Result<bool, Memory>
    ensures { IfOk result (λ r. IsTrue r → IsBlockWired known.now call.now block.now) }
{
    let lines = are_lines_wired(alloc, known, call, block)?;
    let inputs = are_inputs_known(known, call, &block.inputs);
    let outputs = are_outputs_set(&block.lines, &block.outputs);
    Ok(lines && inputs && outputs)
}

// Adds the variables that a call sets.
fn add_outputs(call: &BlockCall, outputs: &[Name], known: &mut Vec<Name>) -> Result<(), Memory>
    ensures { OnOk result
        (known.new.items ≡ known.old.items ++ map (λ (n : OfName). outer call.now n) outputs.now) }
{
    for name in outputs {
        known.push(outer(call, *name))?;
    }
    Ok(())
}

// Adds what a call sets, if it is wired.
fn add_call(
    alloc: Global,
    blocks: &[Block],
    call: &BlockCall,
    known: &mut Vec<Name>,
) -> Result<bool, Memory>
    ensures { IfOk result (λ r. IsTrue r
        → IsCallWired known.old.items call.now (slice_get blocks.now call.now.block)
        × (known.new.items ≡ known.old.items ++ call_names call.now (slice_get blocks.now call.now.block))) }
{
    match blocks.get(call.block) {
        None => Ok(false),
        Some(block) => {
            let wired = is_block_wired(alloc, known, call, block)?;
            add_outputs(call, &block.outputs, known)?;
            Ok(wired)
        }
    }
}

fn add_line(line: Line, known: &mut Vec<Name>) -> Result<bool, Memory>
    ensures { IfOk result (λ r. IsTrue r → (FormulaReads (IsGiven true known.old.items) line.formula)
        × (¬ IsGiven true known.old.items line.name)
        × (known.new.items ≡ known.old.items ++ line.name ∷ [])) }
{
    let reads = formula_reads(true, known, line.formula);
    let fresh = !is_known(known, line.name);
    known.push(line.name)?;
    Ok(reads && fresh)
}

// Adds what a step sets, if it is wired.
fn add_step(
    alloc: Global,
    blocks: &[Block],
    step: &Step,
    known: &mut Vec<Name>,
) -> Result<bool, Memory>
    ensures { IfOk result (λ r. IsTrue r → IsStepWired blocks.now known.old.items step.now
        × (known.new.items ≡ known.old.items ++ step_names blocks.now step.now)) }
{
    match step {
        Step::Assign(line) => add_line(*line, known),
        Step::Call(call) => add_call(alloc, blocks, call, known),
    }
}

/// What is known behind the steps, if each variable is set once and before it is read.
pub(crate) fn known_behind(
    alloc: Global,
    blocks: &[Block],
    steps: &[Step],
) -> Result<Option<Vec<Name>>, Memory>
    ensures { IfOk result (λ r. IfSome r (λ known. AreWired blocks.now [] steps.now
        × (known.items ≡ known_after blocks.now [] steps.now))) }
{
    let mut known = Vec::new(alloc);
    for step in steps {
        let wired = add_step(alloc, blocks, step, &mut known)?;
        if !wired {
            return Ok(None);
        }
    }
    Ok(Some(known))
}

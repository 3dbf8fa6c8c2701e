//! The variables of a program.
ghost use Rattle.std.specs.Prelude.{◌≡◌, ◌++◌, IfOk, OnOk, slice_get};
ghost use Rattle.std.specs.List.{flat_map};
ghost use Rattle.structured_text.specs.declared.name.Name.{Name as OfName};
ghost use Rattle.program_blocks.specs.Renaming.{outer};
ghost use Rattle.program_text.specs.Unblocked.{unless_release, call_variables, step_variables, set_variables};

use ilk_base::Memory;
use program_blocks::{Block, BlockCall, Step, outer};
use std::alloc::Global;
use structured_text::Name;

// Adds the variable, unless it is a release.
fn add_variable(name: Name, variables: &mut Vec<Name>) -> Result<(), Memory>
    ensures { OnOk result (variables.new.items ≡ variables.old.items ++ unless_release name) }
{
    match name {
        Name::Opens(_) => {}
        Name::Closes(_) => {}
        _ => variables.push(name)?,
    }
    Ok(())
}

// Adds those for which outputs of a block stand at a call.
fn add_outer(call: &BlockCall, outputs: &[Name], variables: &mut Vec<Name>) -> Result<(), Memory>
    ensures { OnOk result (variables.new.items
        ≡ variables.old.items ++ flat_map (λ (n : OfName). unless_release (outer call.now n)) outputs.now) }
{
    for name in outputs {
        add_variable(outer(call, *name), variables)?;
    }
    Ok(())
}

// Adds those that a call sets in the program.
fn add_call(blocks: &[Block], call: &BlockCall, variables: &mut Vec<Name>) -> Result<(), Memory>
    ensures { OnOk result (variables.new.items
        ≡ variables.old.items ++ call_variables call.now (slice_get blocks.now call.now.block)) }
{
    match blocks.get(call.block) {
        None => Ok(()),
        Some(block) => add_outer(call, &block.outputs, variables),
    }
}

/// Adds what a step sets in the program beside the releases.
pub(crate) fn add_step(
    blocks: &[Block],
    step: &Step,
    variables: &mut Vec<Name>,
) -> Result<(), Memory>
    ensures { OnOk result (variables.new.items ≡ variables.old.items ++ step_variables blocks.now step.now) }
{
    match step {
        Step::Assign(line) => add_variable(line.name, variables),
        Step::Call(call) => add_call(blocks, call, variables),
    }
}

/// What the steps set in the program beside the releases.
pub(crate) fn variables_of(
    alloc: Global,
    blocks: &[Block],
    steps: &[Step],
) -> Result<Vec<Name>, Memory>
    ensures { IfOk result (λ r. r.items ≡ set_variables blocks.now steps.now) }
{
    let mut variables = Vec::new(alloc);
    for step in steps {
        add_step(blocks, step, &mut variables)?;
    }
    Ok(variables)
}

//! What a bay has to be told by others, and to tell them.
ghost use Rattle.std.specs.Prelude.{◌≡◌, ◌++◌, ◌+◌, ◌<◌, ◌^◌, ◌⊎◌, [], OnOk, IfOk, map, slice_get, if◌then◌else◌};
ghost use Rattle.std.specs.List.{Contains};
ghost use Rattle.structured_text.specs.declared.name.Name.{Name as OfName};
ghost use Rattle.program_blocks.specs.Renaming.{outer};
ghost use Rattle.program_text.specs.Unblocked.{step_variables};
ghost use Rattle.program_text.specs.BayExchange.{is_picked, call_reads, step_reads, all_reads, all_gives, IsCount, ArePassed};

use crate::bay_calls::is_for;
use crate::read_names::push_formula;
use crate::variables::add_step;
use ilk_base::{BayId, Memory};
use program_blocks::{Block, BlockCall, Step, is_among, outer};
use std::alloc::Global;
use structured_text::Name;

// Whether the step is one of the bay's calls; or, of the others, whether it is none.
fn is_picked(bay: BayId, own: bool, step: &Step) -> bool
    ensures { result ≡ is_picked bay.0 own step.now }
{
    if own {
        is_for(bay, step)
    } else {
        !is_for(bay, step)
    }
}

// Adds the variables of the program for which these inputs stand at a call.
fn add_inputs(call: &BlockCall, inputs: &[Name], names: &mut Vec<Name>) -> Result<(), Memory>
    ensures { OnOk result (names.new.items
        ≡ names.old.items ++ map (λ (n : OfName). outer call.now n) inputs.now) }
{
    for input in inputs {
        names.push(outer(call, *input))?;
    }
    Ok(())
}

// Adds what a call reads of the program.
fn add_call_reads(blocks: &[Block], call: &BlockCall, names: &mut Vec<Name>) -> Result<(), Memory>
    ensures { OnOk result (names.new.items
        ≡ names.old.items ++ call_reads call.now (slice_get blocks.now call.now.block)) }
{
    match blocks.get(call.block) {
        None => Ok(()),
        Some(block) => add_inputs(call, &block.inputs, names),
    }
}

// Adds what a step reads of the program.
fn add_reads(blocks: &[Block], step: &Step, names: &mut Vec<Name>) -> Result<(), Memory>
    ensures { OnOk result (names.new.items ≡ names.old.items ++ step_reads blocks.now step.now) }
{
    match step {
        Step::Assign(line) => push_formula(names, line.formula),
        Step::Call(call) => add_call_reads(blocks, call, names),
    }
}

// Does so, if the step is picked.
fn add_picked_reads(
    blocks: &[Block],
    bay: BayId,
    own: bool,
    step: &Step,
    names: &mut Vec<Name>,
) -> Result<(), Memory>
    ensures { OnOk result (names.new.items ≡ names.old.items
        ++ (if is_picked bay.0 own step.now then step_reads blocks.now step.now else [])) }
{
    if is_picked(bay, own, step) {
        return add_reads(blocks, step, names);
    }
    Ok(())
}

// Adds what a step sets in the program, if it is picked.
fn add_picked_gives(
    blocks: &[Block],
    bay: BayId,
    own: bool,
    step: &Step,
    names: &mut Vec<Name>,
) -> Result<(), Memory>
    ensures { OnOk result (names.new.items ≡ names.old.items
        ++ (if is_picked bay.0 own step.now then step_variables blocks.now step.now else [])) }
{
    if is_picked(bay, own, step) {
        return add_step(blocks, step, names);
    }
    Ok(())
}

// What the calls of the bay read of the program; or all other steps.
fn reads_of(
    alloc: Global,
    blocks: &[Block],
    bay: BayId,
    own: bool,
    steps: &[Step],
) -> Result<Vec<Name>, Memory>
    ensures { IfOk result (λ r. r.items ≡ all_reads blocks.now bay.0 own steps.now) }
{
    let mut names = Vec::new(alloc);
    for step in steps {
        add_picked_reads(blocks, bay, own, step, &mut names)?;
    }
    Ok(names)
}

// What they set in it beside the releases.
fn gives_of(
    alloc: Global,
    blocks: &[Block],
    bay: BayId,
    own: bool,
    steps: &[Step],
) -> Result<Vec<Name>, Memory>
    ensures { IfOk result (λ r. r.items ≡ all_gives blocks.now bay.0 own steps.now) }
{
    let mut names = Vec::new(alloc);
    for step in steps {
        add_picked_gives(blocks, bay, own, step, &mut names)?;
    }
    Ok(names)
}

// One more, if the variable is among the others.
fn count_one(others: &[Name], name: &Name, count: usize) -> usize
    requires { count + 1 < 2 ^ 64 }
    ensures { (Contains others.now name.now × (result ≡ count + 1))
        ⊎ (¬ Contains others.now name.now × (result ≡ count)) }
{
    if is_among(others, *name) {
        count + 1
    } else {
        count
    }
}

// How many of the first variables are among the others.
fn count_among(names: &[Name], others: &[Name]) -> usize
    ensures { IsCount (λ (n : OfName). Contains others.now n) names.now result }
{
    let mut count = 0;
    for name in names {
        count = count_one(others, name, count);
    }
    count
}

/// How many variables the calls of the bay set and another step reads; or, where it is not `own`, another step sets and
/// they read.
pub(crate) fn passed(
    alloc: Global,
    blocks: &[Block],
    bay: BayId,
    own: bool,
    steps: &[Step],
) -> Result<usize, Memory>
    ensures is { IfOk result (ArePassed blocks.now bay.0 own steps.now) }
    ensures small { IfOk result (λ n. n < 2 ^ 64) }
{
    let gives = gives_of(alloc, blocks, bay, own, steps)?;
    let reads = reads_of(alloc, blocks, bay, !own, steps)?;
    Ok(count_among(&gives, &reads))
}

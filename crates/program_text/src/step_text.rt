//! The text of the steps of a program: assignments, and calls of function blocks.
ghost use Rattle.std.specs.Prelude.{◌≡◌, ◌++◌, ◌<◌, ◌+◌, ◌^◌, length, OnOk, slice_get};
ghost use Rattle.program_blocks.specs.Calls.{next_instance};
ghost use Rattle.program_blocks.specs.Standing.{AreNamesWithin, AreWiresWithin, BlockWithin, BlocksWithin, WiresWithin};
ghost use Rattle.program_blocks.specs.Standing.{StepWithin, StepsWithin};
ghost use Rattle.structured_text.specs.Within.{NameWithin, HeadingWithin};
ghost use Rattle.station_graph.specs.Diagram.{part_count};
ghost use Rattle.program_blocks.specs.Renaming.{outer};
ghost use Rattle.program_text.specs.ProgramText.{wire_text, more_wires, wires_text, drawn_text, draws_text, block_call_text};
ghost use Rattle.program_text.specs.ProgramText.{call_text, step_text, steps_text, instance_text, instances_text};

use ilk_base::{Memory, Text};
use program_blocks::{Block, BlockCall, Step, outer};
use station_graph::Station;
use structured_text::{Name, write_heading, write_line, write_name};

fn write_wire(
    text: &mut Text,
    station: &Station,
    call: &BlockCall,
    name: Name,
) -> Result<(), Memory>
    requires inner { NameWithin (length station.now.switches) name }
    requires outer { NameWithin (length station.now.switches) (outer call.now name) }
    ensures { OnOk result (text.new ≡ text.old ++ wire_text station.now.switch_paths call.now name) }
{
    write_name(text, station, name)?;
    text.push(b" := ")?;
    write_name(text, station, outer(call, name))
}

fn write_wires(
    text: &mut Text,
    station: &Station,
    call: &BlockCall,
    names: &[Name],
) -> Result<(), Memory>
    requires inner { AreNamesWithin (length station.now.switches) names.now }
    requires outer { AreWiresWithin (length station.now.switches) call.now names.now }
    ensures { OnOk result (text.new ≡ text.old ++ wires_text station.now.switch_paths call.now names.now) }
{
    if names.is_empty() {
        return text.push(b");\n");
    }
    write_wire(text, station, call, names[0])?;
    for i in 1..names.len() {
        text.push(b",\n    ")?;
        write_wire(text, station, call, names[i])?;
    }
    text.push(b");\n")
}

fn write_drawn(
    text: &mut Text,
    station: &Station,
    instance: usize,
    call: &BlockCall,
    name: Name,
) -> Result<(), Memory>
    requires inner { NameWithin (length station.now.switches) name }
    requires outer { NameWithin (length station.now.switches) (outer call.now name) }
    ensures { OnOk result (text.new ≡ text.old ++ drawn_text station.now.switch_paths instance call.now name) }
{
    text.push(b"  ")?;
    write_name(text, station, outer(call, name))?;
    text.push(b" := b")?;
    text.push_decimal(instance)?;
    text.push(b".")?;
    write_name(text, station, name)?;
    text.push(b";\n")
}

fn write_draws(
    text: &mut Text,
    station: &Station,
    instance: usize,
    call: &BlockCall,
    names: &[Name],
) -> Result<(), Memory>
    requires inner { AreNamesWithin (length station.now.switches) names.now }
    requires outer { AreWiresWithin (length station.now.switches) call.now names.now }
    ensures { OnOk result (text.new ≡ text.old
        ++ draws_text station.now.switch_paths instance call.now names.now) }
{
    for name in names {
        write_drawn(text, station, instance, call, *name)?;
    }
    Ok(())
}

fn write_block_call(
    text: &mut Text,
    station: &Station,
    instance: usize,
    call: &BlockCall,
    block: &Block,
) -> Result<(), Memory>
    requires heading { HeadingWithin (part_count station.now) call.now.heading }
    requires block { BlockWithin station.now block.now }
    requires inputs { AreWiresWithin (length station.now.switches) call.now block.now.inputs.items }
    requires outputs { AreWiresWithin (length station.now.switches) call.now block.now.outputs.items }
    ensures { OnOk result (text.new ≡ text.old ++ block_call_text station.now instance call.now block.now) }
{
    write_heading(text, station, call.heading)?;
    text.push(b"  b")?;
    text.push_decimal(instance)?;
    text.push(b"(")?;
    write_wires(text, station, call, &block.inputs)?;
    write_draws(text, station, instance, call, &block.outputs)
}

fn write_call(
    text: &mut Text,
    station: &Station,
    blocks: &[Block],
    instance: usize,
    call: &BlockCall,
) -> Result<(), Memory>
    requires blocks { BlocksWithin station.now blocks.now }
    requires heading { HeadingWithin (part_count station.now) call.now.heading }
    requires wires { WiresWithin station.now call.now (slice_get blocks.now call.now.block) }
    ensures { OnOk result (text.new ≡ text.old
        ++ call_text station.now instance call.now (slice_get blocks.now call.now.block)) }
{
    match blocks.get(call.block) {
        None => Ok(()),
        Some(block) => write_block_call(text, station, instance, call, block),
    }
}

fn write_step(
    text: &mut Text,
    station: &Station,
    blocks: &[Block],
    instance: usize,
    step: &Step,
) -> Result<(), Memory>
    requires blocks { BlocksWithin station.now blocks.now }
    requires step { StepWithin station.now blocks.now step.now }
    ensures { OnOk result (text.new ≡ text.old ++ step_text station.now blocks.now instance step.now) }
{
    match step {
        Step::Assign(line) => write_line(text, station, *line),
        Step::Call(call) => write_call(text, station, blocks, instance, call),
    }
}

// The number of the next instance.
fn next_instance(instance: usize, step: &Step) -> usize
    requires { instance + 1 < 2 ^ 64 }
    ensures { result ≡ next_instance instance step.now }
{
    match step {
        Step::Assign(_) => instance,
        Step::Call(_) => instance + 1,
    }
}

/// Appends the steps of a program.
pub(crate) fn write_steps(
    text: &mut Text,
    station: &Station,
    blocks: &[Block],
    steps: &[Step],
) -> Result<(), Memory>
    requires blocks { BlocksWithin station.now blocks.now }
    requires steps { StepsWithin station.now blocks.now steps.now }
    ensures { OnOk result (text.new ≡ text.old ++ steps_text station.now blocks.now 0 steps.now) }
{
    let mut instance = 0;
    for step in steps {
        write_step(text, station, blocks, instance, step)?;
        instance = next_instance(instance, step);
    }
    Ok(())
}

fn write_instance(text: &mut Text, instance: usize, step: &Step) -> Result<(), Memory>
    ensures { OnOk result (text.new ≡ text.old ++ instance_text instance step.now) }
{
    match step {
        Step::Assign(_) => Ok(()),
        Step::Call(call) => {
            text.push(b"  b")?;
            text.push_decimal(instance)?;
            text.push(b" : BLOCK_")?;
            text.push_decimal(call.block)?;
            text.push(b";\n")
        }
    }
}

/// Appends the declarations of the instances.
pub(crate) fn write_instances(text: &mut Text, steps: &[Step]) -> Result<(), Memory>
    ensures { OnOk result (text.new ≡ text.old ++ instances_text 0 steps.now) }
{
    let mut instance = 0;
    for step in steps {
        write_instance(text, instance, step)?;
        instance = next_instance(instance, step);
    }
    Ok(())
}

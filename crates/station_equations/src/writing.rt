//! The text of equations.
ghost use Rattle.std.specs.Prelude.{◌≡◌, ◌++◌, ◌∷◌, [], codes, OnOk};
ghost use Rattle.std.specs.List.{flat_map};
ghost use Rattle.ilk_base.specs.declared.words.Direction.TheVariants.{ToOff, ToOn};
ghost use Rattle.station_equations.specs.declared.goal.Goal.{Goal as GoalOf};
ghost use Rattle.station_equations.specs.EquationLines.{PartLines};
ghost use Rattle.station_equations.specs.EquationText.{then_word, then_number, target_text, goal_text, switch_line};
ghost use Rattle.station_equations.specs.EquationText.{part_line, step_line, op_line, lead_text, node_line, numbered};
ghost use Rattle.station_equations.specs.EquationText.{lines_of, text_of};

use crate::goal::{Goal, SwitchGoals, goal_towards};
use crate::node::{Lead, Node};
use crate::part::PartSteps;
use central_rules::{direction_name, rule_name};
use ilk_base::{Direction, Memory, SwitchId, Text};
use part_alphabets::{PartStep, Target};
use station_graph::Station;

// Appends a blank and a number.
fn push_then_number(text: &mut Text, number: usize) -> Result<(), Memory>
    ensures { OnOk result (text.new ≡ text.old ++ then_number number) }
{
    text.push(b" ")?;
    text.push_decimal(number)
}

// Appends a blank and a target.
fn push_target(text: &mut Text, target: Target) -> Result<(), Memory>
    ensures { OnOk result (text.new ≡ text.old ++ then_word (target_text target)) }
{
    match target {
        Target::Step(n) => push_then_number(text, n as usize),
        Target::Index(index) => {
            text.push(b" =")?;
            text.push_decimal(usize::from(index))
        }
    }
}

// Appends a blank and a goal.
fn push_goal(text: &mut Text, goal: Goal) -> Result<(), Memory>
    ensures { OnOk result (text.new ≡ text.old ++ then_word (goal_text goal)) }
{
    match goal {
        Goal::Node(n) => push_then_number(text, n as usize),
        Goal::Answer(None) => text.push(b" ok"),
        Goal::Answer(Some(rule)) => {
            text.push(b" ")?;
            text.push(rule_name(rule))
        }
    }
}

// Appends goals, each after a blank.
fn push_goals(text: &mut Text, goals: &[Goal]) -> Result<(), Memory>
    ensures { OnOk result (text.new ≡ text.old ++ flat_map (λ (g : GoalOf). then_word (goal_text g)) goals.now) }
{
    for goal in goals {
        push_goal(text, *goal)?;
    }
    Ok(())
}

// Appends the line of a switch.
fn push_switch(text: &mut Text, number: usize, path: &str) -> Result<(), Memory>
    ensures { OnOk result (text.new ≡ text.old ++ (switch_line number path.now ++ codes "\n")) }
{
    text.push(b"switch")?;
    push_then_number(text, number)?;
    text.push(b" ")?;
    text.push(path.as_bytes())?;
    text.push(b"\n")
}

// Appends the line of a part.
fn push_part(text: &mut Text, number: usize, part: &PartSteps) -> Result<(), Memory>
    ensures { OnOk result (text.new ≡ text.old ++ (part_line number part.now ++ codes "\n")) }
{
    text.push(b"part")?;
    push_then_number(text, number)?;
    push_target(text, part.start)?;
    text.push(b"\n")
}

// Appends the line of a step.
fn push_step(text: &mut Text, part: usize, number: usize, step: PartStep) -> Result<(), Memory>
    ensures { OnOk result (text.new ≡ text.old ++ (step_line part number step ++ codes "\n")) }
{
    text.push(b"step")?;
    push_then_number(text, part)?;
    push_then_number(text, number)?;
    push_then_number(text, step.switch.0 as usize)?;
    push_target(text, step.off)?;
    push_target(text, step.on)?;
    text.push(b"\n")
}

// Appends the line of an operation.
fn push_op(
    text: &mut Text,
    number: usize,
    direction: Direction,
    goals: SwitchGoals,
) -> Result<(), Memory>
    ensures { OnOk result (text.new ≡ text.old ++ (op_line direction number goals ++ codes "\n")) }
{
    text.push(b"op")?;
    push_then_number(text, number)?;
    text.push(b" ")?;
    text.push(direction_name(direction))?;
    push_goal(text, goal_towards(goals, direction))?;
    text.push(b"\n")
}

// Appends the lines of a switch's two operations.
fn push_ops(text: &mut Text, number: usize, goals: SwitchGoals) -> Result<(), Memory>
    ensures { OnOk result (text.new ≡ text.old ++ (op_line ToOff number goals ++ codes "\n")
        ++ (op_line ToOn number goals ++ codes "\n")) }
{
    push_op(text, number, Direction::ToOff, goals)?;
    push_op(text, number, Direction::ToOn, goals)
}

// Appends what a node leads on by, and its goals.
fn push_lead(text: &mut Text, node: &Node) -> Result<(), Memory>
    ensures { OnOk result (text.new ≡ text.old ++ lead_text node.now) }
{
    match &node.lead {
        Lead::Part { part, goals } => {
            text.push(b" part")?;
            push_then_number(text, part.0 as usize)?;
            push_goals(text, goals)
        }
        Lead::Switch { switch, off, on } => {
            text.push(b" switch")?;
            push_then_number(text, switch.0 as usize)?;
            push_goal(text, *off)?;
            push_goal(text, *on)
        }
    }
}

// Appends the line of a node.
fn push_node(text: &mut Text, number: usize, node: &Node) -> Result<(), Memory>
    ensures { OnOk result (text.new ≡ text.old ++ (node_line number node.now ++ codes "\n")) }
{
    text.push(b"node")?;
    push_then_number(text, number)?;
    push_lead(text, node)?;
    text.push(b"\n")
}

/// Appends the lines of all switches.
pub fn push_switches(text: &mut Text, station: &Station) -> Result<(), Memory>
    ensures { OnOk result (text.new ≡ text.old
        ++ text_of (numbered (λ s path. switch_line s path ∷ []) station.now.switch_paths)) }
{
    for i in 0..station.switch_count() {
        push_switch(text, i as usize, station.switch_path(SwitchId(i)))?;
    }
    Ok(())
}

// Appends the lines of all parts.
fn push_parts(text: &mut Text, parts: &[PartSteps]) -> Result<(), Memory>
    ensures { OnOk result (text.new ≡ text.old ++ text_of (numbered (λ p x. part_line p x ∷ []) parts.now)) }
{
    for (i, part) in parts.iter().enumerate() {
        push_part(text, i, part)?;
    }
    Ok(())
}

// Appends the lines of a part's steps.
fn push_steps(text: &mut Text, part: usize, steps: &[PartStep]) -> Result<(), Memory>
    ensures { OnOk result (text.new ≡ text.old ++ text_of (numbered (λ m s. step_line part m s ∷ []) steps.now)) }
{
    for (i, step) in steps.iter().enumerate() {
        push_step(text, part, i, *step)?;
    }
    Ok(())
}

// Appends the lines of the steps of all parts.
fn push_all_steps(text: &mut Text, parts: &[PartSteps]) -> Result<(), Memory>
    ensures { OnOk result (text.new ≡ text.old
        ++ text_of (numbered (λ p (x : PartLines). numbered (λ m s. step_line p m s ∷ []) x.steps) parts.now)) }
{
    for (i, part) in parts.iter().enumerate() {
        push_steps(text, i, part.steps())?;
    }
    Ok(())
}

// Appends the lines of all operations.
fn push_all_ops(text: &mut Text, ops: &[SwitchGoals]) -> Result<(), Memory>
    ensures { OnOk result (text.new ≡ text.old
        ++ text_of (numbered (λ s x. op_line ToOff s x ∷ op_line ToOn s x ∷ []) ops.now)) }
{
    for (i, goals) in ops.iter().enumerate() {
        push_ops(text, i, *goals)?;
    }
    Ok(())
}

// Appends the lines of all nodes.
fn push_nodes(text: &mut Text, nodes: &[Node]) -> Result<(), Memory>
    ensures { OnOk result (text.new ≡ text.old ++ text_of (numbered (λ n x. node_line n x ∷ []) nodes.now)) }
{
    for (i, node) in nodes.iter().enumerate() {
        push_node(text, i, node)?;
    }
    Ok(())
}

// Appends all lines.
pub(crate) fn write_lines(
    text: &mut Text,
    station: &Station,
    parts: &[PartSteps],
    ops: &[SwitchGoals],
    nodes: &[Node],
) -> Result<(), Memory>
    ensures { OnOk result (text.new ≡ text.old
        ++ text_of (lines_of station.now (record { parts = parts.now; ops = ops.now; nodes = nodes.now }))) }
{
    text.push(b"equations\n")?;
    push_switches(text, station)?;
    push_parts(text, parts)?;
    push_all_steps(text, parts)?;
    push_all_ops(text, ops)?;
    push_nodes(text, nodes)?;
    text.push(b"end\n")?;
    Ok(())
}

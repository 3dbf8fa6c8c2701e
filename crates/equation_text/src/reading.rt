//! The lines of a text, read group by group.
ghost use Rattle.std.specs.Prelude.{◌≡◌, ◌≢◌, ◌<◌, ◌≤◌, ◌++◌, ◌∷◌, [], List, ℕ, codes, length, slice_get, Some, IfOk};
ghost use Rattle.std.specs.Prelude.{IfSome, IfNone, OnOk, MatchOption};
ghost use Rattle.ilk_base.specs.declared.words.Direction.TheVariants.{ToOff, ToOn};
ghost use Rattle.station_graph.specs.Diagram.{part_count};
ghost use Rattle.part_alphabets.specs.declared.fork.Target.{Target as TargetOf};
ghost use Rattle.station_equations.specs.declared.goal.SwitchGoals.{SwitchGoals as GoalsOf};
ghost use Rattle.station_equations.specs.declared.goal.TheConstants.{NUMBERS};
ghost use Rattle.station_equations.specs.EquationLines.{NodeLine, goal_towards};
ghost use Rattle.station_equations.specs.EquationForm.{IsGoal, SwitchGoalsFit};
ghost use Rattle.station_equations.specs.EquationText.{step_line, op_line, text_of};
ghost use Rattle.equation_text.specs.Beginnings.{MayBeStep};
ghost use Rattle.equation_text.specs.Stops.{NoOp, StopsAtStart, StopsAtOp, StopsAtOps, StopsAtNode};
ghost use Rattle.equation_text.specs.Reading.{start_lines, step_lines, op_lines, node_lines, MayBeStarts, MayBeSteps};
ghost use Rattle.equation_text.specs.Reading.{NoStep, AreAllSteps, MayBeOps, MayBeNodes};

use crate::lines::{read_op, read_part, read_step};
use crate::node_lines::read_node;
use crate::words::{behind, cut_line};
use ilk_base::{BayId, Direction, Memory};
use part_alphabets::{PartStep, Target};
use station_equations::{Goal, Node, PartSteps, SwitchGoals, next_number};
use station_graph::Station;
use std::alloc::Global;

// What is left of a text.
#[derive(Drop)]
pub(crate) struct Left<'a> {
    pub(crate) text: &'a [u8],
}

// Where the parts begin. The text is left at the line that is none of theirs.
pub(crate) fn read_starts(
    alloc: Global,
    left: &mut Left<'_>,
    parts: u16,
) -> Result<Option<Vec<Target>>, Memory>
    ensures { IfOk result (λ o. MatchOption o (StopsAtStart parts left.old.text.now left.new.text.now)
        (λ v. MayBeStarts parts v.items × (left.old.text.now ≡ text_of (start_lines v.items) ++ left.new.text.now))) }
{
    let mut starts = Vec::new(alloc);
    for part in 0..parts {
        let Some((line, rest)) = cut_line(left.text) else {
            return Ok(None);
        };
        let Some(start) = read_part(line, part as u32) else {
            return Ok(None);
        };
        starts.push(start)?;
        left.text = rest;
    }
    Ok(Some(starts))
}

// The next step of a part, if the next line is one.
fn next_step(left: &mut Left<'_>, station: &Station, part: BayId, m: u32) -> Option<PartStep>
    ensures some { IfSome result (λ s. MayBeStep station.now part.0 m s
        × (left.old.text.now ≡ step_line part.0 m s ++ 10 ∷ left.new.text.now)) }
    ensures none { IfNone result (NoStep station.now part.0 m left.old.text.now) }
    ensures same { IfNone result (left.new.text.now ≡ left.old.text.now) }
{
    let _switches = station.switch_count();
    let Some((line, rest)) = cut_line(left.text) else {
        return None;
    };
    let Some(step) = read_step(station, line, part, m) else {
        return None;
    };
    left.text = rest;
    Some(step)
}

// The steps of a part.
fn read_steps(
    alloc: Global,
    left: &mut Left<'_>,
    station: &Station,
    part: BayId,
) -> Result<Vec<PartStep>, Memory>
    ensures steps { IfOk result (λ v. MayBeSteps station.now part.0 v.items) }
    ensures text { IfOk result (λ v. left.old.text.now ≡ text_of (step_lines part.0 v.items) ++ left.new.text.now) }
    ensures last { IfOk result (λ v. NoStep station.now part.0 (length v.items) left.new.text.now) }
{
    let mut steps = Vec::new(alloc);
    let mut m = 0u32;
    while let Some(step) = next_step(left, station, part, m) {
        if m == u32::MAX {
            return Err(Memory);
        }
        steps.push(step)?;
        m += 1;
    }
    Ok(steps)
}

// Where the part begins.
fn start_at(starts: &[Target], part: u16) -> Target
    requires { part < length starts.now }
    ensures { slice_get starts.now part ≡ Some result }
{
    starts[part as usize]
}

// Puts the lines of one more part last.
fn keep(parts: &mut Vec<PartSteps>, start: Target, steps: Vec<PartStep>) -> Result<(), Memory>
    ensures { IfOk result (λ _. parts.new.items
        ≡ parts.old.items ++ (record { start = start; steps = steps.items }) ∷ []) }
{
    parts.push(PartSteps::new(start, steps))?;
    Ok(())
}

// The lines of all parts, which begin at these targets.
pub(crate) fn read_all_steps(
    alloc: Global,
    left: &mut Left<'_>,
    station: &Station,
    starts: &[Target],
) -> Result<Vec<PartSteps>, Memory>
    requires { length starts.now ≡ part_count station.now }
    ensures { IfOk result (λ v. AreAllSteps station.now starts.now left.old.text.now left.new.text.now v.items) }
{
    let mut parts = Vec::new(alloc);
    for part in 0..station.part_count() {
        let steps = read_steps(alloc, left, station, BayId(part as u8))?;
        let start = start_at(starts, part);
        keep(&mut parts, start, steps)?;
    }
    Ok(parts)
}

// The goal of an operation. The text is left where it is if the next line is none of this operation.
fn next_op(left: &mut Left<'_>, switch: u16, direction: Direction) -> Option<Goal>
    ensures some { IfSome result (λ g. IsGoal NUMBERS g × ((x : GoalsOf) → goal_towards x direction ≡ g
        → left.old.text.now ≡ op_line direction switch x ++ 10 ∷ left.new.text.now)) }
    ensures none { IfNone result (NoOp direction switch left.old.text.now) }
    ensures same { IfNone result (left.new.text.now ≡ left.old.text.now) }
{
    let Some((line, rest)) = cut_line(left.text) else {
        return None;
    };
    let Some(goal) = read_op(line, switch as u32, direction) else {
        return None;
    };
    left.text = rest;
    Some(goal)
}

// The goals of a switch.
fn next_ops(left: &mut Left<'_>, switch: u16) -> Option<SwitchGoals>
    ensures some { IfSome result (λ x. SwitchGoalsFit NUMBERS x
        × (left.old.text.now ≡ op_line ToOff switch x ++ 10 ∷ (op_line ToOn switch x ++ 10 ∷ left.new.text.now))) }
    ensures none { IfNone result (StopsAtOp switch left.old.text.now left.new.text.now) }
{
    let Some(opening) = next_op(left, switch, Direction::ToOff) else {
        return None;
    };
    let Some(closing) = next_op(left, switch, Direction::ToOn) else {
        return None;
    };
    Some(SwitchGoals { opening, closing })
}

// The goals of all switches.
pub(crate) fn read_ops(
    alloc: Global,
    left: &mut Left<'_>,
    switches: u16,
) -> Result<Option<Vec<SwitchGoals>>, Memory>
    ensures { IfOk result (λ o. MatchOption o (StopsAtOps switches left.old.text.now left.new.text.now)
        (λ v. MayBeOps switches v.items × (left.old.text.now ≡ text_of (op_lines v.items) ++ left.new.text.now))) }
{
    let mut ops = Vec::new(alloc);
    for switch in 0..switches {
        let Some(goals) = next_ops(left, switch) else {
            return Ok(None);
        };
        ops.push(goals)?;
    }
    Ok(Some(ops))
}

// The nodes, with the last line of the text behind theirs.
pub(crate) fn read_nodes(
    alloc: Global,
    left: &mut Left<'_>,
    switches: u16,
    counts: &[u16],
) -> Result<Option<Vec<Node>>, Memory>
    requires { length counts.now ≤ 256 }
    ensures { IfOk result (λ o. MatchOption o (StopsAtNode switches counts.now left.old.text.now left.new.text.now)
        (λ v. MayBeNodes switches counts.now v.items
        × (left.old.text.now ≡ text_of (node_lines v.items) ++ (codes "end\n" ++ left.new.text.now)))) }
{
    let mut nodes = Vec::new(alloc);
    loop {
        if let Some(rest) = behind(left.text, b"end\n") {
            left.text = rest;
            return Ok(Some(nodes));
        }
        let Some((line, rest)) = cut_line(left.text) else {
            return Ok(None);
        };
        let number = next_number(&nodes)?;
        let found = read_node(alloc, line, number, switches, counts)?;
        let Some(node) = found else {
            return Ok(None);
        };
        nodes.push(node)?;
        left.text = rest;
    }
}

//! Whether each number that lines name is defined.
ghost use Rattle.std.specs.Prelude.{◌≡◌, ◌↔◌, length, map, max, IfOk, IsTrue};
ghost use Rattle.station_equations.specs.declared.goal.TheConstants.{NUMBERS};
ghost use Rattle.station_equations.specs.EquationLines.{index_in, past_greatest, goal_count as count_of};
ghost use Rattle.station_equations.specs.EquationForm.{IsTarget, IsGoal, OpsFit, goals_of};
ghost use Rattle.equation_text.specs.Defined.{StepsThere, PartsThere, GoalsThere, NodesThere, StepsMay, PartsMay};

use ilk_base::Memory;
use part_alphabets::{PartStep, Target};
use station_equations::{Goal, Lead, Node, PartSteps, SwitchGoals};
use std::alloc::Global;

// So many, or one more than an index that the target writes.
fn past(count: u16, target: Target) -> u16
    ensures { result ≡ max count (past_greatest (index_in target)) }
{
    match target {
        Target::Index(index) => count.max(u16::from(index) + 1),
        Target::Step(_) => count,
    }
}

// How many indices the lines of a part write.
fn index_count(part: &PartSteps) -> u16
    ensures { result ≡ count_of part.now }
{
    let mut count = past(0, part.start());
    for step in part.steps() {
        count = past(past(count, step.off), step.on);
    }
    count
}

// How many indices the lines of each part write.
pub(crate) fn index_counts(alloc: Global, parts: &[PartSteps]) -> Result<Vec<u16>, Memory>
    ensures { IfOk result (λ v. v.items ≡ map count_of parts.now) }
{
    let mut counts = Vec::new(alloc);
    for part in parts {
        counts.push(index_count(part))?;
    }
    Ok(counts)
}

// Whether the target is one of so many steps, or an index.
fn is_there(target: Target, steps: usize) -> bool
    requires { IsTarget NUMBERS target }
    ensures { IsTrue result ↔ IsTarget steps target }
{
    match target {
        Target::Step(n) => (n as usize) < steps,
        Target::Index(_) => true,
    }
}

// Whether both targets of the step are.
fn are_there(step: PartStep, steps: usize) -> bool
    requires off { IsTarget NUMBERS step.off }
    requires on { IsTarget NUMBERS step.on }
    ensures { IsTrue result ↔ (IsTarget steps step.off × IsTarget steps step.on) }
{
    is_there(step.off, steps) && is_there(step.on, steps)
}

// Whether the targets of all steps are.
fn steps_there(steps: &[PartStep]) -> bool
    requires { StepsMay steps.now }
    ensures { IsTrue result ↔ StepsThere (length steps.now) steps.now }
{
    for step in steps {
        if !are_there(*step, steps.len()) {
            return false;
        }
    }
    true
}

// Whether all targets of all parts are.
pub(crate) fn parts_there(parts: &[PartSteps]) -> bool
    requires { PartsMay parts.now }
    ensures { IsTrue result ↔ PartsThere parts.now }
{
    for part in parts {
        if !is_there(part.start(), part.steps().len()) || !steps_there(part.steps()) {
            return false;
        }
    }
    true
}

// Whether the goal is one of so many nodes, or an answer.
fn is_node(goal: Goal, nodes: usize) -> bool
    ensures { IsTrue result ↔ IsGoal nodes goal }
{
    match goal {
        Goal::Node(n) => (n as usize) < nodes,
        Goal::Answer(_) => true,
    }
}

// Whether all of these goals are.
fn goals_there(goals: &[Goal], nodes: usize) -> bool
    ensures { IsTrue result ↔ GoalsThere nodes goals.now }
{
    for goal in goals {
        if !is_node(*goal, nodes) {
            return false;
        }
    }
    true
}

// Whether all goals of operations are.
pub(crate) fn ops_there(ops: &[SwitchGoals], nodes: usize) -> bool
    ensures { IsTrue result ↔ OpsFit nodes ops.now }
{
    for goals in ops {
        if !is_node(goals.opening, nodes) || !is_node(goals.closing, nodes) {
            return false;
        }
    }
    true
}

// Whether all goals of the node are.
fn node_there(node: &Node, nodes: usize) -> bool
    ensures { IsTrue result ↔ GoalsThere nodes (goals_of node.now) }
{
    match node.lead() {
        Lead::Part { goals, .. } => goals_there(goals, nodes),
        Lead::Switch { off, on, .. } => is_node(*off, nodes) && is_node(*on, nodes),
    }
}

// Whether all goals of nodes are.
pub(crate) fn nodes_there(nodes: &[Node]) -> bool
    ensures { IsTrue result ↔ NodesThere (length nodes.now) nodes.now }
{
    for node in nodes {
        if !node_there(node, nodes.len()) {
            return false;
        }
    }
    true
}

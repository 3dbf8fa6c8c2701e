//! Nodes in the order of their lines, from the last built to the first.
ghost use Rattle.std.specs.Prelude.{◌≡◌, ◌≤◌, ℕ, length, map, slice_get, Some, IfOk};
ghost use Rattle.station_equations.specs.EquationLines.{NodeLine};
ghost use Rattle.station_equations.specs.EquationForm.{IsGoal, SwitchGoalsFit, OpsFit, goals_of};
ghost use Rattle.station_equations.specs.Growing.{AreGoals, turned_goal, turned_line, turned_goals, IsTurned};

use crate::goal::{Goal, SwitchGoals};
use crate::node::{Lead, Node};
use ilk_base::Memory;
use std::alloc::Global;

// The goal where nodes are counted from the other end.
fn turned(goal: Goal, total: u32) -> Goal
    requires { IsGoal total goal }
    ensures { result ≡ turned_goal total goal }
{
    match goal {
        Goal::Node(n) => Goal::Node(total - 1 - n),
        Goal::Answer(answer) => Goal::Answer(answer),
    }
}

// Turns each goal.
fn turn_all(goals: &mut [Goal], total: u32)
    requires { AreGoals total goals.old }
    ensures { goals.new ≡ map (turned_goal total) goals.old }
{
    for i in 0..goals.len() {
        goals[i] = turned(goals[i], total);
    }
}

// The node with its goals turned.
fn turned_node(node: Node, total: u32) -> Node
    requires { AreGoals total (goals_of node) }
    ensures { result ≡ turned_line total node }
{
    let Node { lead } = node;
    match lead {
        Lead::Part { part, goals } => {
            let mut goals = goals;
            turn_all(&mut goals, total);
            Node::of_part(part, goals)
        }
        Lead::Switch { switch, off, on } => {
            Node::of_switch(switch, turned(off, total), turned(on, total))
        }
    }
}

// The nodes from the last to the first, with their goals turned.
pub(crate) fn turned_nodes(alloc: Global, nodes: Vec<Node>, total: u32) -> Result<Vec<Node>, Memory>
    requires total { length nodes.items ≡ total }
    requires goals { (n : ℕ) (x : NodeLine) → slice_get nodes.items n ≡ Some x → AreGoals total (goals_of x) }
    ensures { IfOk result (λ v. IsTurned nodes.items v.items) }
{
    let mut left = nodes;
    let mut out = Vec::new(alloc);
    while let Some(node) = left.pop() {
        out.push(turned_node(node, total))?;
    }
    Ok(out)
}

// Turns the goals of each switch.
fn turn_ops(ops: &mut [SwitchGoals], total: u32)
    requires { OpsFit total ops.old }
    ensures { ops.new ≡ map (turned_goals total) ops.old }
{
    for i in 0..ops.len() {
        let goals = ops[i];
        ops[i] = SwitchGoals {
            opening: turned(goals.opening, total),
            closing: turned(goals.closing, total),
        };
    }
}

// The goals of all switches, turned.
pub(crate) fn turned_ops(ops: Vec<SwitchGoals>, total: u32) -> Vec<SwitchGoals>
    requires { OpsFit total ops.items }
    ensures { result.items ≡ map (turned_goals total) ops.items }
{
    let mut ops = ops;
    turn_ops(&mut ops, total);
    ops
}

//! The goals of a graph's nodes.
ghost use Rattle.std.specs.Prelude.{◌≡◌, ◌<◌, ◌≤◌, ◌+◌, ◌⊎◌, ℕ, Bool, List, suc, length, slice_get, Some, IfOk, IfSome};
ghost use Rattle.std.specs.Prelude.{OnOk};
ghost use Rattle.decision_graphs.specs.Label.{layer_at, size_at, step};
ghost use Rattle.station_equations.specs.declared.goal.Goal.{Goal as GoalOf};
ghost use Rattle.station_equations.specs.declared.goal.TheConstants.{NUMBERS};
ghost use Rattle.station_equations.specs.EquationLines.{PartLines};
ghost use Rattle.station_equations.specs.EquationMeaning.{LineLeads, NextGoal};
ghost use Rattle.station_equations.specs.EquationForm.{IsGoal, goals_of};
ghost use Rattle.station_equations.specs.Subjects.{IsRowFor, IsChosen, HasChoices};
ghost use Rattle.station_equations.specs.Growing.{AreGoals, GrewFrom, AllGrew, LeadToGoals};
ghost use Rattle.judge_pool.specs.Pooling.{Extends};
ghost use Rattle.station_equations.specs.Apart.{IsFrom, AreFrom, AllFrom};

use crate::goal::{Goal, NUMBERS};
use crate::node::Node;
use crate::subject::Subject;
use decision_graphs::Graph;
use ilk_base::Memory;
use std::alloc::Global;

// The goal to which a choice at a node of the layer leads.
fn edge_goal(graph: &Graph, layer: u16, node: u32, choice: u32, next: &[Goal]) -> Goal
    requires layer { layer < length graph.now.layers }
    requires node { node < length (layer_at graph.now.layers layer).rows }
    requires choice { choice < (layer_at graph.now.layers layer).choices }
    requires next { length next.now ≡ size_at graph.now.labels graph.now.layers (suc layer) }
    ensures { slice_get next.now (step (layer_at graph.now.layers layer) node choice) ≡ Some result }
{
    let _fits = graph.labels();
    let layers = graph.layers();
    let (first, count) = graph.nodes(layer);
    let edge = graph.edge(first + node, choice);
    if layer + 1 == layers {
        next[edge as usize]
    } else {
        next[(edge - (first + count)) as usize]
    }
}

// The goals to which the choices at a node of the layer lead.
pub(crate) fn row_goals(
    alloc: Global,
    graph: &Graph,
    layer: u16,
    node: u32,
    next: &[Goal],
) -> Result<Vec<Goal>, Memory>
    requires layer { layer < length graph.now.layers }
    requires node { node < length (layer_at graph.now.layers layer).rows }
    requires next { length next.now ≡ size_at graph.now.labels graph.now.layers (suc layer) }
    ensures { IfOk result (λ v. LeadToGoals graph.now layer node next.now v.items) }
{
    let mut goals = Vec::new(alloc);
    for choice in 0..graph.choices(layer) {
        goals.push(edge_goal(graph, layer, node, choice, next))?;
    }
    Ok(goals)
}

// The goal that all of these are; none where two differ, or where there is none.
fn only(goals: &[Goal]) -> Option<Goal>
    ensures all { IfSome result (λ g. (i : ℕ) (x : GoalOf) → slice_get goals.now i ≡ Some x → x ≡ g) }
    ensures first { IfSome result (λ g. slice_get goals.now 0 ≡ Some g) }
{
    let first = *goals.first()?;
    for goal in goals {
        if *goal != first {
            return None;
        }
    }
    Some(first)
}

/// The number of the next node, with which there are fewer than `NUMBERS`; `Memory` where there would be more.
pub fn next_number(nodes: &[Node]) -> Result<u32, Memory>
    ensures number { IfOk result (λ n. n ≡ length nodes.now) }
    ensures small { IfOk result (λ n. n + 1 < NUMBERS) }
{
    if nodes.len() as u64 + 1 >= NUMBERS {
        return Err(Memory);
    }
    Ok(nodes.len() as u32)
}

// The node that looks at the subject.
fn node_of(subject: Subject, goals: Vec<Goal>) -> Node
    requires { IsRowFor subject (length goals.items) }
    ensures leads { (parts : List PartLines) (v : List Bool) (c : ℕ) (g : GoalOf) → IsChosen parts v subject c
        → slice_get goals.items c ≡ Some g → LineLeads parts v result g }
    ensures grew { (switches n : ℕ) (parts : List PartLines) → HasChoices switches parts subject (length goals.items)
        → AreGoals n goals.items → GrewFrom switches parts n result }
    ensures apart { (lo : ℕ) → AreFrom lo goals.items → AreFrom lo (goals_of result) }
{
    match subject {
        Subject::Part(part) => Node::of_part(part, goals),
        Subject::Switch(switch) => Node::of_switch(switch, goals[0], goals[1]),
    }
}

// The goal that leads on to these goals by the subject: a new node, or where all are one goal that one.
pub(crate) fn goal_by(
    nodes: &mut Vec<Node>,
    subject: Subject,
    goals: Vec<Goal>,
) -> Result<Goal, Memory>
    requires { IsRowFor subject (length goals.items) }
    ensures extends { OnOk result (Extends nodes.old.items nodes.new.items) }
    ensures leads { IfOk result (λ goal. (parts : List PartLines) (v : List Bool) (c : ℕ) (g : GoalOf) →
        IsChosen parts v subject c
        → slice_get goals.items c ≡ Some g → (goal ≡ g) ⊎ NextGoal parts nodes.new.items v goal g) }
    ensures grew { IfOk result (λ goal. (switches : ℕ) (parts : List PartLines) →
        HasChoices switches parts subject (length goals.items)
        → AreGoals (length nodes.old.items) goals.items → AllGrew switches parts nodes.old.items
        → AllGrew switches parts nodes.new.items × IsGoal (length nodes.new.items) goal) }
    ensures apart { IfOk result (λ goal. (lo : ℕ) → lo ≤ length nodes.old.items → AreFrom lo goals.items →
        AllFrom lo nodes.old.items
        → AllFrom lo nodes.new.items × IsFrom lo goal) }
    ensures few { OnOk result (length nodes.new.items ≤ length nodes.old.items + 1) }
{
    if let Some(goal) = only(&goals) {
        return Ok(goal);
    }
    let number = next_number(nodes)?;
    nodes.push(node_of(subject, goals))?;
    Ok(Goal::Node(number))
}

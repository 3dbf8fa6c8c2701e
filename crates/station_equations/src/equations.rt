//! Equations.
ghost use Rattle.std.specs.Prelude.{◌≡◌, ◌<◌, length, IfOk};
ghost use Rattle.station_equations.specs.EquationMeaning.{Leads, NextGoal, Means};
ghost use Rattle.station_equations.specs.EquationForm.{PartsFit, NodesFit, IsGoal, AreWhole};
ghost use Rattle.station_equations.specs.EquationText.{lines_of, text_of};

use crate::goal::{Goal, SwitchGoals, goal_towards};
use crate::node::Node;
use crate::part::PartSteps;
use crate::writing::write_lines;
use ilk_base::{Memory, Op, Rule, Text};
use station_graph::{Station, Vector};
use std::alloc::Global;
use std::marker::Model;

/// The interlocking of a station as equations, seen as the lines of their text: for each part its steps,
/// which lead from the positions of its switches to its index; for each operation its goal; and nodes, which
/// lead on by the index of a part or the position of a switch. The last goal is the answer: none, or the
/// rule that is broken.
#[derive(Drop)]
pub struct Equations {
    pub(crate) parts: Vec<PartSteps>,
    pub(crate) ops: Vec<SwitchGoals>,
    pub(crate) nodes: Vec<Node>,
}

impl Model for Equations {
    ghost use Rattle.station_equations.specs.EquationLines.{EquationLines};

    ghost Value = { EquationLines };

    ghost use Rattle.station_equations.specs.EquationForm.{AreWhole};
    ghost use Rattle.station_equations.specs.Inside.{equation_lines_of};

    ghost view = { equation_lines_of };

    ghost invariant = { λ e. AreWhole (equation_lines_of e) };
}

// The answer to which the nodes lead from this goal.
fn follow(start: Goal, parts: &[PartSteps], nodes: &[Node], vector: &Vector) -> Option<Rule>
    requires parts { PartsFit (length vector.now) parts.now }
    requires nodes { NodesFit (length vector.now) parts.now nodes.now }
    requires start { IsGoal (length nodes.now) start }
    ensures { Leads (NextGoal parts.now nodes.now vector.now) start (Goal.Answer result) }
{
    let mut at = start;
    loop {
        match at {
            Goal::Answer(answer) => {
                return answer;
            }
            Goal::Node(n) => {
                let node = &nodes[n as usize];
                at = node.next(parts, vector);
            }
        }
    }
}

impl Equations {
    /// The equations of these lines.
    pub fn new(parts: Vec<PartSteps>, ops: Vec<SwitchGoals>, nodes: Vec<Node>) -> Equations
        requires { AreWhole (record { parts = parts.items; ops = ops.items; nodes = nodes.items }) }
        ensures { result ≡ record { parts = parts.items; ops = ops.items; nodes = nodes.items } }
    {
        Equations { parts, ops, nodes }
    }

    /// The answer of the operation in the vector, by the meaning of the lines. The vector is of the station of
    /// the equations. Time: the nodes on the way, and the steps of their parts. Takes no memory.
    pub fn evaluate(&self, op: Op, vector: &Vector) -> Option<Rule>
        requires op { op.switch.0 < length self.now.ops }
        requires vector { length vector.now ≡ length self.now.ops }
        ensures { Means self.now op vector.now result }
    {
        let goals = self.ops[op.switch.0 as usize];
        let start = goal_towards(goals, op.direction);
        follow(start, &self.parts, &self.nodes, vector)
    }

    /// The text of the equations (docs/FORMATS.md), with the paths of this station's switches. Time and
    /// memory: the text.
    pub fn text(&self, alloc: Global, station: &Station) -> Result<Text, Memory>
        ensures { IfOk result (λ t. t ≡ text_of (lines_of station.now self.now)) }
    {
        let mut text = Text::new(alloc);
        write_lines(&mut text, station, &self.parts, &self.ops, &self.nodes)?;
        Ok(text)
    }
}

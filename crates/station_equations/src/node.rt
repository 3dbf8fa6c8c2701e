//! The lines of nodes.
ghost use Rattle.std.specs.Prelude.{◌≡◌, length};
ghost use Rattle.station_equations.specs.EquationLines.{part_node, switch_node};
ghost use Rattle.station_equations.specs.EquationMeaning.{goal_at, PartLeads, LineLeads};
ghost use Rattle.station_equations.specs.EquationForm.{PartsFit, HasGoals, LeadsBy};
ghost use Rattle.station_equations.specs.Inside.{lead_line};

use crate::goal::Goal;
use crate::part::PartSteps;
use ilk_base::{BayId, SwitchId};
use station_graph::Vector;
use std::marker::Model;

/// By what a node leads on, and to which goals.
#[derive(Drop)]
pub enum Lead {
    /// by the index of a part
    Part {
        /// the part
        part: BayId,
        /// a goal for each index
        goals: Vec<Goal>,
    },
    /// by the position of a switch
    Switch {
        /// the switch
        switch: SwitchId,
        /// the goal where it is open
        off: Goal,
        /// the goal where it is closed
        on: Goal,
    },
}

/// A node, seen as its line.
#[derive(Drop)]
pub struct Node {
    pub(crate) lead: Lead,
}

impl Model for Node {
    ghost use Rattle.station_equations.specs.EquationLines.{NodeLine};

    ghost Value = { NodeLine };

    ghost use Rattle.station_equations.specs.Inside.{node_line_of};

    ghost view = { node_line_of };
}

// One of two goals, by the position of a switch.
fn goal_at(off: Goal, on: Goal, position: bool) -> Goal
    ensures { result ≡ goal_at off on position }
{
    match position {
        false => off,
        true => on,
    }
}

// The goal of the index of a part.
fn by_part(parts: &[PartSteps], part: BayId, goals: &[Goal], vector: &Vector) -> Goal
    requires has { HasGoals parts.now part.0 goals.now }
    requires parts { PartsFit (length vector.now) parts.now }
    ensures { PartLeads parts.now vector.now part.0 goals.now result }
{
    let steps = &parts[part.0 as usize];
    let index = steps.index_of(vector);
    goals[index as usize]
}

impl Node {
    /// The node that leads on by the index of a part.
    pub fn of_part(part: BayId, goals: Vec<Goal>) -> Node
        ensures { result ≡ part_node part.0 goals.items }
    {
        Node {
            lead: Lead::Part { part, goals },
        }
    }

    /// The node that leads on by the position of a switch.
    pub fn of_switch(switch: SwitchId, off: Goal, on: Goal) -> Node
        ensures { result ≡ switch_node switch.0 off on }
    {
        Node {
            lead: Lead::Switch { switch, off, on },
        }
    }

    /// By what the node leads on, and to which goals.
    pub fn lead(&self) -> &Lead
        ensures { lead_line result.now ≡ self.now }
    {
        &self.lead
    }

    // The goal to which the node leads.
    pub(crate) fn next(&self, parts: &[PartSteps], vector: &Vector) -> Goal
        requires by { LeadsBy (length vector.now) parts.now self.now }
        requires parts { PartsFit (length vector.now) parts.now }
        ensures { LineLeads parts.now vector.now self.now result }
    {
        match &self.lead {
            Lead::Part { part, goals } => by_part(parts, *part, goals, vector),
            Lead::Switch { switch, off, on } => goal_at(*off, *on, vector.closed(*switch)),
        }
    }
}

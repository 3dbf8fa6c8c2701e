//! The lines of a part.
ghost use Rattle.std.specs.Prelude.{◌≡◌, ◌<◌, length, slice_get};
ghost use Rattle.station_equations.specs.EquationMeaning.{step_target, StepLeads, NextTarget, Leads, LeadsToIndex};
ghost use Rattle.station_equations.specs.EquationForm.{IsTarget, IsLaterTarget, StepsFit, PartLinesFit};
ghost use Rattle.part_alphabets.specs.declared.fork.Target.TheVariants.{Index as IndexOf};

use part_alphabets::{PartStep, Target};
use station_graph::Vector;
use std::marker::Model;

/// The steps of a part, and where they begin, seen as the part's lines.
#[derive(Drop)]
pub struct PartSteps {
    pub(crate) start: Target,
    pub(crate) steps: Vec<PartStep>,
}

impl Model for PartSteps {
    ghost use Rattle.station_equations.specs.EquationLines.{PartLines};

    ghost Value = { PartLines };

    ghost use Rattle.station_equations.specs.Inside.{part_lines_of};

    ghost view = { part_lines_of };
}

// Where a step leads by the position of its switch.
fn step_target(step: PartStep, closed: bool) -> Target
    ensures { result ≡ step_target step closed }
{
    match closed {
        false => step.off,
        true => step.on,
    }
}

// Where step m leads.
fn next_target(steps: &[PartStep], m: u32, vector: &Vector) -> Target
    requires listed { m < length steps.now }
    requires fits { StepsFit (length vector.now) steps.now }
    ensures leads { StepLeads steps.now vector.now m result }
    ensures later { IsLaterTarget (length steps.now) m result }
{
    let step = steps[m as usize];
    let closed = vector.closed(step.switch);
    step_target(step, closed)
}

// The index to which the steps lead from this target.
fn follow(start: Target, steps: &[PartStep], vector: &Vector) -> u8
    requires start { IsTarget (length steps.now) start }
    requires fits { StepsFit (length vector.now) steps.now }
    ensures { Leads (NextTarget steps.now vector.now) start (IndexOf result) }
{
    let mut at = start;
    loop {
        match at {
            Target::Index(index) => {
                return index;
            }
            Target::Step(m) => {
                at = next_target(steps, m, vector);
            }
        }
    }
}

impl PartSteps {
    /// The lines of a part that begins so and has these steps.
    pub fn new(start: Target, steps: Vec<PartStep>) -> PartSteps
        ensures { result ≡ record { start = start; steps = steps.items } }
    {
        PartSteps { start, steps }
    }

    /// Where the steps begin.
    pub fn start(&self) -> Target
        ensures { result ≡ self.now.start }
    {
        self.start
    }

    /// The steps.
    pub fn steps(&self) -> &[PartStep]
        ensures { result.now ≡ self.now.steps }
    {
        &self.steps
    }

    // The index to which the steps lead.
    pub(crate) fn index_of(&self, vector: &Vector) -> u8
        requires { PartLinesFit (length vector.now) self.now }
        ensures { LeadsToIndex self.now vector.now result }
    {
        follow(self.start, &self.steps, vector)
    }
}

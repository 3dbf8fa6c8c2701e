//! Goals: where operations and nodes lead.
ghost use Rattle.std.specs.Prelude.{◌≡◌};
ghost use Rattle.station_equations.specs.EquationLines.{goal_towards};

use ilk_base::{Direction, Rule};

/// The greatest index that a line writes.
pub const GREATEST_INDEX: u8 = 254;

/// One more than the greatest number of a step or node that a line can name.
pub const NUMBERS: u64 = 4_294_967_296;

/// Where an operation or a node leads.
#[derive(Clone, Copy, PartialEq, Eq)]
pub enum Goal {
    /// on to the node of this number
    Node(u32),
    /// to the answer: none where no rule is broken, else the rule
    Answer(Option<Rule>),
}

/// The goals of a switch's two operations.
#[derive(Clone, Copy, PartialEq, Eq)]
pub struct SwitchGoals {
    /// of opening it
    pub opening: Goal,
    /// of closing it
    pub closing: Goal,
}

// The goal of one of the two operations.
pub(crate) fn goal_towards(goals: SwitchGoals, direction: Direction) -> Goal
    ensures { result ≡ goal_towards goals direction }
{
    match direction {
        Direction::ToOff => goals.opening,
        Direction::ToOn => goals.closing,
    }
}

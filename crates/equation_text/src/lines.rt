//! What a line says.
ghost use Rattle.std.specs.Prelude.{◌≡◌, ◌≢◌, ◌↔◌, IfSome, IfNone, IsTrue};
ghost use Rattle.station_graph.specs.Connection.{a_switch};
ghost use Rattle.station_graph.specs.Sharing.{OfPart};
ghost use Rattle.part_alphabets.specs.declared.fork.PartStep.{PartStep as StepOf};
ghost use Rattle.station_equations.specs.declared.goal.SwitchGoals.{SwitchGoals as GoalsOf};
ghost use Rattle.station_equations.specs.declared.goal.TheConstants.{NUMBERS};
ghost use Rattle.station_equations.specs.EquationLines.{PartLines, goal_towards};
ghost use Rattle.station_equations.specs.EquationForm.{IsTarget, IsLaterTarget, IsGoal};
ghost use Rattle.station_equations.specs.EquationText.{part_line, step_line, op_line};
ghost use Rattle.equation_text.specs.Beginnings.{MayBeStep, IsTest, test_text};

use crate::words::{behind, behind_number, cut_word, goal, target};
use central_rules::direction_name;
use ilk_base::{BayId, Direction, SwitchId};
use part_alphabets::{PartStep, Target};
use station_equations::Goal;
use station_graph::Station;
use text_lines::decimal_number;

// Where the steps of the part begin, by its line.
pub(crate) fn read_part(line: &[u8], part: u32) -> Option<Target>
    ensures some { IfSome result (λ t. IsTarget NUMBERS t
        × ((x : PartLines) → x.start ≡ t → line.now ≡ part_line part x)) }
    ensures none { IfNone result ((x : PartLines) → IsTarget NUMBERS x.start → line.now ≢ part_line part x) }
{
    let Some(word) = behind_number(line, b"part ", part) else {
        return None;
    };
    let Some(start) = target(word) else {
        return None;
    };
    Some(start)
}

// The switch and the two targets that words say.
fn read_test(words: &[u8]) -> Option<PartStep>
    ensures some { IfSome result (λ s. IsTest s × (words.now ≡ test_text s)) }
    ensures none { IfNone result ((s : StepOf) → IsTest s → words.now ≢ test_text s) }
{
    let Some((word, rest)) = cut_word(words) else {
        return None;
    };
    let Some(switch) = decimal_number(word) else {
        return None;
    };
    let Some((word, rest)) = cut_word(rest) else {
        return None;
    };
    let Some(off) = target(word) else {
        return None;
    };
    let Some(on) = target(rest) else {
        return None;
    };
    if switch > 65_535 {
        return None;
    }
    Some(PartStep {
        switch: SwitchId(switch as u16),
        off,
        on,
    })
}

// Whether the target is a step behind step m, or an index.
fn is_later(target: Target, m: u32) -> bool
    requires { IsTarget NUMBERS target }
    ensures { IsTrue result ↔ IsLaterTarget NUMBERS m target }
{
    match target {
        Target::Step(n) => n > m,
        Target::Index(_) => true,
    }
}

// Whether the switch is one of the part.
fn is_own(station: &Station, part: BayId, switch: SwitchId) -> bool
    ensures { IsTrue result ↔ OfPart station.now part.0 (a_switch switch.0) }
{
    switch.0 < station.switch_count() && station.switch(switch).bay == part
}

// Whether step m of the part may be this.
fn may_be_step(station: &Station, part: BayId, m: u32, step: PartStep) -> bool
    requires { IsTest step }
    ensures { IsTrue result ↔ MayBeStep station.now part.0 m step }
{
    is_own(station, part, step.switch) && is_later(step.off, m) && is_later(step.on, m)
}

// Step m of the part, by its line.
pub(crate) fn read_step(station: &Station, line: &[u8], part: BayId, m: u32) -> Option<PartStep>
    ensures some { IfSome result (λ s. MayBeStep station.now part.0 m s × (line.now ≡ step_line part.0 m s)) }
    ensures none { IfNone result ((s : StepOf) → MayBeStep station.now part.0 m s → line.now ≢ step_line part.0 m s) }
{
    let _switches = station.switch_count();
    let Some(rest) = behind_number(line, b"step ", part.0 as u32) else {
        return None;
    };
    let Some(words) = behind_number(rest, b"", m) else {
        return None;
    };
    let Some(step) = read_test(words) else {
        return None;
    };
    if !may_be_step(station, part, m, step) {
        return None;
    }
    Some(step)
}

// The goal of an operation, by its line.
pub(crate) fn read_op(line: &[u8], switch: u32, direction: Direction) -> Option<Goal>
    ensures some { IfSome result (λ g. IsGoal NUMBERS g
        × ((x : GoalsOf) → goal_towards x direction ≡ g → line.now ≡ op_line direction switch x)) }
    ensures none { IfNone result ((x : GoalsOf) → IsGoal NUMBERS (goal_towards x direction) →
        line.now ≢ op_line direction switch x) }
{
    let Some(rest) = behind_number(line, b"op ", switch) else {
        return None;
    };
    let Some(rest) = behind(rest, direction_name(direction)) else {
        return None;
    };
    let Some(word) = behind(rest, b" ") else {
        return None;
    };
    let Some(goal) = goal(word) else {
        return None;
    };
    Some(goal)
}

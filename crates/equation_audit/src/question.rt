//! The questions to the judge: one for each position of a block's own switches.
ghost use Rattle.std.specs.Prelude.{◌≡◌, ◌<◌, ◌≤◌, ◌^◌, ℕ, length, true, false, replicate, IfOk};
ghost use Rattle.std.specs.List.{list_all};
ghost use Rattle.double_points.specs.Words.{AreWords};
ghost use Rattle.station_graph.specs.Alike.{IsVector};
ghost use Rattle.station_graph.specs.CentralRules.{IsOperation};
ghost use Rattle.central_rules.specs.Readings.{Decides};
ghost use Rattle.equation_audit.specs.declared.block.TheConstants.{MOST_OWN};
ghost use Rattle.equation_audit.specs.Equations.{is_among, holds, is_released, is_named, is_own, OwnBelow, IsOfStation};
ghost use Rattle.equation_audit.specs.Positions.{placed, word_at, AreOwnWords, SharesPosition, AllAmong};

use crate::block::{Alternative, Block, MOST_OWN};
use crate::condition::Condition;
use central_rules::{Judge, Verdict};
use double_points::Readings;
use ilk_base::{Dbpos, Memory, Op, SwitchId};
use station_graph::{Station, Vector};
use std::alloc::Global;

// How many positions so many switches have: two for each, multiplied.
pub(crate) fn position_count(own: &[SwitchId]) -> u32
    requires { length own.now ≤ MOST_OWN }
    ensures { result ≡ 2 ^ length own.now }
{
    1 << own.len()
}

// Puts the switches into the position of this number: the first is closed where the number is odd, the second where
// its half is, and so on.
pub(crate) fn place(vector: &mut Vector, own: &[SwitchId], number: u32)
    requires { AllAmong (length vector.old) own.now }
    ensures { vector.new ≡ placed vector.old own.now number }
{
    let mut left = number;
    for id in own {
        vector.set(*id, left % 2 == 1);
        left /= 2;
    }
}

// The vector with the switches in the position of this number, and all others open.
pub(crate) fn position(
    alloc: Global,
    station: &Station,
    own: &[SwitchId],
    number: u32,
) -> Result<Vector, Memory>
    requires { AllAmong (length station.now.switches) own.now }
    ensures placed { IfOk result (λ v. v ≡ placed (replicate (length station.now.switches) false) own.now number) }
    ensures whole { IfOk result (λ v. IsVector station.now v) }
{
    let mut vector = Vector::all_open(alloc, station)?;
    place(&mut vector, own, number);
    Ok(vector)
}

// Whether the condition holds in the vector.
fn holds(vector: &Vector, condition: Condition) -> bool
    requires { condition.switch.0 < length vector.now }
    ensures { result ≡ holds vector.now condition }
{
    vector.closed(condition.switch) == condition.closed
}

// Whether all conditions hold in the vector.
fn all_hold(conditions: &[Condition], vector: &Vector) -> bool
    requires { (i : ℕ) → is_named conditions.now i ≡ true → i < length vector.now }
    ensures { result ≡ list_all (holds vector.now) conditions.now }
{
    for condition in conditions {
        if !holds(vector, *condition) {
            return false;
        }
    }
    true
}

// Whether all conditions of one of the alternatives hold in the vector.
fn is_released(alternatives: &[Alternative], vector: &Vector) -> bool
    requires { OwnBelow (length vector.now) alternatives.now }
    ensures { result ≡ is_released alternatives.now vector.now }
{
    for alternative in alternatives {
        if all_hold(&alternative.conditions, vector) {
            return true;
        }
    }
    false
}

// The word that says this position.
fn word_at(closed: bool) -> Dbpos
    ensures { result ≡ word_at closed }
{
    match closed {
        false => Dbpos::Off,
        true => Dbpos::On,
    }
}

// The words of all switches where of the vector the positions of these are known.
fn own_words(
    alloc: Global,
    station: &Station,
    own: &[SwitchId],
    vector: &Vector,
) -> Result<Readings, Memory>
    requires own { AllAmong (length station.now.switches) own.now }
    requires vector { IsVector station.now vector.now }
    ensures all { IfOk result (AreWords station.now) }
    ensures own { IfOk result (AreOwnWords own.now vector.now) }
{
    let mut words = Readings::lost(alloc, station)?;
    for id in own {
        words.sense(*id, word_at(vector.closed(*id)));
    }
    Ok(words)
}

// The verdict over every vector that gives these switches the position that this vector gives them.
pub(crate) fn ask_of<J: Judge>(
    alloc: Global,
    station: &Station,
    op: Op,
    own: &[SwitchId],
    vector: &Vector,
    judge: &J,
) -> Result<Verdict, Memory>
    requires same { (J.meaning judge.now).diagram ≡ station.now }
    requires op { IsOperation station.now op }
    requires own { AllAmong (length station.now.switches) own.now }
    requires vector { IsVector station.now vector.now }
    ensures { IfOk result (Decides station.now (SharesPosition station.now (is_among own.now) vector.now) op) }
{
    let words = own_words(alloc, station, own, vector)?;
    judge.judge_all(alloc, op, &words)
}

impl Block {
    // Whether the block releases in the vector.
    pub(crate) fn is_released(&self, vector: &Vector) -> bool
        requires { OwnBelow (length vector.now) self.now.alternatives }
        ensures { result ≡ is_released self.now.alternatives vector.now }
    {
        is_released(&self.alternatives, vector)
    }

    // The verdict over every vector that gives the own switches the position that this vector gives them.
    // It is one question to the judge.
    pub(crate) fn ask<J: Judge>(
        &self,
        alloc: Global,
        station: &Station,
        vector: &Vector,
        judge: &J,
    ) -> Result<Verdict, Memory>
        requires same { (J.meaning judge.now).diagram ≡ station.now }
        requires block { IsOfStation station.now self.now }
        requires vector { IsVector station.now vector.now }
        ensures { IfOk result (Decides station.now (SharesPosition station.now (is_own self.now.alternatives)
            vector.now) self.now.op) }
    {
        ask_of(alloc, station, self.op, &self.own, vector, judge)
    }
}

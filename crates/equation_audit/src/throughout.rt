//! What is denied in each position of a block's own switches, known by one or two vectors.
ghost use Rattle.std.specs.Prelude.{◌≡◌, false, length, Some, replicate, IfOk, IsTrue};
ghost use Rattle.station_graph.specs.Alike.{IsVector};
ghost use Rattle.station_graph.specs.CentralRules.{Breaks, IsOperation};
ghost use Rattle.ilk_base.specs.declared.words.Rule.TheVariants as rule;
ghost use Rattle.equation_audit.specs.Equations.{is_own, IsOfStation};
ghost use Rattle.equation_audit.specs.Positions.{SharesPosition, AllAmong, all_closed};
ghost use Rattle.equation_audit.specs.Findings.{IsStrict, NeverDenied};

use crate::block::Block;
use crate::question::ask_of;
use central_rules::{Judge, Verdict, breaks};
use ilk_base::{Memory, Op, Rule, SwitchId};
use station_graph::{Station, Vector};
use std::alloc::Global;

// Closes these switches.
fn close_all(vector: &mut Vector, ids: &[SwitchId])
    requires { AllAmong (length vector.old) ids.now }
    ensures { vector.new ≡ all_closed vector.old ids.now }
{
    for id in ids {
        vector.set(*id, true);
    }
}

// Whether the operation breaks the third rule in the vector, and neither of the first two.
fn breaks_third(alloc: Global, station: &Station, vector: &Vector, op: Op) -> Result<bool, Memory>
    requires vector { IsVector station.now vector.now }
    requires op { IsOperation station.now op }
    ensures { IfOk result (λ b. IsTrue b → Breaks station.now vector.now op (Some rule.R3)) }
{
    match breaks(alloc, station, vector, op)? {
        Some(Rule::R3) => Ok(true),
        _ => Ok(false),
    }
}

// Whether what breaks this rule in a vector with the own switches open breaks a rule in each position of them. The first
// two rules forbid no less with more switches closed. The third forbids what it forbids both with the own switches open,
// so that there is load, and with them closed, so that nothing bonds both sides.
fn is_denied_by(
    alloc: Global,
    station: &Station,
    block: &Block,
    rule: Rule,
    reading: Vector,
) -> Result<bool, Memory>
    requires block { IsOfStation station.now block.now }
    requires shares { SharesPosition station.now (is_own block.now.alternatives)
        (replicate (length station.now.switches) false) reading }
    requires breaks { Breaks station.now reading block.now.op (Some rule) }
    ensures { IfOk result (λ b. IsTrue b → ¬ IsStrict station.now block.now) }
{
    match rule {
        Rule::R1 => Ok(true),
        Rule::R2 => Ok(true),
        Rule::R3 => {
            let mut highest = reading;
            close_all(&mut highest, &block.own);
            let both = breaks_third(alloc, station, &highest, block.op)?;
            Ok(both)
        }
    }
}

// Whether a rule forbids the operation of the block in each position of its own switches, as far as that is known by one
// question to the judge, on all of them open. Then the block is not strict, and no position has to be tried.
pub(crate) fn is_denied_throughout<J: Judge>(
    alloc: Global,
    station: &Station,
    block: &Block,
    judge: &J,
) -> Result<bool, Memory>
    requires same { (J.meaning judge.now).diagram ≡ station.now }
    requires block { IsOfStation station.now block.now }
    ensures { IfOk result (λ b. IsTrue b → ¬ IsStrict station.now block.now) }
{
    let lowest = Vector::all_open(alloc, station)?;
    match block.ask(alloc, station, &lowest, judge)? {
        Verdict::Release => Ok(false),
        Verdict::Denied { rule, reading } => is_denied_by(alloc, station, block, rule, reading),
    }
}

// Whether no rule forbids the operation in any vector, as the opening of a breaker: one question to the judge. Then no
// block of it is loose.
pub(crate) fn is_never_denied<J: Judge>(
    alloc: Global,
    station: &Station,
    op: Op,
    judge: &J,
) -> Result<bool, Memory>
    requires same { (J.meaning judge.now).diagram ≡ station.now }
    requires op { IsOperation station.now op }
    ensures { IfOk result (λ b. IsTrue b → NeverDenied station.now op) }
{
    let vector = Vector::all_open(alloc, station)?;
    match ask_of(alloc, station, op, &[], &vector, judge)? {
        Verdict::Release => Ok(true),
        Verdict::Denied {
            rule: _,
            reading: _,
        } => Ok(false),
    }
}

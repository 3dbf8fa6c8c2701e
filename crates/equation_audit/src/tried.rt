//! Positions of a block's own switches, tried one after another.
ghost use Rattle.std.specs.Prelude.{◌≡◌, false, length, replicate, IfOk, IfSome};
ghost use Rattle.station_graph.specs.Alike.{IsVector};
ghost use Rattle.station_graph.specs.CentralRules.{IsOperation};
ghost use Rattle.equation_audit.specs.Equations.{IsOfStation, AreOwn};
ghost use Rattle.equation_audit.specs.Positions.{placed, AllAmong};
ghost use Rattle.equation_audit.specs.Findings.{IsDeniedAt, TellsTried};

use crate::block::Block;
use crate::question::{place, position};
use central_rules::{Judge, Verdict, breaks};
use ilk_base::{Memory, Op, SwitchId};
use station_graph::{Station, Vector};
use std::alloc::Global;

// What is found of a position: that the block is strict in it, or that it is not; and then a vector in which the
// operation was denied last, if there is one at hand.
#[derive(Drop)]
pub(crate) enum Tried {
    Strict(Vector),
    NotStrict(Option<Vector>),
}

// A vector that shows the operation denied in the position of this number: that of an earlier denial with the own
// switches moved, where a rule forbids the operation there too. That is seen in a fifth of the time of a question to the
// judge.
fn denied_again(
    alloc: Global,
    station: &Station,
    op: Op,
    own: &[SwitchId],
    number: u32,
    denial: Option<Vector>,
) -> Result<Option<Vector>, Memory>
    requires op { IsOperation station.now op }
    requires own { AllAmong (length station.now.switches) own.now }
    requires denial { IfSome denial (IsVector station.now) }
    ensures { IfOk result (λ o. IfSome o (IsDeniedAt station.now op own.now number)) }
{
    let Some(mut vector) = denial else {
        return Ok(None);
    };
    place(&mut vector, own, number);
    match breaks(alloc, station, &vector, op)? {
        Some(_) => Ok(Some(vector)),
        None => Ok(None),
    }
}

// What is found of the position of this number. At most one question to the judge, and none where the block releases in
// that position, or where the vector of an earlier denial shows the operation denied there too.
pub(crate) fn try_position<J: Judge>(
    alloc: Global,
    station: &Station,
    block: &Block,
    own: &[SwitchId],
    number: u32,
    denial: Option<Vector>,
    judge: &J,
) -> Result<Tried, Memory>
    requires same { (J.meaning judge.now).diagram ≡ station.now }
    requires block { IsOfStation station.now block.now }
    requires own { AreOwn block.now.alternatives own.now }
    requires denial { IfSome denial (IsVector station.now) }
    ensures { IfOk result (TellsTried station.now block.now
        (placed (replicate (length station.now.switches) false) own.now number)) }
{
    let vector = position(alloc, station, own, number)?;
    if block.is_released(&vector) {
        return Ok(Tried::NotStrict(denial));
    }
    let again = denied_again(alloc, station, block.op, own, number, denial)?;
    if let Some(reading) = again {
        return Ok(Tried::NotStrict(Some(reading)));
    }
    match block.ask(alloc, station, &vector, judge)? {
        Verdict::Release => Ok(Tried::Strict(vector)),
        Verdict::Denied { rule: _, reading } => Ok(Tried::NotStrict(Some(reading))),
    }
}

//! The audit of blocks.
ghost use Rattle.std.specs.Prelude.{◌≡◌, ◌↔◌, true, IfOk, IfSome, IfNone, IsTrue};
ghost use Rattle.station_graph.specs.Alike.{IsVector};
ghost use Rattle.equation_audit.specs.Equations.{IsOfStation, AreOfStation};
ghost use Rattle.equation_audit.specs.Findings.{IsLooseIn, NoneLooseBy, TellsLoose, IsStrictAt, TellsStrict, IsFinding};
ghost use Rattle.equation_audit.specs.Findings.{AreFindings, SomeDiffers, some_differ, IsShown, AreShown};

use crate::block::{Block, Blocks};
use crate::finding::{Finding, Loose};
use crate::findings::Audit;
use crate::question::{position, position_count};
use crate::throughout::{is_denied_throughout, is_never_denied};
use crate::tried::{Tried, try_position};
use central_rules::{Judge, Verdict};
use ilk_base::Memory;
use station_graph::{Station, Vector};
use std::alloc::Global;

// A vector in which the block is loose, among those that give its own switches the position that this
// vector gives them; none where there is none. At most one question to the judge, and none where the block
// does not release in that position.
fn loose_by<J: Judge>(
    alloc: Global,
    station: &Station,
    block: &Block,
    vector: &Vector,
    judge: &J,
) -> Result<Option<Loose>, Memory>
    requires same { (J.meaning judge.now).diagram ≡ station.now }
    requires block { IsOfStation station.now block.now }
    requires vector { IsVector station.now vector.now }
    ensures some { IfOk result (λ o. IfSome o (λ l. IsLooseIn station.now block.now l.rule l.vector)) }
    ensures none { IfOk result (λ o. IfNone o (NoneLooseBy station.now block.now vector.now)) }
{
    if !block.is_released(vector) {
        return Ok(None);
    }
    match block.ask(alloc, station, vector, judge)? {
        Verdict::Release => Ok(None),
        Verdict::Denied { rule, reading } => Ok(Some(Loose {
            rule,
            vector: reading,
        })),
    }
}

// A vector in which the block is loose; none where it is not loose. Each position in which it releases is
// tried until one is found, unless no rule ever forbids the operation.
fn find_loose<J: Judge>(
    alloc: Global,
    station: &Station,
    block: &Block,
    judge: &J,
) -> Result<Option<Loose>, Memory>
    requires same { (J.meaning judge.now).diagram ≡ station.now }
    requires block { IsOfStation station.now block.now }
    ensures { IfOk result (TellsLoose station.now block.now) }
{
    if is_never_denied(alloc, station, block.op, judge)? {
        return Ok(None);
    }
    for number in 0..position_count(&block.own) {
        let vector = position(alloc, station, &block.own, number)?;
        if let Some(loose) = loose_by(alloc, station, block, &vector, judge)? {
            return Ok(Some(loose));
        }
    }
    Ok(None)
}

// A vector with a position in which the block is strict; none where it is not strict. Each position in
// which it does not release is tried until one is found, unless a rule is known to forbid the operation in all of them.
fn find_strict<J: Judge>(
    alloc: Global,
    station: &Station,
    block: &Block,
    judge: &J,
) -> Result<Option<Vector>, Memory>
    requires same { (J.meaning judge.now).diagram ≡ station.now }
    requires block { IsOfStation station.now block.now }
    ensures { IfOk result (TellsStrict station.now block.now) }
{
    if is_denied_throughout(alloc, station, block, judge)? {
        return Ok(None);
    }
    let mut denial = None;
    for number in 0..position_count(&block.own) {
        match try_position(alloc, station, block, &block.own, number, denial, judge)? {
            Tried::Strict(vector) => {
                return Ok(Some(vector));
            }
            Tried::NotStrict(next) => {
                denial = next;
            }
        }
    }
    Ok(None)
}

// What is found of one block.
fn audit_block<J: Judge>(
    alloc: Global,
    station: &Station,
    block: &Block,
    judge: &J,
) -> Result<Finding, Memory>
    requires same { (J.meaning judge.now).diagram ≡ station.now }
    requires block { IsOfStation station.now block.now }
    ensures finding { IfOk result (IsFinding station.now block.now) }
    ensures shown { IfOk result (IsShown station.now) }
{
    let loose = find_loose(alloc, station, block, judge)?;
    let strict = find_strict(alloc, station, block, judge)?;
    Ok(Finding {
        op: block.op,
        own: Vec::from_slice(alloc, &block.own)?,
        loose,
        strict,
    })
}

/// What is found of each block: whether it is loose, so that it releases in some vector what the rules
/// forbid there, with such a vector; and whether it is strict, so that it denies by a position of its own
/// switches what the rules allow in every vector with that position, with such a position. The blocks and
/// the judge are of the station.
///
/// Time: for each block at most one question to the judge (`judge_all`) for each position of its own
/// switches, which are at most `MOST_OWN`: 4,096 questions; and two more, on none of them and on all of them open,
/// after which most blocks need no other. Memory: the switches for each block, and that of
/// the judge.
pub fn audit<J: Judge>(
    alloc: Global,
    station: &Station,
    blocks: &Blocks,
    judge: &J,
) -> Result<Audit, Memory>
    requires same { (J.meaning judge.now).diagram ≡ station.now }
    requires blocks { AreOfStation station.now blocks.now }
    ensures findings { IfOk result (AreFindings station.now blocks.now) }
    ensures differs { IfOk result (λ a. (some_differ a ≡ true) ↔ SomeDiffers station.now blocks.now) }
    ensures shown { IfOk result (AreShown station.now) }
{
    let mut findings = Vec::new(alloc);
    for block in &blocks.blocks {
        findings.push(audit_block(alloc, station, block, judge)?)?;
    }
    Ok(Audit { findings })
}

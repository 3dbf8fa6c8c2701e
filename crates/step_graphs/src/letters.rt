//! The values of the steps, by their numbers in a pool.
ghost use Rattle.std.specs.Prelude.{◌<◌, length, map, IfOk, OnOk};
ghost use Rattle.contraction.specs.Answers.{IsContraction};
ghost use Rattle.judge_pool.specs.Pooling.{IsPool, GrewTo};
ghost use Rattle.step_graphs.specs.Steps.{StepFits, AllFit};
ghost use Rattle.step_graphs.specs.Letters.{IsLetterOf, HasLetter, IsStepRow, AreStepRows};
ghost use Rattle.contraction.specs.Answers.{Answers};
ghost use Rattle.std.specs.Prelude.{List, Bool};
ghost use Rattle.station_graph.specs.Diagram.{Diagram};
ghost use Rattle.step_graphs.specs.declared.step.Step.TheVariants.{OfSwitch, OfLink, OfTap, OfNothing};

use crate::step::Step;
use contraction::Contraction;
use ilk_base::{Memory, SwitchId};
use judge_pool::Pool;
use station_graph::{NodeList, Station};
use std::alloc::Global;

// The contraction of no item, on no nodes.
fn nothing(alloc: Global) -> Result<Contraction, Memory>
    ensures contraction { IfOk result IsContraction }
    ensures letter { IfOk result (λ c. (d : Diagram) (closed : Bool) → IsLetterOf d OfNothing closed c) }
{
    let nodes = NodeList::new(alloc);
    let value = Contraction::empty(alloc, &nodes)?;
    Ok(value)
}

// The contraction of a switch in this position.
fn switch_value(
    alloc: Global,
    station: &Station,
    id: SwitchId,
    closed: bool,
) -> Result<Contraction, Memory>
    requires { id.0 < length station.now.switches }
    ensures contraction { IfOk result IsContraction }
    ensures letter { IfOk result (IsLetterOf station.now (OfSwitch id) closed) }
{
    let value = Contraction::of_switch(alloc, station, id, closed)?;
    Ok(value)
}

// The contraction of a link.
fn link_value(alloc: Global, station: &Station, i: u16) -> Result<Contraction, Memory>
    requires { i < length station.now.links }
    ensures contraction { IfOk result IsContraction }
    ensures letter { IfOk result (λ c. (closed : Bool) → IsLetterOf station.now (OfLink i) closed c) }
{
    let value = Contraction::of_link(alloc, station, i)?;
    Ok(value)
}

// The contraction of a tap.
fn tap_value(alloc: Global, station: &Station, i: u16) -> Result<Contraction, Memory>
    requires { i < length station.now.taps }
    ensures contraction { IfOk result IsContraction }
    ensures letter { IfOk result (λ c. (closed : Bool) → IsLetterOf station.now (OfTap i) closed c) }
{
    let value = Contraction::of_tap(alloc, station, i)?;
    Ok(value)
}

// The contraction of what the step takes in, with its switch in this position.
fn step_value(
    alloc: Global,
    station: &Station,
    step: Step,
    closed: bool,
) -> Result<Contraction, Memory>
    requires { StepFits station.now step }
    ensures contraction { IfOk result IsContraction }
    ensures letter { IfOk result (IsLetterOf station.now step closed) }
{
    match step {
        Step::OfSwitch(id) => switch_value(alloc, station, id, closed),
        Step::OfLink(i) => link_value(alloc, station, i),
        Step::OfTap(i) => tap_value(alloc, station, i),
        Step::OfNothing => nothing(alloc),
    }
}

// The number of the value of the step, with its switch in this position.
fn step_id(
    alloc: Global,
    pool: &mut Pool,
    station: &Station,
    step: Step,
    closed: bool,
) -> Result<usize, Memory>
    requires pool { IsPool pool.old }
    requires fits { StepFits station.now step }
    ensures grew { OnOk result (GrewTo pool.old pool.new) }
    ensures letter { IfOk result (λ id. (letter : Answers) × HasLetter pool.new station.now step closed letter id) }
{
    let value = step_value(alloc, station, step, closed)?;
    let id = pool.intern(alloc, value)?;
    Ok(id)
}

// The numbers of the values of the step, open and closed.
fn step_row(
    alloc: Global,
    pool: &mut Pool,
    station: &Station,
    step: Step,
) -> Result<Vec<usize>, Memory>
    requires pool { IsPool pool.old }
    requires fits { StepFits station.now step }
    ensures grew { OnOk result (GrewTo pool.old pool.new) }
    ensures row { IfOk result (λ v. (letters : List Answers) × IsStepRow pool.new station.now step letters v.items) }
{
    let off = step_id(alloc, pool, station, step, false)?;
    let on = step_id(alloc, pool, station, step, true)?;
    let mut ids = Vec::new(alloc);
    ids.push(off)?;
    ids.push(on)?;
    Ok(ids)
}

/// The numbers in a pool of the values of each step, open and closed. Time and memory: the steps.
pub fn step_rows(
    alloc: Global,
    pool: &mut Pool,
    station: &Station,
    steps: &[Step],
) -> Result<Vec<Vec<usize>>, Memory>
    requires pool { IsPool pool.old }
    requires fit { AllFit station.now steps.now }
    ensures grew { OnOk result (GrewTo pool.old pool.new) }
    ensures rows { IfOk result (λ v. AreStepRows pool.new station.now steps.now (map (λ r. r.items) v.items)
        (length steps.now)) }
{
    let mut rows = Vec::new(alloc);
    for k in 0..steps.len() {
        let step = steps[k];
        let ids = step_row(alloc, pool, station, step)?;
        rows.push(ids)?;
    }
    Ok(rows)
}

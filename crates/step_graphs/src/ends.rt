//! What the values of all items but one switch say of it.
ghost use Rattle.std.specs.Prelude.{◌≡◌, ℕ, ◌<◌, length, slice_get, Some, IfOk};
ghost use Rattle.judge_pool.specs.Layering.{values_at};
ghost use Rattle.judge_pool.specs.declared.view.View.TheVariants.{Gap as GapView, Load as LoadView};
ghost use Rattle.judge_intake.specs.Coding.{labels_of, CodeSays, KeepsEnds};
ghost use Rattle.step_graphs.specs.Ending.{EndSays, AreEndCodes, IsBare};

use contraction::Contraction;
use ilk_base::{Direction, Memory, NodeId, Op, Rule, SwitchId};
use judge_pool::{Pool, View};
use station_graph::{NodeList, Station};
use std::alloc::Global;

// What the gap view says of closing the switch: 0, 1 or 2 for none of the first two rules, R1 and R2.
fn gap_code(station: &Station, id: SwitchId, value: &Contraction) -> u32
    requires switch { id.0 < length station.now.switches }
    requires ends { KeepsEnds station.now id.0 value.now }
    ensures says { CodeSays GapView station.now id.0 value.now result }
    ensures small { result < 3 }
{
    let op = Op {
        switch: id,
        direction: Direction::ToOn,
    };
    match value.ends_break_gap(station, op) {
        None => 0,
        Some(Rule::R1) => 1,
        Some(Rule::R2) | Some(Rule::R3) => 2,
    }
}

// What the load view says of moving the switch: 1 where the third rule applies, else 0.
fn load_code(station: &Station, id: SwitchId, value: &Contraction) -> u32
    requires switch { id.0 < length station.now.switches }
    requires ends { KeepsEnds station.now id.0 value.now }
    ensures says { CodeSays LoadView station.now id.0 value.now result }
    ensures small { result < 2 }
{
    let op = Op {
        switch: id,
        direction: Direction::ToOn,
    };
    if value.ends_break_load(station, op) {
        1
    } else {
        0
    }
}

// What the view says of the switch.
fn end_code(view: View, station: &Station, id: SwitchId, value: &Contraction) -> u32
    requires switch { id.0 < length station.now.switches }
    requires ends { KeepsEnds station.now id.0 value.now }
    ensures says { CodeSays view station.now id.0 value.now result }
    ensures small { result < labels_of view }
{
    match view {
        View::Gap => gap_code(station, id, value),
        View::Load => load_code(station, id, value),
    }
}

// These nodes as a list.
fn listed(alloc: Global, numbers: &[u16]) -> Result<NodeList, Memory>
    ensures { IfOk result (λ l. l ≡ numbers.now) }
{
    let mut nodes = NodeList::new(alloc);
    for k in 0..numbers.len() {
        nodes.push(NodeId(numbers[k]))?;
    }
    Ok(nodes)
}

// The value of nothing, on the ends of the switch.
fn bare(alloc: Global, station: &Station, id: SwitchId) -> Result<Contraction, Memory>
    requires { id.0 < length station.now.switches }
    ensures { IfOk result (IsBare station.now id.0) }
{
    let open = Contraction::of_switch(alloc, station, id, false)?;
    let nodes = listed(alloc, open.nodes())?;
    let value = Contraction::empty(alloc, &nodes)?;
    Ok(value)
}

// What the value of all other items says of the switch.
fn state_code(
    alloc: Global,
    view: View,
    station: &Station,
    id: SwitchId,
    ends: &Contraction,
    value: &Contraction,
) -> Result<u32, Memory>
    requires switch { id.0 < length station.now.switches }
    requires ends { IsBare station.now id.0 ends.now }
    ensures says { IfOk result (EndSays view station.now id.0 value.now) }
    ensures small { IfOk result (λ c. c < labels_of view) }
{
    let whole = value.compose(alloc, ends)?;
    let code = end_code(view, station, id, &whole);
    Ok(code)
}

// What each of these values of all other items says of the switch.
fn state_codes(
    alloc: Global,
    pool: &Pool,
    station: &Station,
    id: SwitchId,
    ends: &Contraction,
    states: &[usize],
) -> Result<Vec<u32>, Memory>
    requires switch { id.0 < length station.now.switches }
    requires ends { IsBare station.now id.0 ends.now }
    requires within { (t i : ℕ) → slice_get states.now t ≡ Some i → i < length pool.now.values.items }
    ensures { IfOk result (λ v. AreEndCodes pool.now.view station.now id.0
        (values_at pool.now.values.items states.now) v.items) }
{
    let mut codes = Vec::new(alloc);
    let count = states.len();
    for t in 0..count {
        let state = states[t];
        let value = &pool.values[state];
        let code = state_code(alloc, pool.view, station, id, ends, value)?;
        codes.push(code)?;
    }
    Ok(codes)
}

// What each of these values of all other items says of the switch.
pub(crate) fn end_codes(
    alloc: Global,
    pool: &Pool,
    station: &Station,
    id: SwitchId,
    states: &[usize],
) -> Result<Vec<u32>, Memory>
    requires switch { id.0 < length station.now.switches }
    requires within { (t i : ℕ) → slice_get states.now t ≡ Some i → i < length pool.now.values.items }
    ensures { IfOk result (λ v. AreEndCodes pool.now.view station.now id.0
        (values_at pool.now.values.items states.now) v.items) }
{
    let ends = bare(alloc, station, id)?;
    let codes = state_codes(alloc, pool, station, id, &ends, states)?;
    Ok(codes)
}

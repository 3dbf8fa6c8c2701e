//! The labels of inner graphs.
ghost use Rattle.std.specs.Prelude.{◌≡◌, ◌<◌, ℕ, length, map, slice_get, Some, IfOk};
ghost use Rattle.contraction.specs.Answers.{Answers, Keeps, AreNodes};
ghost use Rattle.contraction.specs.Renaming.{mapped};
ghost use Rattle.judge_pool.specs.Places.{node_listed};
ghost use Rattle.judge_pool.specs.Layering.{values_at};
ghost use Rattle.judge_intake.specs.Coding.{labels_of, CodeSays, KeepsEnds, AreCodes};
ghost use Rattle.judge_pool.specs.declared.view.View.TheVariants.{Gap as GapView, Load as LoadView};

use crate::places::on_nodes;
use contraction::Contraction;
use ilk_base::{Direction, Memory, Op, Rule, SwitchId};
use judge_pool::{Pool, View};
use station_graph::{NodeList, Station};
use std::alloc::Global;

/// How many labels an inner graph has.
pub fn label_count(view: View) -> u32
    ensures { result ≡ labels_of view }
{
    match view {
        View::Gap => 3,
        View::Load => 2,
    }
}

// What the gap view says of closing the switch: 0, 1 or 2 for none of the first two rules, R1 and R2.
fn gap_code(station: &Station, id: SwitchId, value: &Contraction) -> u32
    requires switch { id.0 < length station.now.switches }
    requires ends { KeepsEnds station.now id.0 value.now }
    ensures says { CodeSays GapView station.now id.0 value.now result }
    ensures small { result < 3 }
{
    let op = Op {
        switch: id,
        direction: Direction::ToOn,
    };
    match value.ends_break_gap(station, op) {
        None => 0,
        Some(Rule::R1) => 1,
        Some(Rule::R2) | Some(Rule::R3) => 2,
    }
}

// What the load view says of moving the switch: 1 where the third rule applies, else 0.
fn load_code(station: &Station, id: SwitchId, value: &Contraction) -> u32
    requires switch { id.0 < length station.now.switches }
    requires ends { KeepsEnds station.now id.0 value.now }
    ensures says { CodeSays LoadView station.now id.0 value.now result }
    ensures small { result < 2 }
{
    let op = Op {
        switch: id,
        direction: Direction::ToOn,
    };
    if value.ends_break_load(station, op) {
        1
    } else {
        0
    }
}

// What the view says of the switch.
fn code(view: View, station: &Station, id: SwitchId, value: &Contraction) -> u32
    requires switch { id.0 < length station.now.switches }
    requires ends { KeepsEnds station.now id.0 value.now }
    ensures says { CodeSays view station.now id.0 value.now result }
    ensures small { result < labels_of view }
{
    match view {
        View::Gap => gap_code(station, id, value),
        View::Load => load_code(station, id, value),
    }
}

/// What each of these values, by places of the list, says of the switch.
pub fn codes(
    alloc: Global,
    pool: &Pool,
    station: &Station,
    id: SwitchId,
    list: &NodeList,
    states: &[usize],
) -> Result<Vec<u32>, Memory>
    requires switch { id.0 < length station.now.switches }
    requires nodes { AreNodes list.now }
    requires within { (t i : ℕ) → slice_get states.now t ≡ Some i → i < length pool.now.values.items }
    requires places { (t p : ℕ) (x : Answers) → slice_get (values_at pool.now.values.items states.now) t ≡ Some x →
        Keeps x.kept p → p < length list.now }
    requires ends { (t : ℕ) (x : Answers) →
        slice_get (values_at (map (mapped (node_listed list.now)) pool.now.values.items) states.now) t ≡ Some x →
        KeepsEnds station.now id.0 x }
    ensures { IfOk result (λ v. AreCodes pool.now.view station.now id.0
        (values_at (map (mapped (node_listed list.now)) pool.now.values.items) states.now) v.items) }
{
    let mut codes = Vec::new(alloc);
    let count = states.len();
    for t in 0..count {
        let state = states[t];
        let value = &pool.values[state];
        let actual = on_nodes(alloc, list, value)?;
        let label = code(pool.view, station, id, &actual);
        codes.push(label)?;
    }
    Ok(codes)
}

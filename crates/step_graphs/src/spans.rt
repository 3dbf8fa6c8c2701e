//! The nodes that are kept before each layer.
ghost use Rattle.std.specs.Prelude.{◌≡◌, ℕ, suc, ◌+◌, ◌<◌, ◌≤◌, ◌↔◌, ◌^◌, length, IfOk, OnOk};
ghost use Rattle.std.specs.Prelude.{IsTrue, Contains};
ghost use Rattle.station_graph.specs.Diagram.{node_count};
ghost use Rattle.station_graph.specs.Sharing.{AtSwitch, AtLink, AtTap};
ghost use Rattle.station_graph.specs.declared.limits.TheConstants.{NODES};
ghost use Rattle.judge_pool.specs.Pooling.{IsPool, GrewTo};
ghost use Rattle.judge_intake.specs.Inputs.{AreKeeps};
ghost use Rattle.step_graphs.specs.Steps.{StepFits, StepTouches, AllFit};
ghost use Rattle.step_graphs.specs.Needing.{TouchedAt, IsNeeded, AreSpans, Spans, SpannedAt};
ghost use Rattle.step_graphs.specs.Touching.{IsSpanUpto, AreSpansUpto, IsTouched, AreTouched};

use crate::step::Step;
use ilk_base::{Memory, NodeId};
use judge_intake::other_number;
use judge_pool::Pool;
use station_graph::{Link, NodeList, Station, Switch, Tap};
use std::alloc::Global;

// From which of the other steps on a node is touched, up to which, and whether the left out step touches it.
#[derive(Clone, Copy)]
pub(crate) struct Span {
    pub(crate) first: u16,
    pub(crate) after: u16,
    pub(crate) own: bool,
}

// Whether the switch touches the node.
fn switch_touches(switch: Switch, node: u16) -> bool
    ensures { IsTrue result ↔ AtSwitch switch node }
{
    if switch.first.0 == node {
        return true;
    }
    match switch.second {
        Some(second) => second.0 == node,
        None => false,
    }
}

// Whether the link touches the node.
fn link_touches(link: Link, node: u16) -> bool
    ensures { IsTrue result ↔ AtLink link node }
{
    if link.first.0 == node {
        return true;
    }
    link.second.0 == node
}

// Whether the tap touches the node.
fn tap_touches(tap: Tap, node: u16) -> bool
    ensures { IsTrue result ↔ AtTap tap node }
{
    tap.node.0 == node
}

// Whether the item of the step touches the node.
fn step_touches(station: &Station, step: Step, node: u16) -> bool
    requires { StepFits station.now step }
    ensures { IsTrue result ↔ StepTouches station.now step node }
{
    match step {
        Step::OfSwitch(id) => switch_touches(station.switch(id), node),
        Step::OfLink(i) => link_touches(station.link(i), node),
        Step::OfTap(i) => tap_touches(station.tap(i), node),
        Step::OfNothing => false,
    }
}

// Whether the item of the step at a place touches the node.
fn touched_at(station: &Station, steps: &[Step], place: u16, node: u16) -> bool
    requires fit { AllFit station.now steps.now }
    requires place { place < length steps.now }
    ensures { IsTrue result ↔ TouchedAt station.now steps.now place node }
{
    let step = steps[usize::from(place)];
    step_touches(station, step, node)
}

// The span of a node that none of the other steps so far touches.
fn bare_span(station: &Station, steps: &[Step], moved: u16, others: u16, node: u16) -> Span
    requires fit { AllFit station.now steps.now }
    requires moved { moved < length steps.now }
    ensures { IsSpanUpto station.now steps.now moved others 0 node result }
{
    let own = touched_at(station, steps, moved, node);
    Span {
        first: others,
        after: 0,
        own,
    }
}

// The spans of all nodes where none of the other steps is taken in yet.
fn bare_spans(
    alloc: Global,
    station: &Station,
    steps: &[Step],
    moved: u16,
    others: u16,
) -> Result<Vec<Span>, Memory>
    requires fit { AllFit station.now steps.now }
    requires moved { moved < length steps.now }
    ensures { IfOk result (λ v. AreSpansUpto station.now steps.now moved others 0 v.items (node_count station.now)) }
{
    let mut list = Vec::new(alloc);
    for node in 0..station.node_count() {
        let reach = bare_span(station, steps, moved, others, node);
        list.push(reach)?;
    }
    Ok(list)
}

// The span where the i-th other step is the last that touches the node.
fn touched(span: Span, i: u16) -> Span
    requires { i + 1 < 2 ^ 16 }
    ensures { IsTouched i span result }
{
    let first = if i < span.first { i } else { span.first };
    Span {
        first,
        after: i + 1,
        own: span.own,
    }
}

// Takes in that the i-th other step touches the node.
fn touch(spans: &mut Vec<Span>, node: u16, i: u16)
    requires { i + 1 < 2 ^ 16 }
    ensures { AreTouched (λ n. node ≡ n) i spans.old.items spans.new.items }
{
    let place = usize::from(node);
    if place >= spans.len() {
        return;
    }
    spans[place] = touched(spans[place], i);
}

// Takes in that the i-th other step is that of the switch.
fn touch_switch(spans: &mut Vec<Span>, switch: Switch, i: u16)
    requires { i + 1 < 2 ^ 16 }
    ensures { AreTouched (AtSwitch switch) i spans.old.items spans.new.items }
{
    touch(spans, switch.first.0, i);
    match switch.second {
        Some(second) => touch(spans, second.0, i),
        None => {}
    }
}

// Takes in that it is that of the link.
fn touch_link(spans: &mut Vec<Span>, link: Link, i: u16)
    requires { i + 1 < 2 ^ 16 }
    ensures { AreTouched (AtLink link) i spans.old.items spans.new.items }
{
    touch(spans, link.first.0, i);
    touch(spans, link.second.0, i);
}

// Takes in the i-th other step.
fn touch_step(spans: &mut Vec<Span>, station: &Station, step: Step, i: u16)
    requires fits { StepFits station.now step }
    requires small { i + 1 < 2 ^ 16 }
    ensures { AreTouched (StepTouches station.now step) i spans.old.items spans.new.items }
{
    match step {
        Step::OfSwitch(id) => touch_switch(spans, station.switch(id), i),
        Step::OfLink(k) => touch_link(spans, station.link(k), i),
        Step::OfTap(k) => touch(spans, station.tap(k).node.0, i),
        Step::OfNothing => {}
    }
}

// Takes in the other steps, one after another.
fn touch_steps(spans: &mut Vec<Span>, station: &Station, steps: &[Step], moved: u16, others: u16)
    requires fit { AllFit station.now steps.now }
    requires count { suc others ≡ length steps.now }
    requires few { others + 1 < 2 ^ 16 }
    requires bare { AreSpansUpto station.now steps.now moved others 0 spans.old.items (node_count station.now) }
    ensures { AreSpansUpto station.now steps.now moved others others spans.new.items (node_count station.now) }
{
    for i in 0..others {
        let step = steps[usize::from(other_number(0, moved, i))];
        touch_step(spans, station, step, i);
    }
}

// The spans of all nodes.
fn spans(
    alloc: Global,
    station: &Station,
    steps: &[Step],
    moved: u16,
    others: u16,
) -> Result<Vec<Span>, Memory>
    requires fit { AllFit station.now steps.now }
    requires count { suc others ≡ length steps.now }
    requires few { others + 1 < 2 ^ 16 }
    requires moved { moved < length steps.now }
    ensures { IfOk result (λ v. AreSpans station.now steps.now moved others v.items (node_count station.now)) }
{
    let mut list = bare_spans(alloc, station, steps, moved, others)?;
    touch_steps(&mut list, station, steps, moved, others);
    Ok(list)
}

// Whether the span reaches over the place before the j-th other step.
fn reaches_over(span: Span, j: u16) -> bool
    ensures { IsTrue result ↔ Spans j span }
{
    span.first < j && (span.own || j < span.after)
}

// The nodes whose spans reach over the place before the j-th other step, rising.
fn nodes_over(alloc: Global, spans: &[Span], j: u16) -> Result<NodeList, Memory>
    requires { length spans.now ≤ NODES }
    ensures { IfOk result (λ l. (n : ℕ) → Contains l n ↔ SpannedAt spans.now j n) }
{
    let mut nodes = NodeList::new(alloc);
    for k in 0..spans.len() {
        if reaches_over(spans[k], j) {
            nodes.push(NodeId(k as u16))?;
        }
    }
    Ok(nodes)
}

// The numbers of the nodes that are kept before each layer, and after the last.
fn keeps_over(
    alloc: Global,
    pool: &mut Pool,
    station: &Station,
    steps: &[Step],
    moved: u16,
    others: u16,
    spans: &[Span],
) -> Result<Vec<usize>, Memory>
    requires pool { IsPool pool.old }
    requires fit { AllFit station.now steps.now }
    requires count { suc others ≡ length steps.now }
    requires few { others + 1 < 2 ^ 16 }
    requires spans { AreSpans station.now steps.now moved others spans.now (node_count station.now) }
    ensures grew { OnOk result (GrewTo pool.old pool.new) }
    ensures keeps { IfOk result (λ v. AreKeeps (IsNeeded station.now steps.now moved) pool.new v.items (suc others)) }
{
    let _ = steps;
    let _ = moved;
    let _nodes = station.node_count();
    let mut keeps = Vec::new(alloc);
    let count = others + 1;
    for j in 0..count {
        let nodes = nodes_over(alloc, spans, j)?;
        let id = pool.keep(alloc, nodes)?;
        keeps.push(id)?;
    }
    Ok(keeps)
}

// The numbers of the nodes that are kept before each layer, and after the last.
pub(crate) fn step_keeps(
    alloc: Global,
    pool: &mut Pool,
    station: &Station,
    steps: &[Step],
    moved: u16,
    others: u16,
) -> Result<Vec<usize>, Memory>
    requires pool { IsPool pool.old }
    requires fit { AllFit station.now steps.now }
    requires count { suc others ≡ length steps.now }
    requires few { others + 1 < 2 ^ 16 }
    requires moved { moved < length steps.now }
    ensures grew { OnOk result (GrewTo pool.old pool.new) }
    ensures keeps { IfOk result (λ v. AreKeeps (IsNeeded station.now steps.now moved) pool.new v.items (suc others)) }
{
    let list = spans(alloc, station, steps, moved, others)?;
    let keeps = keeps_over(alloc, pool, station, steps, moved, others, &list)?;
    Ok(keeps)
}

//! Each rule of the protocol once: what is shown, what is sent, what is kept, and the word of the first switch.
ghost use Rattle.std.specs.Prelude.{◌≡◌, ◌≤◌, IfOk, IsTrue, length};
ghost use Rattle.std.specs.List.{All};
ghost use Rattle.bay_frames.specs.Row.{IsLawful};
ghost use Rattle.central_rules.specs.declared.plain.TheConstants.{PLAIN_SWITCHES};
ghost use Rattle.central_rules.specs.WordRows.{by_rows};
ghost use Rattle.bay_protocol.specs.Fits.{IsNode, FitsHeard, EventFits};
ghost use Rattle.bay_protocol.specs.OutcomeLines.{OutcomeFits};

use crate::command_rows::COMMANDS;
use crate::event_rows::EVENTS;
use crate::frame_rows::FRAMES;
use crate::node_rows::{HIGHEST_0, Happens, Row};
use crate::reserving_rows::RESERVING;
use bay_frames::FrameList;
use bay_node::{Kept, Node, NodeEvent, NodeOutput, kept_fits};
use bay_protocol::{is_bay, is_own};
use central_rules::{PlainJudge, fits_plain};
use ilk_base::{BayId, Direction, Memory, Op, SwitchId};
use station_graph::Station;
use std::alloc::Global;
use std::process::Abort;
use std::test::Fail;
use test_stations::{Example, built};

// What happens, as an event of a switch of the bay.
fn event_of(happens: Happens) -> NodeEvent {
    match happens {
        Happens::Open(switch) => NodeEvent::Command(Op {
            switch: SwitchId(switch),
            direction: Direction::ToOff,
        }),
        Happens::Close(switch) => NodeEvent::Command(Op {
            switch: SwitchId(switch),
            direction: Direction::ToOn,
        }),
        Happens::Sense(switch, word) => NodeEvent::Sense {
            switch: SwitchId(switch),
            word,
        },
        Happens::Withdraw => NodeEvent::Withdraw,
        Happens::Restart => NodeEvent::Restart,
        Happens::Cut(switch) => NodeEvent::Cut(SwitchId(switch)),
        Happens::Bytes(_) | Happens::Tick => NodeEvent::Tick,
    }
}

// Whether the switch of the event is of the bay.
fn fits(station: &Station, bay: BayId, event: &NodeEvent) -> bool
    ensures { IsTrue result → EventFits station.now bay.0 event.now }
{
    match event {
        NodeEvent::Command(op) => is_own(station, bay, op.switch),
        NodeEvent::Sense { switch, .. } | NodeEvent::Cut(switch) => is_own(station, bay, *switch),
        NodeEvent::Frame(_) => false,
        NodeEvent::Tick | NodeEvent::Withdraw | NodeEvent::Restart => true,
    }
}

// One step.
fn step(
    rt: &impl Abort,
    alloc: Global,
    station: &Station,
    judge: &PlainJudge<'_>,
    node: &mut Node,
    happens: Happens,
) -> Result<NodeOutput, Memory>
    requires same { judge.now ≡ station.now }
    requires node { IsNode station.now node.old }
    requires fits { FitsHeard (by_rows station.now) node.old }
    requires bay { node.old.bay ≡ 1 }
    ensures node { IsNode station.now node.new }
    ensures fits { FitsHeard (by_rows station.now) node.new }
    ensures bay { node.new.bay ≡ 1 }
    ensures outcome { IfOk result (λ out. OutcomeFits station.now out.outcome) }
    ensures lawful { IfOk result (λ out. All IsLawful out.frames) }
{
    if let Happens::Bytes(bytes) = happens {
        return node.take(alloc, station, bytes, judge);
    }
    let event = event_of(happens);
    assert!(rt; fits(station, BayId(1), &event));
    node.step(alloc, station, event, judge)
}

// One step, and once more after want of memory, which leaves the node as it was: so the table holds also
// where any one allocation of a step is refused.
fn happen(
    rt: &impl Abort,
    alloc: Global,
    station: &Station,
    judge: &PlainJudge<'_>,
    node: &mut Node,
    happens: Happens,
) -> Result<NodeOutput, Fail>
    requires same { judge.now ≡ station.now }
    requires node { IsNode station.now node.old }
    requires fits { FitsHeard (by_rows station.now) node.old }
    requires bay { node.old.bay ≡ 1 }
    ensures node { IsNode station.now node.new }
    ensures fits { FitsHeard (by_rows station.now) node.new }
    ensures bay { node.new.bay ≡ 1 }
    ensures outcome { IfOk result (λ out. OutcomeFits station.now out.outcome) }
    ensures lawful { IfOk result (λ out. All IsLawful out.frames) }
{
    let before = (node.kept(), node.collecting());
    if let Ok(output) = step(rt, alloc, station, judge, node, happens) {
        return Ok(output);
    }
    assert!(rt; before == (node.kept(), node.collecting()));
    Ok(step(rt, alloc, station, judge, node, happens)?)
}

// Whether the frames are these rows.
fn are_sent(frames: &FrameList, rows: &[&[u8]]) -> bool
    requires { All IsLawful frames.now }
{
    if frames.len() != rows.len() {
        return false;
    }
    for i in 0..rows.len() {
        let mut into = [0; 64];
        let len = frames.get(i).encode(&mut into);
        if &into[..len] != rows[i] {
            return false;
        }
    }
    true
}

// The frames, the record and the lines after the event are those of the row.
fn expect_output(
    rt: &impl Abort,
    alloc: Global,
    station: &Station,
    node: &Node,
    row: &Row,
    output: &NodeOutput,
) -> Result<(), Fail>
    requires node { IsNode station.now node.now }
    requires outcome { OutcomeFits station.now output.now.outcome }
    requires lawful { All IsLawful output.now.frames }
{
    assert!(rt; are_sent(&output.frames, row.sent));
    assert!(rt; node.kept().to_bytes() == *row.kept);
    assert!(rt; station.switch_count() > 0);
    assert!(rt; node.word(SwitchId(0)) == row.word);
    let lines = output.outcome.lines(alloc, station, b"")?;
    assert!(rt; lines.bytes() == row.shown);
    Ok(())
}

// What comes of the event of the row.
fn expect_event(
    rt: &impl Abort,
    alloc: Global,
    station: &Station,
    judge: &PlainJudge<'_>,
    node: &mut Node,
    row: &Row,
) -> Result<(), Fail>
    requires same { judge.now ≡ station.now }
    requires node { IsNode station.now node.old }
    requires fits { FitsHeard (by_rows station.now) node.old }
    requires bay { node.old.bay ≡ 1 }
{
    let before = node.kept();
    let output = happen(rt, alloc, station, judge, node, row.event)?;
    assert!(rt; output.keep.is_some() == (before != node.kept()));
    expect_output(rt, alloc, station, node, row, &output)
}

// What happens first.
fn play(
    rt: &impl Abort,
    alloc: Global,
    station: &Station,
    judge: &PlainJudge<'_>,
    node: &mut Node,
    story: &[Happens],
) -> Result<(), Fail>
    requires same { judge.now ≡ station.now }
    requires node { IsNode station.now node.old }
    requires fits { FitsHeard (by_rows station.now) node.old }
    requires bay { node.old.bay ≡ 1 }
    ensures node { IsNode station.now node.new }
    ensures fits { FitsHeard (by_rows station.now) node.new }
    ensures bay { node.new.bay ≡ 1 }
{
    for happens in story {
        happen(rt, alloc, station, judge, node, *happens)?;
    }
    Ok(())
}

// The node of the row, from its record on.
fn expect_node(
    rt: &impl Abort,
    alloc: Global,
    station: &Station,
    node: &mut Node,
    row: &Row,
) -> Result<(), Fail>
    requires node { IsNode station.now node.old }
    requires fits { FitsHeard (by_rows station.now) node.old }
    requires bay { node.old.bay ≡ 1 }
{
    assert!(rt; fits_plain(station));
    let judge = PlainJudge::new(station);
    play(rt, alloc, station, &judge, node, row.first)?;
    expect_event(rt, alloc, station, &judge, node, row)
}

fn expect_row(rt: &impl Abort, alloc: Global, station: &Station, row: &Row) -> Result<(), Fail> {
    let kept = Kept::from_bytes(row.start);
    assert!(rt; kept.is_some());
    let kept = kept.unwrap();
    assert!(rt; is_bay(station, BayId(1)));
    assert!(rt; kept_fits(station, BayId(1), &kept));
    let mut node = Node::resume(alloc, station, BayId(1), kept)?;
    expect_node(rt, alloc, station, &mut node, row)
}

fn try_row(rt: &impl Abort, alloc: Global, row: &Row) -> Result<(), Fail> {
    let station = built(alloc, row.station)?;
    expect_row(rt, alloc, &station, row)
}

fn try_rows(rt: &impl Abort, alloc: Global, rows: &[Row]) -> Result<(), Fail> {
    for row in rows {
        try_row(rt, alloc, row)?;
    }
    Ok(())
}

fn expect_new(rt: &impl Abort, alloc: Global, station: &Station) -> Result<(), Fail> {
    assert!(rt; is_bay(station, BayId(1)));
    let node = Node::new(alloc, station, BayId(1))?;
    assert!(rt; node.kept().to_bytes() == *HIGHEST_0);
    assert!(rt; node.collecting() == None);
    Ok(())
}

#[test]
fn nothing_at_first(rt: HostRuntime) -> Result<(), Fail> {
    let station = built(rt.alloc(), Example::TwoFeeders)?;
    expect_new(&rt, rt.alloc(), &station)
}

#[test]
fn each_rule(rt: HostRuntime) -> Result<(), Fail> {
    try_rows(&rt, rt.alloc(), COMMANDS)?;
    try_rows(&rt, rt.alloc(), RESERVING)?;
    try_rows(&rt, rt.alloc(), FRAMES)?;
    try_rows(&rt, rt.alloc(), EVENTS)
}

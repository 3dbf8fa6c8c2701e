//! Lines of an input that are stepped together.
ghost use Rattle.std.specs.Prelude.{◌≡◌, ◌≢◌, ◌≤◌, ◌<◌, ◌+◌, ◌^◌, None, false, OnOk, OnErr, IsErrOf, position};
ghost use Rattle.bay_protocol.specs.Fits.{IsNode, FitsHeard};
ghost use Rattle.node_session.specs.Reading.{is_feed};
ghost use Rattle.node_session.specs.Requests.{IsRequest};
ghost use Rattle.stored_session.specs.Holding.{HoldsLine};
ghost use Rattle.stored_session.specs.Batch.{AddsLine, StepsHeld};

use crate::line::act;
use bay_node::{Kept, Node};
use central_rules::Judge;
use ilk_base::{BayId, Text};
use node_session::{LineTrouble, Reader, shown_text, without_return};
use station_graph::Station;
use std::alloc::Global;

// Lines that are stepped, and neither stored nor shown yet.
#[derive(Drop)]
pub(crate) struct Batch {
    // their texts, one after another
    pub text: Text,
    // the record after the last of them
    pub kept: Kept,
    // how many they are
    pub count: u32,
    // why the line behind them gives no step, where one was tried
    pub stop: Option<LineTrouble>,
}

impl Batch {
    // Steps one line more.
    fn add<J: Judge>(
        &mut self,
        alloc: Global,
        station: &Station,
        bay: BayId,
        judge: &J,
        node: &mut Node,
        line: &[u8],
    ) -> Result<(), LineTrouble>
        requires same { (J.meaning judge.now).diagram ≡ station.now }
        requires node { IsNode station.now node.old }
        requires fits { FitsHeard (J.meaning judge.now) node.old }
        requires bay { node.old.bay ≡ bay.0 }
        requires few { self.old.count + 1 < 2 ^ 32 }
        ensures ok { OnOk result (AddsLine (J.meaning judge.now) station.now bay.0 node.old line.now node.new self.old
            self.new) }
        ensures refused { IsErrOf result LineTrouble.Refused → ¬ IsRequest station.now bay.0 false line.now }
        ensures err { OnErr result (self.new ≡ self.old) }
        ensures node { IsNode station.now node.new }
        ensures fits { FitsHeard (J.meaning judge.now) node.new }
        ensures bay { node.new.bay ≡ bay.0 }
    {
        let output = match act(alloc, station, bay, judge, node, line) {
            Ok(output) => output,
            Err(trouble) => return Err(trouble),
        };
        let Ok(text) = shown_text(alloc, station, &output) else {
            return Err(LineTrouble::Memory);
        };
        let Ok(()) = self.text.push(text.bytes()) else {
            return Err(LineTrouble::Memory);
        };
        self.kept = node.kept();
        self.count += 1;
        Ok(())
    }
}

// The place of the first LF.
fn first_feed(bytes: &[u8]) -> Option<usize>
    ensures { result ≡ position is_feed bytes.now }
{
    bytes.iter().position(|byte| *byte == b'\n')
}

// Steps the whole lines that are held, at most so many; the first that asks for no step stops it. Nothing is asked of
// the input.
pub(crate) fn step_held<J: Judge>(
    alloc: Global,
    station: &Station,
    bay: BayId,
    judge: &J,
    node: &mut Node,
    reader: &mut Reader,
    most: u32,
) -> Batch
    requires same { (J.meaning judge.now).diagram ≡ station.now }
    requires node { IsNode station.now node.old }
    requires fits { FitsHeard (J.meaning judge.now) node.old }
    requires bay { node.old.bay ≡ bay.0 }
    requires some { 0 < most }
    requires holds { HoldsLine reader.old }
    ensures steps { StepsHeld (J.meaning judge.now) station.now bay.0 node.old reader.old node.new reader.new result }
    ensures few { result.count ≤ most }
    ensures some { result.stop ≡ None → 0 < result.count }
    ensures fewer { result.stop ≢ None → result.count < most }
    ensures node { IsNode station.now node.new }
    ensures fits { FitsHeard (J.meaning judge.now) node.new }
    ensures bay { node.new.bay ≡ bay.0 }
{
    let mut batch = Batch {
        text: Text::new(alloc),
        kept: node.kept(),
        count: 0,
        stop: None,
    };
    while batch.count < most {
        let Some(len) = first_feed(reader.held()) else {
            return batch;
        };
        let (line, _) = reader.held().split_at(len);
        if let Err(trouble) = batch.add(alloc, station, bay, judge, node, without_return(line)) {
            batch.stop = Some(trouble);
            return batch;
        }
        reader.pass(len + 1);
    }
    batch
}

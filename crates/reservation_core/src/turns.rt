//! A node of a world takes a step, and what it sends gets the next numbers.
ghost use Rattle.std.specs.Prelude.{◌≡◌, ◌≤◌, ◌+◌, ◌++◌, length, IfOk, OnErr};
ghost use Rattle.std.specs.Vec.{vec_len, vec_capacity};
ghost use Rattle.central_rules.specs.Meaning.{IsBay};
ghost use Rattle.bay_frames.specs.Row.{IsLawful};
ghost use Rattle.bay_protocol.specs.Fits.{EventFits};
ghost use Rattle.reservation_core.specs.RoundFacts.{RoundFacts};
ghost use Rattle.reservation_core.specs.Happens.{NodeSteps, NodeTakes};
ghost use Rattle.reservation_core.specs.declared.values.TheConstants.{MESSAGES};

use crate::scene::Scene;
use crate::values::WorldOutcome;
use bay_frames::Frame;
use bay_protocol::{NodeEvent, step_gives};
use central_rules::Judge;
use ilk_base::{BayId, Memory};
use station_graph::Station;
use std::alloc::Global;

// More than the most messages of one step: one to each other bay.
pub(crate) const ROOM: usize = 64;

// Appends what was sent, for which there is room.
fn post(sent: &mut Vec<Frame>, frames: &[Frame])
    requires { vec_len sent.old + length frames.now ≤ vec_capacity sent.old }
    ensures { sent.new.items ≡ sent.old.items ++ frames.now }
{
    match sent.extend_from_slice(frames) {
        Ok(()) => {}
        Err(_) => unreachable!(),
    }
}

impl Scene {
    // The node of a bay takes a step. Room for what it may send is taken first.
    pub(crate) fn turn<J: Judge>(
        &mut self,
        alloc: Global,
        station: &Station,
        judge: &J,
        bay: BayId,
        event: NodeEvent,
    ) -> Result<WorldOutcome, Memory>
        requires same { (J.meaning judge.now).diagram ≡ station.now }
        requires facts { RoundFacts (J.meaning judge.now) self.old }
        requires bay { IsBay station.now bay.0 }
        requires event { EventFits station.now bay.0 event }
        requires room { length self.old.sent ≤ MESSAGES }
        ensures step { IfOk result (λ out. NodeSteps (J.meaning judge.now) self.old bay.0 event self.new out) }
        ensures err { OnErr result (self.new ≡ self.old) }
    {
        // Its clause says that fewer frames are sent than there may be bays; it does nothing.
        step_gives(judge);
        let first = self.sent.len() as u32 + 1;
        self.sent.reserve(ROOM)?;
        let output = match &mut self.nodes[usize::from(bay.0)] {
            Some(node) => node.step(alloc, station, event, judge)?,
            None => unreachable!(),
        };
        post(&mut self.sent, output.frames.frames());
        Ok(WorldOutcome::Node { bay, first, output })
    }

    // The node of a bay is handed these bytes. Room for what it may send is taken first.
    pub(crate) fn hand<J: Judge>(
        &mut self,
        alloc: Global,
        station: &Station,
        judge: &J,
        bay: BayId,
        bytes: &[u8],
    ) -> Result<WorldOutcome, Memory>
        requires same { (J.meaning judge.now).diagram ≡ station.now }
        requires facts { RoundFacts (J.meaning judge.now) self.old }
        requires bay { IsBay station.now bay.0 }
        requires room { length self.old.sent ≤ MESSAGES }
        ensures step { IfOk result (λ out. NodeTakes (J.meaning judge.now) self.old bay.0 bytes.now self.new out) }
        ensures err { OnErr result (self.new ≡ self.old) }
    {
        step_gives(judge);
        let first = self.sent.len() as u32 + 1;
        self.sent.reserve(ROOM)?;
        let output = match &mut self.nodes[usize::from(bay.0)] {
            Some(node) => node.take(alloc, station, bytes, judge)?,
            None => unreachable!(),
        };
        post(&mut self.sent, output.frames.frames());
        Ok(WorldOutcome::Node { bay, first, output })
    }
}

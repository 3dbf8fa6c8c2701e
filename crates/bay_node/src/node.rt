//! The node.
ghost use Rattle.std.specs.Prelude.{◌≡◌, ◌<◌, ◌↔◌, length, Some, None, Option, option_map, IfOk, OnErr, slice_get};
ghost use Rattle.std.specs.List.{All};
ghost use Rattle.station_graph.specs.Diagram.{IsStation};
ghost use Rattle.central_rules.specs.Meaning.{IsBay};
ghost use Rattle.bay_frames.specs.Row.{IsLawful};
ghost use Rattle.bay_protocol.specs.State.{kept_of, nothing_kept, resumed, under_way};
ghost use Rattle.bay_protocol.specs.Fits.{KeptFits, IsNode, FitsHeard, EventFits};
ghost use Rattle.bay_protocol.specs.Step.{Step, TakeStep};
ghost use Rattle.bay_protocol.specs.Output.{turn, IsKeep};
ghost use Rattle.bay_protocol.specs.OutcomeLines.{OutcomeFits};

use crate::sending::says;
use bay_frames::Frame;
use bay_protocol::{Collection, Grant, Kept, Lock, NodeEvent, NodeOutput, Outcome};
use central_rules::Judge;
use double_points::Readings;
use ilk_base::{BayId, Dbpos, Memory, SwitchId};
use station_graph::Station;
use std::alloc::Global;
use std::marker::Model;

/// One bay. It is seen as its state: what it keeps over a restart, the round that it collects, and its words.
/// It is made for a bay of a station, and each later call takes that station; `step` and `take` take the
/// judge too, which may be another at each call only while no round is being collected.
#[derive(Drop)]
pub struct Node {
    pub(crate) bay: BayId,
    pub(crate) highest: u32,
    pub(crate) lock: Option<Lock>,
    pub(crate) granted: Option<Grant>,
    pub(crate) collecting: Option<Collection>,
    pub(crate) words: Readings,
}

impl Model for Node {
    ghost use Rattle.bay_protocol.specs.State.{State};

    ghost Value = { State };

    ghost view = { λ a. record {
      bay = a.bay.0;
      highest = a.highest;
      lock = a.lock;
      granted = a.granted;
      collecting = a.collecting;
      words = a.words;
    } };
}

// The new record, if it is another.
fn changed(before: Kept, after: Kept) -> Option<Kept>
    ensures { IsKeep before after result }
{
    if before == after {
        return None;
    }
    Some(after)
}

impl Node {
    /// The node of a bay to which nothing has happened: no round is used, there is no lock and no grant, and
    /// all words are lost. Time and memory: the switches of the station.
    pub fn new(alloc: Global, station: &Station, bay: BayId) -> Result<Node, Memory>
        requires { IsBay station.now bay.0 }
        ensures value { IfOk result (λ n. n ≡ resumed station.now bay.0 nothing_kept) }
        ensures node { IfOk result (λ n. IsNode station.now n) }
    {
        let kept = Kept {
            highest: 0,
            lock: None,
            granted: None,
        };
        Node::resume(alloc, station, bay, kept)
    }

    /// The node of a bay with what it kept over a restart. All words are lost. Time and memory: the switches
    /// of the station.
    pub fn resume(alloc: Global, station: &Station, bay: BayId, kept: Kept) -> Result<Node, Memory>
        requires bay { IsBay station.now bay.0 }
        requires fits { KeptFits station.now bay.0 kept }
        ensures value { IfOk result (λ n. n ≡ resumed station.now bay.0 kept) }
        ensures node { IfOk result (λ n. IsNode station.now n) }
    {
        Ok(Node {
            bay,
            highest: kept.highest,
            lock: kept.lock,
            granted: kept.granted,
            collecting: None,
            words: Readings::lost(alloc, station)?,
        })
    }

    /// What the node keeps over a restart, at once.
    pub fn kept(&self) -> Kept
        ensures { result ≡ kept_of self.now }
    {
        Kept {
            highest: self.highest,
            lock: self.lock,
            granted: self.granted,
        }
    }

    /// The round that is being collected, if there is one, at once.
    pub fn collecting(&self) -> Option<u32>
        ensures { result ≡ option_map (λ g. g.round) self.now.collecting }
    {
        match &self.collecting {
            Some(collection) => Some(collection.round),
            None => None,
        }
    }

    /// The word of a switch: of one of the bay the last that was read and is still valid, of any other lost.
    /// At once.
    pub fn word(&self, id: SwitchId) -> Dbpos
        requires { id.0 < length self.now.words }
        ensures { slice_get self.now.words id.0 ≡ Some result }
    {
        self.words.word(id)
    }

    // The round that is under way.
    pub(crate) fn under_way(&self) -> Option<u32>
        ensures { result ≡ under_way self.now }
    {
        match &self.collecting {
            Some(collection) => Some(collection.round),
            None => match self.granted {
                Some(grant) => Some(grant.round),
                None => None,
            },
        }
    }

    // One step, whatever has changed in the record.
    fn act<J: Judge>(
        &mut self,
        alloc: Global,
        station: &Station,
        event: NodeEvent,
        judge: &J,
    ) -> Result<NodeOutput, Memory>
        requires same { (J.meaning judge.now).diagram ≡ station.now }
        requires node { IsNode station.now self.old }
        requires event { EventFits station.now self.old.bay event }
        requires fits { FitsHeard (J.meaning judge.now) self.old }
        ensures step { IfOk result (λ out. Step (J.meaning judge.now) station.now self.old event (turn self.new out)) }
        ensures err { OnErr result (self.new ≡ self.old) }
    {
        match event {
            NodeEvent::Command(op) => self.command(alloc, station, judge, op),
            NodeEvent::Sense { switch, word } => self.sense(alloc, station, switch, word),
            NodeEvent::Frame(frame) => self.receive(alloc, station, judge, &frame),
            NodeEvent::Tick => self.tick(alloc, station, judge),
            NodeEvent::Withdraw => self.withdraw(alloc, station),
            NodeEvent::Restart => Ok(self.restart(alloc, station)),
            NodeEvent::Cut(switch) => self.cut(alloc, station, switch),
        }
    }

    /// One step of the protocol of the bays (docs/PROTOCOL.md). The station is that of the node and of the
    /// judge. What is taken is taken before anything changes, so that after `Memory` the node is unchanged.
    /// Time and memory: what the judge takes for a summary or a verdict, the parts of the station, and at
    /// most one frame for each other bay.
    pub fn step<J: Judge>(
        &mut self,
        alloc: Global,
        station: &Station,
        event: NodeEvent,
        judge: &J,
    ) -> Result<NodeOutput, Memory>
        requires same { (J.meaning judge.now).diagram ≡ station.now }
        requires node { IsNode station.now self.old }
        requires event { EventFits station.now self.old.bay event }
        requires fits { FitsHeard (J.meaning judge.now) self.old }
        ensures step { IfOk result (λ out. Step (J.meaning judge.now) station.now self.old event (turn self.new out)) }
        ensures keep { IfOk result (λ out. IsKeep (kept_of self.old) (kept_of self.new) out.keep) }
        ensures lawful { IfOk result (λ out. All IsLawful out.frames) }
        ensures outcome { IfOk result (λ out. OutcomeFits station.now out.outcome) }
        ensures node { IsNode station.now self.new }
        ensures bay { self.new.bay ≡ self.old.bay }
        ensures fits { FitsHeard (J.meaning judge.now) self.new }
        ensures err { OnErr result (self.new ≡ self.old) }
    {
        // Its clause says that the station is one; it does nothing.
        judge.diagram_is_station();
        let before = self.kept();
        let mut output = self.act(alloc, station, event, judge)?;
        output.keep = changed(before, self.kept());
        Ok(output)
    }

    /// The step with the frame that these bytes are; where they are no frame nothing changes, and nothing is
    /// shown or sent. Time and memory are those of `step`.
    pub fn take<J: Judge>(
        &mut self,
        alloc: Global,
        station: &Station,
        bytes: &[u8],
        judge: &J,
    ) -> Result<NodeOutput, Memory>
        requires same { (J.meaning judge.now).diagram ≡ station.now }
        requires node { IsNode station.now self.old }
        requires fits { FitsHeard (J.meaning judge.now) self.old }
        ensures step { IfOk result (λ out. TakeStep (J.meaning judge.now) station.now self.old bytes.now
            (turn self.new out)) }
        ensures keep { IfOk result (λ out. IsKeep (kept_of self.old) (kept_of self.new) out.keep) }
        ensures lawful { IfOk result (λ out. All IsLawful out.frames) }
        ensures outcome { IfOk result (λ out. OutcomeFits station.now out.outcome) }
        ensures node { IsNode station.now self.new }
        ensures bay { self.new.bay ≡ self.old.bay }
        ensures fits { FitsHeard (J.meaning judge.now) self.new }
        ensures err { OnErr result (self.new ≡ self.old) }
    {
        match Frame::decode(bytes) {
            Ok(frame) => self.step(alloc, station, NodeEvent::Frame(frame), judge),
            Err(_) => Ok(says(alloc, Outcome::Quiet)),
        }
    }
}

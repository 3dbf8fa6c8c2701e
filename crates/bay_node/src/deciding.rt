//! Deciding a command.
ghost use Rattle.std.specs.Prelude.{◌≡◌, ◌≢◌, ◌<◌, length, IfOk, OnErr};
ghost use Rattle.station_graph.specs.Diagram.{part_count};
ghost use Rattle.double_points.specs.Words.{AreWords};
ghost use Rattle.central_rules.specs.Meaning.{HeardFit, CannotExclude};
ghost use Rattle.central_rules.specs.Readings.{Decides};
ghost use Rattle.bay_protocol.specs.State.{collects, opens, fresh};
ghost use Rattle.bay_protocol.specs.Fits.{IsOwn, IsNode, FitsHeard};
ghost use Rattle.bay_protocol.specs.Step.{Deciding, OpenStep, CommandStep, TickStep, end_word};
ghost use Rattle.bay_protocol.specs.Output.{turn};

use crate::node::Node;
use crate::sending::{part_count, says, sends, to_others};
use bay_frames::Body;
use bay_protocol::{Collection, Grant, LAST_ROUND, NodeOutput, Outcome};
use central_rules::{Judge, Verdict};
use double_points::Readings;
use ilk_base::{BayId, Dbpos, Direction, HeardList, Memory, Op};
use station_graph::Station;
use std::alloc::Global;

// The word at which an operation ends.
pub(crate) fn end_word(direction: Direction) -> Dbpos
    ensures { result ≡ end_word direction }
{
    match direction {
        Direction::ToOff => Dbpos::Off,
        Direction::ToOn => Dbpos::On,
    }
}

// The verdict of an operation of the bay, by its words and what it has heard.
fn verdict<J: Judge>(
    alloc: Global,
    judge: &J,
    bay: BayId,
    op: Op,
    words: &Readings,
    heard: &HeardList,
) -> Result<Verdict, Memory>
    requires own { IsOwn (J.meaning judge.now).diagram bay.0 op.switch.0 }
    requires words { AreWords (J.meaning judge.now).diagram words.now }
    requires heard { length heard.now ≡ part_count (J.meaning judge.now).diagram }
    requires fits { HeardFit (J.meaning judge.now) bay.0 heard.now }
    ensures { IfOk result (Decides (J.meaning judge.now).diagram
        (CannotExclude (J.meaning judge.now) bay.0 words.now heard.now) op) }
{
    judge.judge(alloc, op, words, heard)
}

impl Node {
    // Decides the round, which is the highest from here on.
    pub(crate) fn decide<J: Judge>(
        &mut self,
        alloc: Global,
        station: &Station,
        judge: &J,
        collection: &Collection,
    ) -> Result<NodeOutput, Memory>
        requires same { (J.meaning judge.now).diagram ≡ station.now }
        requires own { IsOwn station.now self.old.bay collection.now.op.switch.0 }
        requires words { AreWords station.now self.old.words }
        requires heard { length collection.now.heard ≡ part_count station.now }
        requires fits { HeardFit (J.meaning judge.now) self.old.bay collection.now.heard }
        ensures step { IfOk result (λ out. Deciding (J.meaning judge.now) station.now
            (collects self.old collection.now.round collection.now) collection.now (turn self.new out)) }
        ensures err { OnErr result (self.new ≡ self.old) }
    {
        let (round, op) = (collection.round, collection.op);
        match verdict(alloc, judge, self.bay, op, &self.words, &collection.heard)? {
            Verdict::Release => {
                self.highest = round;
                self.collecting = None;
                self.granted = Some(Grant { round, op });
                self.words.sense(op.switch, Dbpos::Lost);
                Ok(says(alloc, Outcome::Granted { round, op }))
            }
            Verdict::Denied { rule, reading } => {
                let frames = to_others(alloc, station, self.bay, round, &Body::Over)?;
                self.highest = round;
                self.collecting = None;
                Ok(NodeOutput {
                    keep: None,
                    frames,
                    outcome: Outcome::Denied {
                        round,
                        op,
                        rule,
                        reading,
                    },
                })
            }
        }
    }

    // Opens the next round for a command.
    fn open<J: Judge>(
        &mut self,
        alloc: Global,
        station: &Station,
        judge: &J,
        op: Op,
    ) -> Result<NodeOutput, Memory>
        requires same { (J.meaning judge.now).diagram ≡ station.now }
        requires node { IsNode station.now self.old }
        requires own { IsOwn station.now self.old.bay op.switch.0 }
        requires left { self.old.highest < LAST_ROUND }
        ensures step { IfOk result (λ out. OpenStep (J.meaning judge.now) station.now self.old op (turn self.new out)) }
        ensures err { OnErr result (self.new ≡ self.old) }
    {
        let collection = Collection {
            round: self.highest + 1,
            op,
            heard: HeardList::none(alloc, part_count(station))?,
        };
        let round = collection.round;
        let frames = to_others(alloc, station, self.bay, round, &Body::Reserve)?;
        if frames.len() == 0 {
            return self.decide(alloc, station, judge, &collection);
        }
        self.highest = round;
        self.collecting = Some(collection);
        Ok(NodeOutput {
            keep: None,
            frames,
            outcome: Outcome::Collecting { round },
        })
    }

    pub(crate) fn command<J: Judge>(
        &mut self,
        alloc: Global,
        station: &Station,
        judge: &J,
        op: Op,
    ) -> Result<NodeOutput, Memory>
        requires same { (J.meaning judge.now).diagram ≡ station.now }
        requires node { IsNode station.now self.old }
        requires own { IsOwn station.now self.old.bay op.switch.0 }
        ensures step { IfOk result (λ out. CommandStep (J.meaning judge.now) station.now self.old op
            (turn self.new out)) }
        ensures err { OnErr result (self.new ≡ self.old) }
    {
        if let Some(round) = self.under_way() {
            return Ok(says(alloc, Outcome::UnderWay { round }));
        }
        if let Some(lock) = self.lock {
            return Ok(says(
                alloc,
                Outcome::HeldBy {
                    bay: lock.holder,
                    round: lock.round,
                },
            ));
        }
        if self.words.word(op.switch) == end_word(op.direction) {
            return Ok(says(alloc, Outcome::There));
        }
        if self.highest == LAST_ROUND {
            return Ok(says(alloc, Outcome::Spent));
        }
        self.open(alloc, station, judge, op)
    }

    // Decides, and goes on collecting the round after want of memory.
    fn decide_or_keep<J: Judge>(
        &mut self,
        alloc: Global,
        station: &Station,
        judge: &J,
        collection: Collection,
    ) -> Result<NodeOutput, Memory>
        requires same { (J.meaning judge.now).diagram ≡ station.now }
        requires own { IsOwn station.now self.old.bay collection.op.switch.0 }
        requires words { AreWords station.now self.old.words }
        requires heard { length collection.heard ≡ part_count station.now }
        requires fits { HeardFit (J.meaning judge.now) self.old.bay collection.heard }
        ensures step { IfOk result (λ out. Deciding (J.meaning judge.now) station.now
            (collects self.old collection.round collection) collection (turn self.new out)) }
        ensures err { OnErr result (self.new ≡ collects self.old self.old.highest collection) }
    {
        match self.decide(alloc, station, judge, &collection) {
            Ok(output) => Ok(output),
            Err(error) => {
                self.collecting = Some(collection);
                Err(error)
            }
        }
    }

    pub(crate) fn tick<J: Judge>(
        &mut self,
        alloc: Global,
        station: &Station,
        judge: &J,
    ) -> Result<NodeOutput, Memory>
        requires same { (J.meaning judge.now).diagram ≡ station.now }
        requires node { IsNode station.now self.old }
        requires fits { FitsHeard (J.meaning judge.now) self.old }
        ensures step { IfOk result (λ out. TickStep (J.meaning judge.now) station.now self.old (turn self.new out)) }
        ensures err { OnErr result (self.new ≡ self.old) }
    {
        if let Some(collection) = self.collecting.take() {
            return self.decide_or_keep(alloc, station, judge, collection);
        }
        if let Some(held) = self.lock {
            return sends(alloc, self.frame_to(held.holder, held.round, Body::Query));
        }
        Ok(says(alloc, Outcome::Quiet))
    }
}

//! The frames that arrive.
ghost use Rattle.std.specs.Prelude.{◌≡◌, ◌≢◌, ◌<◌, length, IfOk, OnErr};
ghost use Rattle.double_points.specs.Words.{AreWords};
ghost use Rattle.central_rules.specs.Meaning.{IsBay, Summarises};
ghost use Rattle.bay_protocol.specs.State.{IsOther};
ghost use Rattle.bay_protocol.specs.Sends.{frame};
ghost use Rattle.bay_protocol.specs.Fits.{IsNode, FitsHeard};
ghost use Rattle.bay_protocol.specs.Step.{Answering, ReserveStep, AnswerStep, BusyStep, QueryStep, OverStep, FrameStep};
ghost use Rattle.bay_protocol.specs.Output.{turn};

use crate::heard::{are_heard, with_one};
use crate::node::Node;
use crate::sending::{part_count, says, sends, to_others};
use bay_frames::{Body, Frame};
use bay_protocol::{Collection, Lock, NodeOutput, Outcome, is_other};
use central_rules::Judge;
use ilk_base::{BayId, Memory, Summary};
use station_graph::Station;
use std::alloc::Global;

impl Node {
    // A frame from this bay.
    pub(crate) fn frame_to(&self, to: BayId, round: u32, body: Body) -> Frame
        ensures { result ≡ frame self.now.bay to.0 round body }
    {
        Frame {
            from: self.bay,
            to,
            round,
            body,
        }
    }

    // Gives the lock to a round of another bay, and answers it.
    fn answer_to<J: Judge>(
        &mut self,
        alloc: Global,
        judge: &J,
        from: BayId,
        round: u32,
    ) -> Result<NodeOutput, Memory>
        requires bay { IsBay (J.meaning judge.now).diagram self.old.bay }
        requires other { IsOther (J.meaning judge.now).diagram self.old.bay from.0 }
        requires words { AreWords (J.meaning judge.now).diagram self.old.words }
        ensures step { IfOk result (λ out. Answering (J.meaning judge.now) self.old from.0 round (turn self.new out)) }
        ensures err { OnErr result (self.new ≡ self.old) }
    {
        let summary = judge.summarise(alloc, self.bay, from, &self.words)?;
        let output = sends(alloc, self.frame_to(from, round, Body::Answer(summary)))?;
        self.lock = Some(Lock {
            holder: from,
            round,
        });
        Ok(output)
    }

    fn reserve<J: Judge>(
        &mut self,
        alloc: Global,
        judge: &J,
        from: BayId,
        round: u32,
    ) -> Result<NodeOutput, Memory>
        requires bay { IsBay (J.meaning judge.now).diagram self.old.bay }
        requires other { IsOther (J.meaning judge.now).diagram self.old.bay from.0 }
        requires words { AreWords (J.meaning judge.now).diagram self.old.words }
        ensures step { IfOk result (λ out. ReserveStep (J.meaning judge.now) self.old from.0 round
            (turn self.new out)) }
        ensures err { OnErr result (self.new ≡ self.old) }
    {
        if let Some(holder_round) = self.under_way() {
            let body = Body::Busy {
                holder: self.bay,
                holder_round,
            };
            return sends(alloc, self.frame_to(from, round, body));
        }
        if let Some(lock) = self.lock {
            if lock.holder.0 != from.0 {
                let body = Body::Busy {
                    holder: lock.holder,
                    holder_round: lock.round,
                };
                return sends(alloc, self.frame_to(from, round, body));
            }
            if round < lock.round {
                return Ok(says(alloc, Outcome::Quiet));
            }
        }
        self.answer_to(alloc, judge, from, round)
    }

    fn answer<J: Judge>(
        &mut self,
        alloc: Global,
        station: &Station,
        judge: &J,
        from: BayId,
        round: u32,
        summary: &Summary,
    ) -> Result<NodeOutput, Memory>
        requires same { (J.meaning judge.now).diagram ≡ station.now }
        requires node { IsNode station.now self.old }
        requires other { IsOther station.now self.old.bay from.0 }
        requires fits { FitsHeard (J.meaning judge.now) self.old }
        ensures step { IfOk result (λ out. AnswerStep (J.meaning judge.now) station.now self.old from.0 round
            summary.now (turn self.new out)) }
        ensures err { OnErr result (self.new ≡ self.old) }
    {
        let Some(collection) = &self.collecting else {
            return Ok(says(alloc, Outcome::Quiet));
        };
        if collection.round != round {
            return Ok(says(alloc, Outcome::Quiet));
        }
        if !judge.fits(from, self.bay, summary) {
            return Ok(says(alloc, Outcome::Quiet));
        }
        let next = Collection {
            round: collection.round,
            op: collection.op,
            heard: with_one(alloc, &collection.heard, part_count(station), from, summary)?,
        };
        if are_heard(station, self.bay, &next.heard) {
            return self.decide(alloc, station, judge, &next);
        }
        self.collecting = Some(next);
        Ok(says(alloc, Outcome::Quiet))
    }

    fn busy(
        &mut self,
        alloc: Global,
        station: &Station,
        from: BayId,
        round: u32,
        holder: BayId,
        holder_round: u32,
    ) -> Result<NodeOutput, Memory>
        ensures step { IfOk result (λ out. BusyStep station.now self.old from.0 round holder holder_round
            (turn self.new out)) }
        ensures err { OnErr result (self.new ≡ self.old) }
    {
        let Some(collection) = &self.collecting else {
            return Ok(says(alloc, Outcome::Quiet));
        };
        if round != collection.round {
            return Ok(says(alloc, Outcome::Quiet));
        }
        let frames = to_others(alloc, station, self.bay, round, &Body::Over)?;
        self.collecting = None;
        Ok(NodeOutput {
            keep: None,
            frames,
            outcome: Outcome::BusyBy {
                round,
                bay: from,
                holder,
                holder_round,
            },
        })
    }

    fn query(&self, alloc: Global, from: BayId, round: u32) -> Result<NodeOutput, Memory>
        ensures { IfOk result (λ out. QueryStep self.now from.0 round (turn self.now out)) }
    {
        if round > self.highest {
            return Ok(says(alloc, Outcome::Quiet));
        }
        if self.under_way() == Some(round) {
            return Ok(says(alloc, Outcome::Quiet));
        }
        sends(alloc, self.frame_to(from, round, Body::Over))
    }

    fn over(&mut self, alloc: Global, from: BayId, round: u32) -> NodeOutput
        ensures { OverStep self.old from.0 round (turn self.new result) }
    {
        let Some(lock) = self.lock else {
            return says(alloc, Outcome::Quiet);
        };
        if from.0 != lock.holder.0 {
            return says(alloc, Outcome::Quiet);
        }
        if lock.round > round {
            return says(alloc, Outcome::Quiet);
        }
        self.lock = None;
        says(alloc, Outcome::Quiet)
    }

    // A frame arrives.
    pub(crate) fn receive<J: Judge>(
        &mut self,
        alloc: Global,
        station: &Station,
        judge: &J,
        frame: &Frame,
    ) -> Result<NodeOutput, Memory>
        requires same { (J.meaning judge.now).diagram ≡ station.now }
        requires node { IsNode station.now self.old }
        requires fits { FitsHeard (J.meaning judge.now) self.old }
        ensures step { IfOk result (λ out. FrameStep (J.meaning judge.now) station.now self.old frame.now
            (turn self.new out)) }
        ensures err { OnErr result (self.new ≡ self.old) }
    {
        if frame.to.0 != self.bay.0 {
            return Ok(says(alloc, Outcome::Quiet));
        }
        if !is_other(station, self.bay, frame.from) {
            return Ok(says(alloc, Outcome::Quiet));
        }
        let (from, round) = (frame.from, frame.round);
        match &frame.body {
            Body::Reserve => self.reserve(alloc, judge, from, round),
            Body::Answer(summary) => self.answer(alloc, station, judge, from, round, summary),
            Body::Busy {
                holder,
                holder_round,
            } => self.busy(alloc, station, from, round, *holder, *holder_round),
            Body::Query => self.query(alloc, from, round),
            Body::Over => Ok(self.over(alloc, from, round)),
        }
    }
}

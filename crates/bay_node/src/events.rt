//! What is read, withdrawn, stopped or restarted.
ghost use Rattle.std.specs.Prelude.{◌≡◌, ◌<◌, [], length, IfOk, OnErr, replicate};
ghost use Rattle.double_points.specs.Words.{AreWords};
ghost use Rattle.bay_protocol.specs.State.{restarts, ends, senses};
ghost use Rattle.bay_protocol.specs.Sends.{overs};
ghost use Rattle.bay_protocol.specs.Fits.{IsNode};
ghost use Rattle.bay_protocol.specs.Step.{SenseStep, WithdrawStep, CutStep, StepEnds};
ghost use Rattle.bay_protocol.specs.Output.{turn};

use crate::deciding::end_word;
use crate::node::Node;
use crate::sending::{part_count, says, to_others};
use bay_frames::Body;
use bay_protocol::{Grant, NodeOutput, Outcome};
use double_points::Readings;
use ilk_base::{BayId, Dbpos, Memory, SwitchId};
use station_graph::Station;
use std::alloc::Global;

// Makes all words lost.
fn forget_all(words: &mut Readings, station: &Station)
    requires { AreWords station.now words.old }
    ensures { words.new ≡ replicate (length words.old) Dbpos.Lost }
{
    for part in 0..part_count(station) {
        words.forget(station, BayId(part));
    }
}

impl Node {
    // Ends the granted operation: its switch has this word from now on, and the others are told.
    fn end(
        &mut self,
        alloc: Global,
        station: &Station,
        grant: Grant,
        word: Dbpos,
        outcome: Outcome,
    ) -> Result<NodeOutput, Memory>
        requires { grant.op.switch.0 < length self.old.words }
        ensures step { IfOk result (λ out. StepEnds (turn self.new out) (ends (senses self.old grant.op.switch.0 word))
            outcome (overs station.now self.old grant.round)) }
        ensures err { OnErr result (self.new ≡ self.old) }
    {
        let frames = to_others(alloc, station, self.bay, grant.round, &Body::Over)?;
        self.granted = None;
        self.words.sense(grant.op.switch, word);
        Ok(NodeOutput {
            keep: None,
            frames,
            outcome,
        })
    }

    pub(crate) fn sense(
        &mut self,
        alloc: Global,
        station: &Station,
        switch: SwitchId,
        word: Dbpos,
    ) -> Result<NodeOutput, Memory>
        requires { switch.0 < length self.old.words }
        ensures step { IfOk result (λ out. SenseStep station.now self.old switch.0 word (turn self.new out)) }
        ensures err { OnErr result (self.new ≡ self.old) }
    {
        if let Some(grant) = self.granted {
            if grant.op.switch.0 == switch.0 && word == end_word(grant.op.direction) {
                let round = grant.round;
                return self.end(alloc, station, grant, word, Outcome::Finished { round });
            }
        }
        self.words.sense(switch, word);
        Ok(says(alloc, Outcome::Quiet))
    }

    pub(crate) fn withdraw(
        &mut self,
        alloc: Global,
        station: &Station,
    ) -> Result<NodeOutput, Memory>
        requires { IsNode station.now self.old }
        ensures step { IfOk result (λ out. WithdrawStep station.now self.old (turn self.new out)) }
        ensures err { OnErr result (self.new ≡ self.old) }
    {
        if let Some(collection) = &self.collecting {
            let round = collection.round;
            let frames = to_others(alloc, station, self.bay, round, &Body::Over)?;
            self.collecting = None;
            return Ok(NodeOutput {
                keep: None,
                frames,
                outcome: Outcome::Withdrawn { round },
            });
        }
        if let Some(grant) = self.granted {
            let outcome = Outcome::Withdrawn { round: grant.round };
            return self.end(alloc, station, grant, Dbpos::Lost, outcome);
        }
        Ok(says(alloc, Outcome::Quiet))
    }

    pub(crate) fn cut(
        &mut self,
        alloc: Global,
        station: &Station,
        switch: SwitchId,
    ) -> Result<NodeOutput, Memory>
        requires { switch.0 < length self.old.words }
        ensures step { IfOk result (λ out. CutStep station.now self.old switch.0 (turn self.new out)) }
        ensures err { OnErr result (self.new ≡ self.old) }
    {
        if let Some(grant) = self.granted {
            if grant.op.switch.0 == switch.0 {
                let round = grant.round;
                return self.end(
                    alloc,
                    station,
                    grant,
                    Dbpos::Lost,
                    Outcome::Stopped { round },
                );
            }
        }
        Ok(says(alloc, Outcome::Quiet))
    }

    // Forgets what is not kept.
    pub(crate) fn restart(&mut self, alloc: Global, station: &Station) -> NodeOutput
        requires { AreWords station.now self.old.words }
        ensures { StepEnds (turn self.new result) (restarts self.old) Outcome.Quiet [] }
    {
        self.collecting = None;
        forget_all(&mut self.words, station);
        says(alloc, Outcome::Quiet)
    }
}

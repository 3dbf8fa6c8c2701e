//! A message reaches its bay, whole or cut short.
ghost use Rattle.std.specs.Prelude.{◌≡◌, ◌≤◌, length, IfOk, OnErr};
ghost use Rattle.reservation_core.specs.RoundFacts.{RoundFacts};
ghost use Rattle.reservation_core.specs.Happens.{DeliverHappens, PartHappens};
ghost use Rattle.reservation_core.specs.declared.values.TheConstants.{MESSAGES};

use crate::scene::Scene;
use crate::values::{Which, WorldOutcome};
use bay_frames::{no_front_is_a_row, one_frame_for_a_row};
use central_rules::Judge;
use ilk_base::Memory;
use station_graph::Station;
use std::alloc::Global;

impl Scene {
    // A message reaches its bay.
    pub(crate) fn deliver<J: Judge>(
        &mut self,
        alloc: Global,
        station: &Station,
        judge: &J,
        message: u32,
    ) -> Result<WorldOutcome, Memory>
        requires same { (J.meaning judge.now).diagram ≡ station.now }
        requires facts { RoundFacts (J.meaning judge.now) self.old }
        requires room { length self.old.sent ≤ MESSAGES }
        ensures step { IfOk result (λ out. DeliverHappens (J.meaning judge.now) self.old message self.new out) }
        ensures err { OnErr result (self.new ≡ self.old) }
    {
        // Its clause says that the bytes are those of this frame alone; it does nothing.
        one_frame_for_a_row();
        let Some(frame) = self.message(message) else {
            return Ok(WorldOutcome::Premise(Which::Unsent));
        };
        let mut bytes = [0; 64];
        let len = frame.encode(&mut bytes);
        self.hand(alloc, station, judge, frame.to, &bytes[..len])
    }

    // The first bytes of a message reach its bay; where there are no more, all but the last.
    pub(crate) fn part<J: Judge>(
        &mut self,
        alloc: Global,
        station: &Station,
        judge: &J,
        message: u32,
        count: u8,
    ) -> Result<WorldOutcome, Memory>
        requires same { (J.meaning judge.now).diagram ≡ station.now }
        requires facts { RoundFacts (J.meaning judge.now) self.old }
        requires room { length self.old.sent ≤ MESSAGES }
        ensures step { IfOk result (λ out. PartHappens station.now self.old message self.new out) }
        ensures err { OnErr result (self.new ≡ self.old) }
    {
        // Its clause says that a front is never taken for a frame; it does nothing.
        no_front_is_a_row();
        let Some(frame) = self.message(message) else {
            return Ok(WorldOutcome::Premise(Which::Unsent));
        };
        let mut bytes = [0; 64];
        let len = frame.encode(&mut bytes);
        let arrive = usize::from(count).min(len - 1);
        self.hand(alloc, station, judge, frame.to, &bytes[..arrive])
    }
}

//! Whatever may happen, to the scene of a world.
ghost use Rattle.std.specs.Prelude.{◌≡◌, ◌≤◌, length, IfOk, OnErr};
ghost use Rattle.reservation_core.specs.RoundFacts.{RoundFacts};
ghost use Rattle.reservation_core.specs.Happens.{Happens, InRange};
ghost use Rattle.reservation_core.specs.declared.values.TheConstants.{MESSAGES};

use crate::scene::{Scene, bay_of};
use crate::values::{WorldEvent, WorldOutcome};
use bay_protocol::NodeEvent;
use central_rules::Judge;
use ilk_base::Memory;
use station_graph::Station;
use std::alloc::Global;

impl Scene {
    // What happens next.
    pub(crate) fn happen<J: Judge>(
        &mut self,
        alloc: Global,
        station: &Station,
        event: WorldEvent,
        judge: &J,
    ) -> Result<WorldOutcome, Memory>
        requires same { (J.meaning judge.now).diagram ≡ station.now }
        requires facts { RoundFacts (J.meaning judge.now) self.old }
        requires range { InRange station.now event }
        requires room { length self.old.sent ≤ MESSAGES }
        ensures step { IfOk result (λ out. Happens (J.meaning judge.now) self.old event self.new out) }
        ensures err { OnErr result (self.new ≡ self.old) }
    {
        // Its clause says that the station is one; it does nothing.
        judge.diagram_is_station();
        match event {
            WorldEvent::Command(op) => {
                let bay = bay_of(station, op.switch);
                self.turn(alloc, station, judge, bay, NodeEvent::Command(op))
            }
            WorldEvent::Sense { switch, word } => self.sense(alloc, station, judge, switch, word),
            WorldEvent::Deliver { message } => self.deliver(alloc, station, judge, message),
            WorldEvent::Tick(bay) => self.turn(alloc, station, judge, bay, NodeEvent::Tick),
            WorldEvent::Withdraw(bay) => self.withdraw(alloc, station, judge, bay),
            WorldEvent::Restart(bay) => self.turn(alloc, station, judge, bay, NodeEvent::Restart),
            WorldEvent::Begin(switch) => Ok(self.begin(station, switch)),
            WorldEvent::End(switch) => Ok(self.end(station, switch)),
            WorldEvent::Part { message, bytes } => {
                self.part(alloc, station, judge, message, bytes)
            }
            WorldEvent::Cut(switch) => self.cut(alloc, station, judge, switch),
        }
    }
}

//! The drives of a world: how they begin, end, and stop; and the words that are read.
ghost use Rattle.std.specs.Prelude.{◌≡◌, ◌<◌, ◌≤◌, ◌↔◌, length, true, false, Some, IfOk, OnErr, IsTrue};
ghost use Rattle.central_rules.specs.Meaning.{IsBay, bay_of as bay_at};
ghost use Rattle.reservation_core.specs.Scene.{node, runs, IsTrueWord, end_position as end_place};
ghost use Rattle.bay_protocol.specs.declared.values.Grant.{Grant as Granted};
ghost use Rattle.reservation_core.specs.RoundFacts.{RoundFacts};
ghost use Rattle.reservation_core.specs.Happens.{SenseHappens, WithdrawHappens, BeginHappens, EndHappens, CutHappens};
ghost use Rattle.reservation_core.specs.Happens.{IsOpened, IsMoving};
ghost use Rattle.reservation_core.specs.declared.values.TheConstants.{MESSAGES};

use crate::scene::{Scene, bay_of};
use crate::values::{Position, Which, WorldOutcome};
use bay_protocol::NodeEvent;
use central_rules::Judge;
use ilk_base::{BayId, Dbpos, Direction, Memory, SwitchId};
use station_graph::Station;
use std::alloc::Global;

// Where a drive in this direction ends.
fn end_position(direction: Direction) -> Position
    ensures { result ≡ end_place direction }
{
    match direction {
        Direction::ToOff => Position::Open,
        Direction::ToOn => Position::Closed,
    }
}

// Whether a word that is off or on is the true position.
fn is_true(word: Dbpos, at: Position) -> bool
    ensures yes { result ≡ true → IsTrueWord word at }
    ensures no { result ≡ false → ¬ IsTrueWord word at }
{
    match word {
        Dbpos::On => at == Position::Closed,
        Dbpos::Off => at == Position::Open,
        Dbpos::Intermediate | Dbpos::Bad | Dbpos::Lost => true,
    }
}

fn is_same(a: Position, b: Position) -> bool
    ensures yes { result ≡ true → a ≡ b }
    ensures no { result ≡ false → ¬ (a ≡ b) }
{
    a == b
}

impl Scene {
    // A word is read.
    pub(crate) fn sense<J: Judge>(
        &mut self,
        alloc: Global,
        station: &Station,
        judge: &J,
        switch: SwitchId,
        word: Dbpos,
    ) -> Result<WorldOutcome, Memory>
        requires same { (J.meaning judge.now).diagram ≡ station.now }
        requires facts { RoundFacts (J.meaning judge.now) self.old }
        requires switch { switch.0 < length station.now.switches }
        requires room { length self.old.sent ≤ MESSAGES }
        ensures step { IfOk result (λ out. SenseHappens (J.meaning judge.now) self.old switch word self.new out) }
        ensures err { OnErr result (self.new ≡ self.old) }
    {
        if !is_true(word, self.position(switch)) {
            return Ok(WorldOutcome::Premise(Which::Sensed));
        }
        let event = NodeEvent::Sense { switch, word };
        self.turn(alloc, station, judge, bay_of(station, switch), event)
    }

    // Whether the drive of the granted operation of a bay runs.
    fn is_moving(&self, station: &Station, bay: BayId) -> bool
        requires there { bay.0 < length self.now.nodes }
        requires known { (g : Granted) → (node station.now self.now bay.0).granted ≡ Some g →
            g.op.switch.0 < length self.now.drives }
        ensures { IsTrue result ↔ IsMoving station.now self.now bay.0 }
    {
        match self.granted_of(station, bay) {
            Some(grant) => self.runs(grant.op.switch),
            None => false,
        }
    }

    // The operator of a bay takes its command back.
    pub(crate) fn withdraw<J: Judge>(
        &mut self,
        alloc: Global,
        station: &Station,
        judge: &J,
        bay: BayId,
    ) -> Result<WorldOutcome, Memory>
        requires same { (J.meaning judge.now).diagram ≡ station.now }
        requires facts { RoundFacts (J.meaning judge.now) self.old }
        requires bay { IsBay station.now bay.0 }
        requires room { length self.old.sent ≤ MESSAGES }
        ensures step { IfOk result (λ out. WithdrawHappens (J.meaning judge.now) self.old bay.0 self.new out) }
        ensures err { OnErr result (self.new ≡ self.old) }
    {
        if self.is_moving(station, bay) {
            return Ok(WorldOutcome::Premise(Which::Withdrawn));
        }
        self.turn(alloc, station, judge, bay, NodeEvent::Withdraw)
    }

    // A drive begins.
    pub(crate) fn begin(&mut self, station: &Station, switch: SwitchId) -> WorldOutcome
        requires known { switch.0 < length station.now.switches }
        requires there { bay_at station.now switch.0 < length self.old.nodes }
        requires truth { length self.old.truth ≡ length station.now.switches }
        requires drives { length self.old.drives ≡ length station.now.switches }
        ensures { BeginHappens station.now self.old switch.0 self.new result }
    {
        let Some(op) = self.open_operation(station, switch) else {
            return WorldOutcome::Premise(Which::Begun);
        };
        if self.runs(switch) {
            return WorldOutcome::Premise(Which::Begun);
        }
        if is_same(self.position(switch), end_position(op.direction)) {
            return WorldOutcome::Premise(Which::Begun);
        }
        self.put(switch, Position::Between, true);
        WorldOutcome::Drive
    }

    // A drive reaches its end.
    pub(crate) fn end(&mut self, station: &Station, switch: SwitchId) -> WorldOutcome
        requires known { switch.0 < length station.now.switches }
        requires there { bay_at station.now switch.0 < length self.old.nodes }
        requires truth { length self.old.truth ≡ length station.now.switches }
        requires drives { length self.old.drives ≡ length station.now.switches }
        requires opened { runs self.old.drives switch.0 ≡ true →
            IsOpened (node station.now self.old (bay_at station.now switch.0)) switch.0 }
        ensures { EndHappens station.now self.old switch.0 self.new result }
    {
        if !self.runs(switch) {
            return WorldOutcome::Premise(Which::Ended);
        }
        match self.open_operation(station, switch) {
            Some(op) => {
                self.put(switch, end_position(op.direction), false);
                WorldOutcome::Drive
            }
            None => unreachable!(),
        }
    }

    // A running drive is without power, and its bay is told.
    pub(crate) fn cut<J: Judge>(
        &mut self,
        alloc: Global,
        station: &Station,
        judge: &J,
        switch: SwitchId,
    ) -> Result<WorldOutcome, Memory>
        requires same { (J.meaning judge.now).diagram ≡ station.now }
        requires facts { RoundFacts (J.meaning judge.now) self.old }
        requires switch { switch.0 < length station.now.switches }
        requires room { length self.old.sent ≤ MESSAGES }
        ensures step { IfOk result (λ out. CutHappens (J.meaning judge.now) self.old switch self.new out) }
        ensures err { OnErr result (self.new ≡ self.old) }
    {
        if !self.runs(switch) {
            return Ok(WorldOutcome::Premise(Which::Cut));
        }
        let bay = bay_of(station, switch);
        let outcome = self.turn(alloc, station, judge, bay, NodeEvent::Cut(switch))?;
        self.stop(switch);
        Ok(outcome)
    }
}

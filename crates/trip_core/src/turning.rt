//! An event of a world without trips happens in one with them, and the notes are taken.
ghost use Rattle.std.specs.Prelude.{◌≡◌, ◌≢◌, ◌<◌, ◌≤◌, ◌+◌, ℕ, [], length, true, false, Some, None, IfOk, OnErr};
ghost use Rattle.std.specs.Prelude.{is_some, slice_index_or};
ghost use Rattle.central_rules.specs.Meaning.{bay_of as bay_at};
ghost use Rattle.reservation_core.specs.Scene.{node};
ghost use Rattle.reservation_core.specs.Concern.{concern};
ghost use Rattle.reservation_core.specs.Happens.{InRange};
ghost use Rattle.reservation_core.specs.World.{WorldRounds};
ghost use Rattle.reservation_core.specs.declared.values.TheConstants.{MESSAGES};
ghost use Rattle.reservation_core.specs.declared.values.Which.{Which as Broken};
ghost use Rattle.trip_core.specs.declared.values.TheConstants.{EVENTS};
ghost use Rattle.trip_core.specs.Trips.{lost, own_note};
ghost use Rattle.trip_core.specs.Learning.{learned_note, number_of, concern_of};
ghost use Rattle.trip_core.specs.Happens.{sensed_after, StepHappens};
ghost use Rattle.trip_core.specs.Facts.{IsClocked};

use crate::notes::NoteList;
use crate::tasks::{learning, task};
use crate::values::{Learning, Note, Task};
use crate::world::TripWorld;
use bay_protocol::NodeEvent;
use central_rules::Judge;
use ilk_base::{Memory, SwitchId};
use reservation_core::{WorldEvent, WorldOutcome};
use station_graph::Station;
use std::alloc::Global;

// As many messages as one step may send: fewer than there may be bays.
const MOST: usize = 64;

// Whether a premise is broken.
fn is_premise(outcome: &WorldOutcome) -> bool
    ensures broken { result ≡ true → (which : Broken) × (outcome.now ≡ WorldOutcome.Premise which) }
    ensures none { result ≡ false → (which : Broken) → outcome.now ≢ WorldOutcome.Premise which }
{
    matches!(outcome, WorldOutcome::Premise(_))
}

// These notes, and empty lists after them, as many as one step may send messages.
fn spare(alloc: Global, own: NoteList) -> Result<Vec<NoteList>, Memory>
    ensures len { IfOk result (λ v. length v.items ≡ 64) }
    ensures first { IfOk result (λ v. slice_index_or v.items 0 [] ≡ own) }
{
    let mut lists = Vec::new(alloc);
    lists.push(own)?;
    for _ in 1..MOST {
        lists.push(NoteList::new(alloc))?;
    }
    Ok(lists)
}

impl TripWorld {
    // The notes on all switches in their bays' nodes.
    fn own_notes(&self, alloc: Global, station: &Station) -> Result<NoteList, Memory>
        requires there { (i : ℕ) → i < length station.now.switches
            → bay_at station.now i < length self.now.world.scene.nodes }
        requires words { (i : ℕ) → i < length station.now.switches → length (node station.now self.now.world.scene
            (bay_at station.now i)).words ≡ length station.now.switches }
        requires sensed { length self.now.sensed ≡ length station.now.switches }
        ensures { IfOk result (λ l. (i : ℕ) → i < length station.now.switches → slice_index_or l i lost
            ≡ own_note station.now self.now i) }
    {
        let mut notes = NoteList::new(alloc);
        for i in 0..station.switch_count() {
            notes.push(Note {
                word: self.world.word(station, SwitchId(i)),
                at: self.sensed[usize::from(i)],
            })?;
        }
        Ok(notes)
    }

    // The notes beside the message at a place.
    fn said(&self, alloc: Global, place: usize) -> Result<NoteList, Memory>
        ensures { IfOk result (λ l. l ≡ slice_index_or self.now.beside place []) }
    {
        match self.beside.get(place) {
            Some(list) => list.copied(alloc),
            None => Ok(NoteList::new(alloc)),
        }
    }

    // An event that concerns no node.
    fn pass<J: Judge>(
        &mut self,
        alloc: Global,
        station: &Station,
        event: WorldEvent,
        judge: &J,
    ) -> Result<WorldOutcome, Memory>
        requires same { (J.meaning judge.now).diagram ≡ station.now }
        requires facts { WorldRounds (J.meaning judge.now) self.old.world }
        requires range { InRange station.now event }
        requires room { length self.old.world.scene.sent ≤ MESSAGES }
        requires count { self.old.events ≤ EVENTS }
        requires none { concern station.now self.old.world.scene event ≡ None }
        ensures step { IfOk result (λ out. StepHappens (J.meaning judge.now) self.old event self.new out) }
        ensures err { OnErr result (self.new ≡ self.old) }
    {
        let outcome = self.world.act(alloc, station, event, judge)?;
        if is_premise(&outcome) {
            return Ok(outcome);
        }
        self.events += 1;
        Ok(outcome)
    }

    // The notes of a step that was taken.
    fn note(
        &mut self,
        station: &Station,
        own: &NoteList,
        said: &NoteList,
        learning: Learning,
        task: Task,
    )
        requires there { task.bay.0 < length self.old.world.scene.nodes }
        requires known { task.bay.0 < length self.old.known }
        requires each { length (slice_index_or self.old.known task.bay.0 []) ≡ length station.now.switches }
        requires count { self.old.events ≤ EVENTS }
        ensures world { self.new.world ≡ self.old.world }
        ensures tripped { self.new.tripped ≡ self.old.tripped }
        ensures beside { self.new.beside ≡ self.old.beside }
        ensures events { self.new.events ≡ self.old.events + 1 }
        ensures sensed { self.new.sensed ≡ sensed_after task.event self.old.sensed (self.old.events + 1) }
        ensures each_known { length self.new.known ≡ length self.old.known }
        ensures others { (c : ℕ) → c ≢ task.bay.0 → slice_index_or self.new.known c []
            ≡ slice_index_or self.old.known c [] }
        ensures each_note { length (slice_index_or self.new.known task.bay.0 []) ≡ length station.now.switches }
        ensures learned { (i : ℕ) → i < length station.now.switches → slice_index_or
            (slice_index_or self.new.known task.bay.0 []) i lost ≡ learned_note
            (number_of learning.from) learning.collected learning.granted (is_some
            (node station.now self.old.world.scene task.bay.0).collecting) (bay_at station.now i) task.bay.0
            (slice_index_or own.now i lost) (slice_index_or said.now i lost) (slice_index_or
            (slice_index_or self.old.known task.bay.0 []) i lost) }
    {
        self.events += 1;
        if let NodeEvent::Sense { switch, .. } = task.event {
            if usize::from(switch.0) < self.sensed.len() {
                self.sensed[usize::from(switch.0)] = self.events;
            }
        }
        let collects = self.world.collecting(station, task.bay).is_some();
        self.known[usize::from(task.bay.0)].learn(station, task.bay, own, said, learning, collects);
    }

    // An event that concerns a node, of which these notes are taken. Memory is taken first.
    fn turn_noted<J: Judge>(
        &mut self,
        alloc: Global,
        station: &Station,
        event: WorldEvent,
        judge: &J,
        task: &Task,
        own: &NoteList,
        said: &NoteList,
        spare: &mut Vec<NoteList>,
    ) -> Result<WorldOutcome, Memory>
        requires same { (J.meaning judge.now).diagram ≡ station.now }
        requires facts { WorldRounds (J.meaning judge.now) self.old.world }
        requires clocked { IsClocked station.now self.old }
        requires range { InRange station.now event }
        requires room { length self.old.world.scene.sent ≤ MESSAGES }
        requires count { self.old.events ≤ EVENTS }
        requires task { concern station.now self.old.world.scene event ≡ Some (concern_of task.now) }
        requires own { (i : ℕ) → i < length station.now.switches → slice_index_or own.now i lost
            ≡ own_note station.now self.old i }
        requires said { said.now ≡ slice_index_or self.old.beside task.now.message [] }
        requires enough { length spare.old.items ≡ 64 }
        requires first { slice_index_or spare.old.items 0 [] ≡ own.now }
        ensures step { IfOk result (λ out. StepHappens (J.meaning judge.now) self.old event self.new out) }
        ensures err { OnErr result (self.new ≡ self.old) }
    {
        // Its clause says that the station is one; it does nothing.
        judge.diagram_is_station();
        let learning = learning(station, &self.world, judge, *task);
        self.beside.reserve(MOST)?;
        let before = self.beside.len();
        let outcome = self.world.act(alloc, station, event, judge)?;
        if is_premise(&outcome) {
            return Ok(outcome);
        }
        spare.truncate(self.world.sent() as usize - before);
        match self.beside.append(spare) {
            Ok(()) => {}
            Err(_) => unreachable!(),
        }
        self.note(station, own, said, learning, *task);
        Ok(outcome)
    }

    // An event that concerns a node.
    fn turn<J: Judge>(
        &mut self,
        alloc: Global,
        station: &Station,
        event: WorldEvent,
        judge: &J,
        task: Task,
    ) -> Result<WorldOutcome, Memory>
        requires same { (J.meaning judge.now).diagram ≡ station.now }
        requires facts { WorldRounds (J.meaning judge.now) self.old.world }
        requires clocked { IsClocked station.now self.old }
        requires range { InRange station.now event }
        requires room { length self.old.world.scene.sent ≤ MESSAGES }
        requires count { self.old.events ≤ EVENTS }
        requires task { concern station.now self.old.world.scene event ≡ Some (concern_of task) }
        ensures step { IfOk result (λ out. StepHappens (J.meaning judge.now) self.old event self.new out) }
        ensures err { OnErr result (self.new ≡ self.old) }
    {
        // Its clause says that the station is one; it does nothing.
        judge.diagram_is_station();
        let own = self.own_notes(alloc, station)?;
        let said = self.said(alloc, task.message)?;
        let mut spare = spare(alloc, own.copied(alloc)?)?;
        self.turn_noted(alloc, station, event, judge, &task, &own, &said, &mut spare)
    }

    // What happens next, but for trips.
    pub(crate) fn happen<J: Judge>(
        &mut self,
        alloc: Global,
        station: &Station,
        event: WorldEvent,
        judge: &J,
    ) -> Result<WorldOutcome, Memory>
        requires same { (J.meaning judge.now).diagram ≡ station.now }
        requires facts { WorldRounds (J.meaning judge.now) self.old.world }
        requires clocked { IsClocked station.now self.old }
        requires range { InRange station.now event }
        requires room { length self.old.world.scene.sent ≤ MESSAGES }
        requires count { self.old.events ≤ EVENTS }
        ensures step { IfOk result (λ out. StepHappens (J.meaning judge.now) self.old event self.new out) }
        ensures err { OnErr result (self.new ≡ self.old) }
    {
        match task(station, &self.world, event) {
            Some(task) => self.turn(alloc, station, event, judge, task),
            None => self.pass(alloc, station, event, judge),
        }
    }
}

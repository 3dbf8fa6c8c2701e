//! The world with trips.
ghost use Rattle.std.specs.Prelude.{◌≡◌, ◌<◌, ◌≤◌, ◌+◌, ◌↔◌, ℕ, [], length, replicate, slice_index_or, IfOk, OnErr};
ghost use Rattle.station_graph.specs.Diagram.{part_count};
ghost use Rattle.station_graph.specs.Alike.{IsVector};
ghost use Rattle.station_graph.specs.declared.limits.TheConstants.{BAYS};
ghost use Rattle.reservation_core.specs.declared.values.TheConstants.{MESSAGES};
ghost use Rattle.reservation_core.specs.declared.values.Which.{Which as Broken};
ghost use Rattle.reservation_core.specs.declared.values.WorldOutcome.TheVariants.{Premise};
ghost use Rattle.reservation_core.specs.Facts.{IsSoundTruth};
ghost use Rattle.reservation_core.specs.World.{OutputFits};
ghost use Rattle.trip_core.specs.declared.values.TheConstants.{EVENTS};
ghost use Rattle.trip_core.specs.Trips.{lost};
ghost use Rattle.trip_core.specs.Happens.{IsTripped, TripHappens, TripInRange, BreaksTripPremise};
ghost use Rattle.trip_core.specs.Facts.{TripFacts, ObeysGap, ObeysLoad};
ghost use Rattle.trip_core.specs.Start.{IsTripStart};

use crate::notes::NoteList;
use crate::values::TripEvent;
use central_rules::Judge;
use ilk_base::{Memory, SwitchId};
use reservation_core::{World, WorldOutcome};
use station_graph::{Station, Vector};
use std::alloc::Global;
use std::marker::Model;

/// All bays of a station whose breakers may trip, the messages between them, and the drives of its switches. It
/// is seen as a world, with the numbers of the events at which words were read and breakers tripped, beside each
/// Answer and of each bay in its round under way. Each call takes the station and the judge of the call before.
#[derive(Drop)]
pub struct TripWorld {
    pub(crate) world: World,
    pub(crate) sensed: Vec<u32>,
    pub(crate) tripped: Vec<u32>,
    pub(crate) beside: Vec<NoteList>,
    pub(crate) known: Vec<NoteList>,
    pub(crate) events: u32,
}

impl Model for TripWorld {
    ghost use Rattle.trip_core.specs.Trips.{TripScene};

    ghost Value = { TripScene };

    ghost view = { λ a. record {
      world = a.world;
      sensed = a.sensed.items;
      tripped = a.tripped.items;
      beside = a.beside.items;
      known = a.known.items;
      events = a.events;
    } };
}

// A list of so many notes where nothing is known, for each of so many parts.
fn nothing_known(alloc: Global, parts: u16, count: u16) -> Result<Vec<NoteList>, Memory>
    ensures len { IfOk result (λ v. length v.items ≡ parts) }
    ensures each { IfOk result (λ v. (b : ℕ) → b < parts → slice_index_or v.items b [] ≡ replicate count lost) }
{
    let mut lists = Vec::new(alloc);
    for _ in 0..parts {
        lists.push(NoteList::lost(alloc, usize::from(count))?)?;
    }
    Ok(lists)
}

impl TripWorld {
    /// The world before anything happens: each bay is new, nothing was sent, each switch stands as the vector
    /// says, and nothing has tripped. Time and memory: for each part the switches of the station.
    pub fn new(alloc: Global, station: &Station, start: &Vector) -> Result<TripWorld, Memory>
        requires { IsVector station.now start.now }
        ensures { IfOk result (IsTripStart station.now start.now) }
    {
        let count = station.switch_count();
        Ok(TripWorld {
            world: World::new(alloc, station, start)?,
            sensed: vec![in alloc; 0; usize::from(count)]?,
            tripped: vec![in alloc; 0; usize::from(count)]?,
            beside: Vec::new(alloc),
            known: nothing_known(alloc, station.part_count(), count)?,
            events: 0,
        })
    }

    /// How many messages were sent; their numbers begin with 1. At once; takes no memory.
    pub fn sent(&self) -> u32
        requires { length self.now.world.scene.sent ≤ 4294967295 }
        ensures { result ≡ length self.now.world.scene.sent }
    {
        self.world.sent()
    }

    /// How many events were taken: those that broke no premise. At once; takes no memory.
    pub fn events(&self) -> u32
        ensures { result ≡ self.now.events }
    {
        self.events
    }

    // A breaker opens.
    fn trip(&mut self, switch: SwitchId) -> WorldOutcome
        requires truth { switch.0 < length self.old.world.scene.truth }
        requires drives { switch.0 < length self.old.world.scene.drives }
        requires tripped { switch.0 < length self.old.tripped }
        requires count { self.old.events ≤ EVENTS }
        ensures { IsTripped self.old switch.0 self.new result }
    {
        self.events += 1;
        self.tripped[usize::from(switch.0)] = self.events;
        self.world.trip(switch);
        WorldOutcome::Drive
    }

    // What happens next, by the facts alone that a step needs.
    fn act<J: Judge>(
        &mut self,
        alloc: Global,
        station: &Station,
        event: TripEvent,
        judge: &J,
    ) -> Result<WorldOutcome, Memory>
        requires same { (J.meaning judge.now).diagram ≡ station.now }
        requires facts { TripFacts (J.meaning judge.now) self.old }
        requires range { TripInRange station.now event }
        requires room { length self.old.world.scene.sent ≤ MESSAGES }
        requires count { self.old.events ≤ EVENTS }
        ensures step { IfOk result (λ out. TripHappens (J.meaning judge.now) self.old event self.new out) }
        ensures err { OnErr result (self.new ≡ self.old) }
    {
        match event {
            TripEvent::Step(event) => self.happen(alloc, station, event, judge),
            TripEvent::Trip(switch) => Ok(self.trip(switch)),
        }
    }

    /// What happens next: one step of one node, one of one drive, none, or the trip of a breaker, which no bay is
    /// told. An event that breaks a premise answers `Premise` and changes nothing. What is taken is taken before
    /// anything changes, so that after `Memory` the world is unchanged. Time and memory: those of `World::step`,
    /// and for each message that may be sent the switches of the station.
    pub fn step<J: Judge>(
        &mut self,
        alloc: Global,
        station: &Station,
        event: TripEvent,
        judge: &J,
    ) -> Result<WorldOutcome, Memory>
        requires same { (J.meaning judge.now).diagram ≡ station.now }
        requires facts { TripFacts (J.meaning judge.now) self.old }
        requires range { TripInRange station.now event }
        requires room { length self.old.world.scene.sent ≤ MESSAGES }
        requires count { self.old.events ≤ EVENTS }
        ensures step { IfOk result (λ out. TripHappens (J.meaning judge.now) self.old event self.new out) }
        ensures premise { IfOk result (λ out. (which : Broken) → (out
            ≡ Premise which) ↔ BreaksTripPremise station.now self.old event which) }
        ensures unchanged { IfOk result (λ out. (which : Broken) → out ≡ Premise which → self.new ≡ self.old) }
        ensures output { IfOk result (OutputFits station.now) }
        ensures few { length self.new.world.scene.sent < length self.old.world.scene.sent + BAYS }
        ensures count { self.new.events ≤ self.old.events + 1 }
        ensures facts { TripFacts (J.meaning judge.now) self.new }
        // The first two rules are obeyed whatever has tripped, the third as long as no breaker has tripped since
        // its word was read that the grant used.
        ensures first_two { ObeysGap (J.meaning judge.now) self.new }
        ensures third { ObeysLoad (J.meaning judge.now) self.new }
        ensures sound { IsSoundTruth station.now self.old.world.scene.truth
            → IsSoundTruth station.now self.new.world.scene.truth }
        ensures err { OnErr result (self.new ≡ self.old) }
    {
        // Its clause says that the station is one; it does nothing.
        judge.diagram_is_station();
        self.act(alloc, station, event, judge)
    }
}

//! The world.
ghost use Rattle.std.specs.Prelude.{◌≡◌, ◌<◌, ◌≤◌, ◌+◌, ◌↔◌, length, IfOk, OnErr};
ghost use Rattle.station_graph.specs.Diagram.{IsStation};
ghost use Rattle.station_graph.specs.Alike.{IsVector};
ghost use Rattle.station_graph.specs.declared.limits.TheConstants.{BAYS};
ghost use Rattle.reservation_core.specs.declared.values.Which.{Which as Broken};
ghost use Rattle.reservation_core.specs.declared.values.WorldOutcome.TheVariants.{Premise};
ghost use Rattle.reservation_core.specs.declared.values.TheConstants.{MESSAGES};
ghost use Rattle.reservation_core.specs.Facts.{Obeys, IsSoundTruth};
ghost use Rattle.reservation_core.specs.Happens.{Happens, InRange};
ghost use Rattle.reservation_core.specs.Premises.{BreaksPremise};
ghost use Rattle.reservation_core.specs.World.{IsNewWorld, WorldRounds, WorldFacts, KeepsWords, OutputFits};

use crate::beside::keep;
use crate::scene::Scene;
use crate::turns::ROOM;
use crate::values::{WorldEvent, WorldOutcome};
use central_rules::Judge;
use double_points::Readings;
use ilk_base::Memory;
use station_graph::{Station, Vector};
use std::alloc::Global;
use std::marker::Model;

/// All bays of a station, the messages between them, and the drives of its switches. It is seen as its scene
/// (the node of each bay, where each switch truly stands, which drives run, and each message that was ever
/// sent), and beside each Answer the words that its bay had when it sent it. Each call takes the station and
/// the judge of the call before.
#[derive(Drop)]
pub struct World {
    pub(crate) scene: Scene,
    beside: Vec<Option<Readings>>,
}

impl Model for World {
    ghost use Rattle.reservation_core.specs.World.{World};

    ghost Value = { World };

    ghost view = { λ a. record { scene = a.scene; beside = a.beside.items } };
}

impl World {
    /// The world before anything happens: each bay is new, nothing was sent, and each switch stands as the
    /// vector says. Time and memory: for each bay the switches of the station.
    pub fn new(alloc: Global, station: &Station, start: &Vector) -> Result<World, Memory>
        requires { IsVector station.now start.now }
        ensures { IfOk result (IsNewWorld station.now start.now) }
    {
        Ok(World {
            scene: Scene::new(alloc, station, start)?,
            beside: Vec::new(alloc),
        })
    }

    /// How many messages were sent; their numbers begin with 1. At once; takes no memory.
    pub fn sent(&self) -> u32
        requires { length self.now.scene.sent ≤ 4294967295 }
        ensures { result ≡ length self.now.scene.sent }
    {
        self.scene.count() as u32
    }

    /// What happens next, by the round half of the facts alone: what is true of the words is neither asked
    /// for nor kept. It is for a world in which more may happen than is told here. Time and memory are those
    /// of `step`.
    pub fn act<J: Judge>(
        &mut self,
        alloc: Global,
        station: &Station,
        event: WorldEvent,
        judge: &J,
    ) -> Result<WorldOutcome, Memory>
        requires same { (J.meaning judge.now).diagram ≡ station.now }
        requires facts { WorldRounds (J.meaning judge.now) self.old }
        requires range { InRange station.now event }
        requires room { length self.old.scene.sent ≤ MESSAGES }
        ensures step { IfOk result (λ out. Happens (J.meaning judge.now) self.old.scene event self.new.scene out) }
        ensures words { IfOk result (λ out. KeepsWords station.now self.old self.new) }
        ensures premise { IfOk result (λ out. (which : Broken) → (out ≡ Premise which) ↔
            BreaksPremise station.now self.old.scene event which) }
        ensures unchanged { IfOk result (λ out. (which : Broken) → out ≡ Premise which → self.new ≡ self.old) }
        ensures output { IfOk result (OutputFits station.now) }
        ensures few { length self.new.scene.sent < length self.old.scene.sent + BAYS }
        ensures facts { WorldRounds (J.meaning judge.now) self.new }
        ensures err { OnErr result (self.new ≡ self.old) }
    {
        self.happen(alloc, station, event, judge)
    }

    /// What happens next: one step of one node, one of one drive, or none. An event that breaks a premise
    /// answers `Premise` and changes nothing. What is taken is taken before anything changes, so that after
    /// `Memory` the world is unchanged. Time and memory: those of the node's step, the switches of the
    /// station where an Answer may be sent, and at most one message for each bay.
    pub fn step<J: Judge>(
        &mut self,
        alloc: Global,
        station: &Station,
        event: WorldEvent,
        judge: &J,
    ) -> Result<WorldOutcome, Memory>
        requires same { (J.meaning judge.now).diagram ≡ station.now }
        requires facts { WorldFacts (J.meaning judge.now) self.old }
        requires range { InRange station.now event }
        requires room { length self.old.scene.sent ≤ MESSAGES }
        ensures step { IfOk result (λ out. Happens (J.meaning judge.now) self.old.scene event self.new.scene out) }
        ensures words { IfOk result (λ out. KeepsWords station.now self.old self.new) }
        ensures premise { IfOk result (λ out. (which : Broken) → (out ≡ Premise which) ↔
            BreaksPremise station.now self.old.scene event which) }
        ensures unchanged { IfOk result (λ out. (which : Broken) → out ≡ Premise which → self.new ≡ self.old) }
        ensures output { IfOk result (OutputFits station.now) }
        ensures few { length self.new.scene.sent < length self.old.scene.sent + BAYS }
        ensures facts { WorldFacts (J.meaning judge.now) self.new }
        ensures obeys { Obeys (J.meaning judge.now) self.new.scene }
        ensures sound { IsSoundTruth station.now self.old.scene.truth → IsSoundTruth station.now self.new.scene.truth }
        ensures err { OnErr result (self.new ≡ self.old) }
    {
        self.happen(alloc, station, event, judge)
    }

    // The same, by the round half of the facts.
    fn happen<J: Judge>(
        &mut self,
        alloc: Global,
        station: &Station,
        event: WorldEvent,
        judge: &J,
    ) -> Result<WorldOutcome, Memory>
        requires same { (J.meaning judge.now).diagram ≡ station.now }
        requires facts { WorldRounds (J.meaning judge.now) self.old }
        requires range { InRange station.now event }
        requires room { length self.old.scene.sent ≤ MESSAGES }
        ensures step { IfOk result (λ out. Happens (J.meaning judge.now) self.old.scene event self.new.scene out) }
        ensures words { IfOk result (λ out. KeepsWords station.now self.old self.new) }
        ensures station { IsStation (J.meaning judge.now).diagram }
        ensures err { OnErr result (self.new ≡ self.old) }
    {
        // Its clause says that the station is one; it does nothing.
        judge.diagram_is_station();
        let copy = self.scene.words_to_keep(alloc, station, event, judge)?;
        let count = self.scene.count();
        self.beside.reserve(ROOM)?;
        let outcome = self.scene.happen(alloc, station, event, judge)?;
        keep(&mut self.beside, self.scene.sent_after(count), copy);
        Ok(outcome)
    }
}

//! What is read of a world, and the trip of a breaker, for a world in which breakers may trip.
ghost use Rattle.std.specs.Prelude.{◌≡◌, ◌<◌, false, length, option_map, slice_index_or, MatchOption};
ghost use Rattle.central_rules.specs.Meaning.{bay_of as bay_at};
ghost use Rattle.reservation_core.specs.Scene.{node, moves};
ghost use Rattle.reservation_core.specs.Happens.{IsMessage, IsUnsent};

use crate::scene::bay_of;
use crate::values::Position;
use crate::world::World;
use bay_frames::Frame;
use bay_protocol::Grant;
use ilk_base::{BayId, Dbpos, SwitchId};
use station_graph::Station;

impl World {
    /// The message of this number, if it was sent. At once; takes no memory.
    pub fn message(&self, number: u32) -> Option<Frame>
        ensures { MatchOption result (IsUnsent self.now.scene number) (λ f. IsMessage self.now.scene number f) }
    {
        self.scene.message(number)
    }

    /// The round that a bay collects, if it collects one. At once; takes no memory.
    pub fn collecting(&self, station: &Station, bay: BayId) -> Option<u32>
        requires { bay.0 < length self.now.scene.nodes }
        ensures { result ≡ option_map (λ g. g.round) (node station.now self.now.scene bay.0).collecting }
    {
        match &self.scene.nodes[usize::from(bay.0)] {
            Some(node) => node.collecting(),
            None => None,
        }
    }

    /// The granted operation of a bay, if it has one. At once; takes no memory.
    pub fn granted(&self, station: &Station, bay: BayId) -> Option<Grant>
        requires { bay.0 < length self.now.scene.nodes }
        ensures { result ≡ (node station.now self.now.scene bay.0).granted }
    {
        self.scene.granted_of(station, bay)
    }

    /// The word of a switch in the node of its bay. At once; takes no memory.
    pub fn word(&self, station: &Station, switch: SwitchId) -> Dbpos
        requires known { switch.0 < length station.now.switches }
        requires there { bay_at station.now switch.0 < length self.now.scene.nodes }
        requires words { length (node station.now self.now.scene (bay_at station.now switch.0)).words
            ≡ length station.now.switches }
        ensures { result ≡ slice_index_or (node station.now self.now.scene (bay_at station.now switch.0)).words
            switch.0 Dbpos.Lost }
    {
        let bay = bay_of(station, switch);
        match &self.scene.nodes[usize::from(bay.0)] {
            Some(node) => node.word(switch),
            None => Dbpos::Lost,
        }
    }

    /// A breaker opens without a command, and its drive, if it runs, stops. No bay is told. At once; takes no
    /// memory.
    pub fn trip(&mut self, switch: SwitchId)
        requires truth { switch.0 < length self.old.scene.truth }
        requires drives { switch.0 < length self.old.scene.drives }
        ensures scene { self.new.scene ≡ moves self.old.scene switch.0 Position.Open false }
        ensures beside { self.new.beside ≡ self.old.beside }
    {
        self.scene.put(switch, Position::Open, false);
    }
}

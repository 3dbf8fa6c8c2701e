//! The nodes, the true positions, the drives and the messages of a world, and what is read of them.
ghost use Rattle.std.specs.Prelude.{◌≡◌, ◌<◌, ◌≤◌, ◌-◌, length, drop, true, false, MatchOption, IfOk, slice_get};
ghost use Rattle.std.specs.Prelude.{slice_index_or};
ghost use Rattle.station_graph.specs.Alike.{IsVector};
ghost use Rattle.central_rules.specs.Meaning.{IsBay, bay_of};
ghost use Rattle.bay_protocol.specs.Fits.{IsOwn};
ghost use Rattle.reservation_core.specs.Scene.{node, moves, stops, true_at, runs};
ghost use Rattle.reservation_core.specs.Happens.{IsMessage, IsUnsent, IsOpenOperation};
ghost use Rattle.reservation_core.specs.RoundFacts.{NotGranted};
ghost use Rattle.reservation_core.specs.Start.{IsStart};
ghost use Rattle.bay_protocol.specs.declared.values.Grant.{Grant as Granted};

use crate::start::{new_nodes, positions};
use crate::values::Position;
use bay_frames::Frame;
use bay_node::Node;
use bay_protocol::Grant;
use ilk_base::{BayId, Memory, Op, SwitchId};
use station_graph::{Station, Vector};
use std::alloc::Global;
use std::marker::Model;

// All that happens is a change of these. There is a node for each part that is a bay.
#[derive(Drop)]
pub(crate) struct Scene {
    pub(crate) nodes: Vec<Option<Node>>,
    pub(crate) truth: Vec<Position>,
    pub(crate) drives: Vec<bool>,
    pub(crate) sent: Vec<Frame>,
}

impl Model for Scene {
    ghost use Rattle.reservation_core.specs.Scene.{Scene};

    ghost Value = { Scene };

    ghost view = { λ a. record {
      nodes = a.nodes.items;
      truth = a.truth.items;
      drives = a.drives.items;
      sent = a.sent.items;
    } };
}

// The bay of a switch.
pub(crate) fn bay_of(station: &Station, switch: SwitchId) -> BayId
    requires { switch.0 < length station.now.switches }
    ensures is { result.0 ≡ bay_of station.now switch.0 }
    ensures bay { IsBay station.now result.0 }
    ensures own { IsOwn station.now result.0 switch.0 }
{
    station.switch(switch).bay
}

impl Scene {
    // Nothing has happened, and each switch stands as the vector says.
    pub(crate) fn new(alloc: Global, station: &Station, start: &Vector) -> Result<Scene, Memory>
        requires { IsVector station.now start.now }
        ensures { IfOk result (IsStart station.now start.now) }
    {
        Ok(Scene {
            nodes: new_nodes(alloc, station)?,
            truth: positions(alloc, station, start)?,
            drives: vec![in alloc; false; usize::from(station.switch_count())]?,
            sent: Vec::new(alloc),
        })
    }

    // How many messages were sent.
    pub(crate) fn count(&self) -> usize
        ensures { result ≡ length self.now.sent }
    {
        self.sent.len()
    }

    // What was sent after so many messages.
    pub(crate) fn sent_after(&self, count: usize) -> &[Frame]
        requires { count ≤ length self.now.sent }
        ensures { result.now ≡ drop count self.now.sent }
    {
        &self.sent[count..]
    }

    // The message of this number, if it was sent.
    pub(crate) fn message(&self, number: u32) -> Option<Frame>
        ensures { MatchOption result (IsUnsent self.now number) (λ f. IsMessage self.now number f) }
    {
        if number == 0 {
            return None;
        }
        let place = number as usize - 1;
        if place >= self.sent.len() {
            return None;
        }
        Some(self.sent[place])
    }

    // The granted operation of a bay.
    pub(crate) fn granted_of(&self, station: &Station, bay: BayId) -> Option<Grant>
        requires { bay.0 < length self.now.nodes }
        ensures { result ≡ (node station.now self.now bay.0).granted }
    {
        match &self.nodes[usize::from(bay.0)] {
            Some(node) => node.kept().granted,
            None => None,
        }
    }

    // The granted operation that moves a switch.
    pub(crate) fn open_operation(&self, station: &Station, switch: SwitchId) -> Option<Op>
        requires known { switch.0 < length station.now.switches }
        requires there { bay_of station.now switch.0 < length self.now.nodes }
        ensures { MatchOption result (NotGranted (node station.now self.now (bay_of station.now switch.0)) switch.0)
            (λ op. (g : Granted) × IsOpenOperation (node station.now self.now (bay_of station.now switch.0)) switch.0 g
            × (op ≡ g.op)) }
    {
        match self.granted_of(station, bay_of(station, switch)) {
            Some(grant) if grant.op.switch == switch => Some(grant.op),
            _ => None,
        }
    }

    // Whether the drive of a switch runs.
    pub(crate) fn runs(&self, switch: SwitchId) -> bool
        requires { switch.0 < length self.now.drives }
        ensures { result ≡ runs self.now.drives switch.0 }
    {
        self.drives[usize::from(switch.0)]
    }

    // Where a switch truly stands.
    pub(crate) fn position(&self, switch: SwitchId) -> Position
        requires { switch.0 < length self.now.truth }
        ensures { result ≡ true_at self.now.truth switch.0 }
    {
        self.truth[usize::from(switch.0)]
    }

    // The switch stands so from now on, and its drive runs or not.
    pub(crate) fn put(&mut self, switch: SwitchId, at: Position, running: bool)
        requires truth { switch.0 < length self.old.truth }
        requires drives { switch.0 < length self.old.drives }
        ensures { self.new ≡ moves self.old switch.0 at running }
    {
        self.truth[usize::from(switch.0)] = at;
        self.drives[usize::from(switch.0)] = running;
    }

    // The drive of the switch runs no longer.
    pub(crate) fn stop(&mut self, switch: SwitchId)
        requires { switch.0 < length self.old.drives }
        ensures { self.new ≡ stops self.old switch.0 }
    {
        self.drives[usize::from(switch.0)] = false;
    }
}

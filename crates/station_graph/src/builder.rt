//! The builder of a station.
ghost use Rattle.std.specs.Prelude.{◌≡◌, ℕ, ◌<◌, ◌≤◌, ◌-◌, List, [], ◌∷◌, ◌++◌, length, slice_get, Some, None, IfOk};
ghost use Rattle.std.specs.Prelude.{IfErr, OnErr, Contains};
ghost use Rattle.station_graph.specs.Diagram.{Diagram, node_count, part_count, bay_count, switches_in, empty};
ghost use Rattle.station_graph.specs.Diagram.{SwitchFits, LinkFits, TapFits, InfeedsTapped};
ghost use Rattle.station_graph.specs.Building.{IsFaultOf, part_limit, node_limit, link_limit, tap_limit, switch_limit};
ghost use Rattle.station_graph.specs.Building.{path_in_part, FollowsLast};
ghost use Rattle.std.specs.String.{string_bytes};

use crate::fault::{BuildFault, What, past};
use crate::items::{Link, Switch, Tap};
use crate::limits::{BAY_SWITCHES, BAYS, LINKS, NODES, PARTS, SWITCHES, TAPS};
use crate::paths::Paths;
use crate::station::Station;
use ilk_base::{BayId, Memory, NodeId, SwitchId};
use std::alloc::Global;
use std::marker::Model;

/// A station under way, seen as its diagram so far. A call adds exactly its item, or refuses it and
/// leaves the builder unchanged. Items are numbered in the order in which they are added, those of
/// each kind from 0.
#[derive(Drop)]
pub struct Builder {
    pub(crate) node_paths: Paths,
    pub(crate) part_paths: Paths,
    pub(crate) switch_paths: Paths,
    pub(crate) switches: Vec<Switch>,
    links: Vec<Link>,
    pub(crate) taps: Vec<Tap>,
    bays: usize,
    in_last: usize,
}

impl Model for Builder {
    ghost use Rattle.station_graph.specs.Diagram.{Diagram};

    ghost Value = { Diagram };

    ghost use Rattle.station_graph.specs.Building.{IsDraft, CountsBays};
    ghost use Rattle.station_graph.specs.DraftInside.{draft_of};

    ghost view = { draft_of };

    ghost invariant = { λ b. IsDraft (draft_of b) × CountsBays (draft_of b) b.bays b.in_last };
}

impl Builder {
    /// A builder without items. Takes no memory.
    pub fn new(alloc: Global) -> Builder
        ensures { result ≡ empty }
    {
        Builder {
            node_paths: Paths::new(alloc),
            part_paths: Paths::new(alloc),
            switch_paths: Paths::new(alloc),
            switches: Vec::new(alloc),
            links: Vec::new(alloc),
            taps: Vec::new(alloc),
            bays: 0,
            in_last: 0,
        }
    }

    /// Adds a part with this path, which no part has yet. Time and memory of this and the other calls
    /// that add: those of the path and the item, but for the moves of a list that grows.
    pub fn part(&mut self, path: &str) -> Result<BayId, BuildFault>
        requires new { ¬ Contains self.old.part_paths path.now }
        ensures id { IfOk result (λ id. id.0 ≡ part_count self.old) }
        ensures added { IfOk result
            (λ _. self.new ≡ record self.old { part_paths = self.old.part_paths ++ path.now ∷ [] }) }
        ensures within { IfOk result (λ _. part_limit self.old ≡ None) }
        ensures fault { IfErr result (λ e. IsFaultOf e (part_limit self.old)) }
        ensures unchanged { OnErr result (self.new ≡ self.old) }
    {
        let number = self.part_paths.len();
        if number == PARTS {
            return Err(past(What::Parts, PARTS));
        }
        let path = String::from_str(self.part_paths.allocator(), path)?;
        self.part_paths.push(path)?;
        Ok(BayId(number as u8))
    }

    /// Adds a node with this path, which no node has yet.
    pub fn node(&mut self, path: &str) -> Result<NodeId, BuildFault>
        requires new { ¬ Contains self.old.node_paths path.now }
        ensures id { IfOk result (λ id. id.0 ≡ node_count self.old) }
        ensures added { IfOk result
            (λ _. self.new ≡ record self.old { node_paths = self.old.node_paths ++ path.now ∷ [] }) }
        ensures within { IfOk result (λ _. node_limit self.old ≡ None) }
        ensures fault { IfErr result (λ e. IsFaultOf e (node_limit self.old)) }
        ensures unchanged { OnErr result (self.new ≡ self.old) }
    {
        let number = self.node_paths.len();
        if number == NODES {
            return Err(past(What::Nodes, NODES));
        }
        let path = String::from_str(self.node_paths.allocator(), path)?;
        self.node_paths.push(path)?;
        Ok(NodeId(number as u16))
    }

    /// How many nodes there are so far, at once.
    pub fn node_count(&self) -> u16
        ensures count { result ≡ node_count self.now }
        ensures few { result ≤ NODES }
    {
        self.node_paths.len() as u16
    }

    /// How many parts there are so far, at once.
    pub fn part_count(&self) -> u8
        ensures count { result ≡ part_count self.now }
        ensures few { result ≤ PARTS }
    {
        self.part_paths.len() as u8
    }

    /// Adds a link.
    pub fn link(&mut self, item: Link) -> Result<(), BuildFault>
        requires { LinkFits self.old item }
        ensures added { IfOk result
            (λ _. self.new ≡ record self.old { links = self.old.links ++ item ∷ [] }) }
        ensures within { IfOk result (λ _. link_limit self.old ≡ None) }
        ensures fault { IfErr result (λ e. IsFaultOf e (link_limit self.old)) }
        ensures unchanged { OnErr result (self.new ≡ self.old) }
    {
        if self.links.len() == LINKS {
            return Err(past(What::Links, LINKS));
        }
        self.links.push(item)?;
        Ok(())
    }

    /// Adds a tap.
    pub fn tap(&mut self, item: Tap) -> Result<(), BuildFault>
        requires { TapFits self.old item }
        ensures added { IfOk result
            (λ _. self.new ≡ record self.old { taps = self.old.taps ++ item ∷ [] }) }
        ensures within { IfOk result (λ _. tap_limit self.old ≡ None) }
        ensures fault { IfErr result (λ e. IsFaultOf e (tap_limit self.old)) }
        ensures unchanged { OnErr result (self.new ≡ self.old) }
    {
        if self.taps.len() == TAPS {
            return Err(past(What::Taps, TAPS));
        }
        self.taps.push(item)?;
        Ok(())
    }

    /// Adds a switch of the part of the last switch, or of a later part. Its path is that of its
    /// part, `/` and the name, and no switch has it yet. Of several limits that it would pass, the
    /// first of these is named: the switches, those of its bay, the bays.
    pub fn switch(&mut self, name: &str, item: Switch) -> Result<SwitchId, BuildFault>
        requires fits { SwitchFits self.old item }
        requires order { FollowsLast self.old item.bay.0 }
        requires new { ¬ Contains self.old.switch_paths (path_in_part self.old item.bay.0 name.now) }
        ensures id { IfOk result (λ id. id.0 ≡ length self.old.switches) }
        ensures added { IfOk result
            (λ _. self.new
            ≡ record self.old {
              switches = self.old.switches ++ item ∷ [];
              switch_paths = self.old.switch_paths ++ path_in_part self.old item.bay.0 name.now ∷ [];
            }) }
        ensures within { IfOk result (λ _. switch_limit self.old item.bay.0 ≡ None) }
        ensures fault { IfErr result (λ e. IsFaultOf e (switch_limit self.old item.bay.0)) }
        ensures unchanged { OnErr result (self.new ≡ self.old) }
    {
        let number = self.switches.len();
        if number == SWITCHES {
            return Err(past(What::Switches, SWITCHES));
        }
        let in_part = self.switches_in(item.bay);
        if in_part == BAY_SWITCHES {
            return Err(past(What::BaySwitches, BAY_SWITCHES));
        }
        let bays = self.bay_count();
        if in_part == 0 && bays == BAYS {
            return Err(past(What::Bays, BAYS));
        }
        let path = self.path_in_part(self.part_paths.allocator(), item.bay, name)?;
        self.switches.reserve(1)?;
        self.switch_paths.push(path)?;
        self.switches.push_reserved(item);
        self.bays = if in_part == 0 { bays + 1 } else { bays };
        self.in_last = in_part + 1;
        Ok(SwitchId(number as u16))
    }

    // How many switches the part has, which is that of the last switch or a later one.
    fn switches_in(&self, part: BayId) -> usize
        requires { FollowsLast self.now part.0 }
        ensures count { result ≡ switches_in self.now part.0 }
        ensures few { result ≤ BAY_SWITCHES }
    {
        match self.switches.last() {
            Some(last) if last.bay == part => self.in_last,
            _ => 0,
        }
    }

    // How many parts have a switch.
    fn bay_count(&self) -> usize
        ensures count { result ≡ bay_count self.now }
        ensures few { result ≤ BAYS }
    {
        self.bays
    }

    // The path of a switch of this part.
    pub(crate) fn path_in_part(
        &self,
        alloc: Global,
        part: BayId,
        name: &str,
    ) -> Result<String, Memory>
        requires { part.0 < part_count self.now }
        ensures path { IfOk result (λ p. string_bytes p ≡ path_in_part self.now part.0 name.now) }
    {
        let mut path = String::from_str(alloc, self.part_paths.get(part.0 as usize))?;
        path.push_str("/")?;
        path.push_str(name)?;
        Ok(path)
    }

    /// The station, at once. The node of each infeed has a tap.
    pub fn finish(self) -> Station
        requires { InfeedsTapped self }
        ensures { result ≡ self }
    {
        let Builder {
            node_paths,
            part_paths,
            switch_paths,
            switches,
            links,
            taps,
            bays: _,
            in_last: _,
        } = self;
        Station {
            node_paths,
            part_paths,
            switch_paths,
            switches,
            links,
            taps,
        }
    }
}

//! The station.
ghost use Rattle.std.specs.Prelude.{◌≡◌, ℕ, ◌<◌, ◌≤◌, ◌↔◌, length, slice_get, Some, IfSome, IfNone};
ghost use Rattle.std.specs.Prelude.{Contains};
ghost use Rattle.station_graph.specs.Diagram.{Diagram, node_count, part_count, switches_in, AreSwitchesOf, IsStation};
ghost use Rattle.station_graph.specs.Diagram.{SwitchFits, LinkFits, TapFits, IsOrdered};

use crate::items::{Link, Switch, Tap};
use crate::paths::Paths;
use ilk_base::{BayId, NodeId, SwitchId};
use std::marker::Model;

/// A station, seen as its diagram: the paths of its nodes, parts and switches, its switches, links
/// and taps. It is made by `Builder`. Every number is a place in the list of its kind.
#[derive(Drop)]
pub struct Station {
    pub(crate) node_paths: Paths,
    pub(crate) part_paths: Paths,
    pub(crate) switch_paths: Paths,
    pub(crate) switches: Vec<Switch>,
    pub(crate) links: Vec<Link>,
    pub(crate) taps: Vec<Tap>,
}

impl Model for Station {
    ghost use Rattle.station_graph.specs.Diagram.{Diagram, IsStation, IsOrdered};

    ghost Value = { Diagram };

    ghost use Rattle.station_graph.specs.Inside.{diagram_of};

    ghost view = { diagram_of };

    ghost invariant = { λ s. IsStation (diagram_of s) × IsOrdered (diagram_of s).switches };
}

// How many switches are of a part before this one.
fn first_from(switches: &[Switch], part: u16) -> usize
    requires ordered { IsOrdered switches.now }
    ensures within { result ≤ length switches.now }
    ensures before { (i : ℕ) (x : Switch) → slice_get switches.now i ≡ Some x
        → (i < result) ↔ (x.bay.0 < part) }
{
    switches.partition_point(|switch| u16::from(switch.bay.0) < part)
}

impl Station {
    /// Its diagram is that of a station. This is a law: the call does nothing.
    pub fn is_station(&self)
        ensures { IsStation self.now }
    {
        let _ = &self.switches;
    }

    /// How many switches there are, at once.
    pub fn switch_count(&self) -> u16
        ensures count { result ≡ length self.now.switches }
        ensures station { IsStation self.now }
    {
        self.switches.len() as u16
    }

    /// How many nodes there are, at once.
    pub fn node_count(&self) -> u16
        ensures count { result ≡ node_count self.now }
        ensures station { IsStation self.now }
    {
        self.node_paths.len() as u16
    }

    /// How many parts there are, at once.
    pub fn part_count(&self) -> u16
        ensures count { result ≡ part_count self.now }
        ensures station { IsStation self.now }
    {
        self.part_paths.len() as u16
    }

    /// How many links there are, at once.
    pub fn link_count(&self) -> u16
        ensures count { result ≡ length self.now.links }
        ensures station { IsStation self.now }
    {
        self.links.len() as u16
    }

    /// How many taps there are, at once.
    pub fn tap_count(&self) -> u16
        ensures count { result ≡ length self.now.taps }
        ensures station { IsStation self.now }
    {
        self.taps.len() as u16
    }

    /// The switch of this number, at once.
    pub fn switch(&self, id: SwitchId) -> Switch
        requires { id.0 < length self.now.switches }
        ensures value { slice_get self.now.switches id.0 ≡ Some result }
        ensures fits { SwitchFits self.now result }
        ensures station { IsStation self.now }
    {
        self.switches[id.0 as usize]
    }

    /// The link at this place, at once.
    pub fn link(&self, i: u16) -> Link
        requires { i < length self.now.links }
        ensures value { slice_get self.now.links i ≡ Some result }
        ensures fits { LinkFits self.now result }
        ensures station { IsStation self.now }
    {
        self.links[i as usize]
    }

    /// The tap at this place, at once.
    pub fn tap(&self, i: u16) -> Tap
        requires { i < length self.now.taps }
        ensures value { slice_get self.now.taps i ≡ Some result }
        ensures fits { TapFits self.now result }
        ensures station { IsStation self.now }
    {
        self.taps[i as usize]
    }

    /// The path of the switch: the names from its substation down, joined by `/`. At once.
    pub fn switch_path(&self, id: SwitchId) -> &str
        requires { id.0 < length self.now.switches }
        ensures value { slice_get self.now.switch_paths id.0 ≡ Some result.now }
    {
        self.switch_paths.get(id.0 as usize)
    }

    /// The path of the node, at once.
    pub fn node_path(&self, id: NodeId) -> &str
        requires { id.0 < node_count self.now }
        ensures value { slice_get self.now.node_paths id.0 ≡ Some result.now }
    {
        self.node_paths.get(id.0 as usize)
    }

    /// The path of the part, at once.
    pub fn part_path(&self, id: BayId) -> &str
        requires { id.0 < part_count self.now }
        ensures value { slice_get self.now.part_paths id.0 ≡ Some result.now }
    {
        self.part_paths.get(id.0 as usize)
    }

    /// The switches of the part: the first of them, and how many there are. Where the part has none,
    /// the first is the switch after those of the parts before it. Time: the logarithm of the
    /// switches. Takes no memory.
    pub fn switches_of(&self, part: BayId) -> (SwitchId, u16)
        ensures value { AreSwitchesOf self.now part.0 result.0.0 result.1 }
        ensures station { IsStation self.now }
    {
        let first = first_from(&self.switches, part.0 as u16);
        let next = first_from(&self.switches, part.0 as u16 + 1);
        (SwitchId(first as u16), (next - first) as u16)
    }

    /// The switch with this path; none where there is none. Time: the length of the path, and the
    /// logarithm of the switches. Takes no memory.
    pub fn find_switch(&self, path: &str) -> Option<SwitchId>
        ensures found { IfSome result (λ id. slice_get self.now.switch_paths id.0 ≡ Some path.now) }
        ensures within { IfSome result (λ id. id.0 < length self.now.switches) }
        ensures none { IfNone result (¬ Contains self.now.switch_paths path.now) }
        ensures station { IsStation self.now }
    {
        match self.switch_paths.find(path) {
            Some(i) => Some(SwitchId(i as u16)),
            None => None,
        }
    }

    /// The part with this path that has switches; none where there is none. Time: the length of the
    /// path, and the logarithm of the parts and the switches. Takes no memory.
    pub fn find_bay(&self, path: &str) -> Option<BayId>
        ensures found { IfSome result (λ id. slice_get self.now.part_paths id.0 ≡ Some path.now) }
        ensures within { IfSome result (λ id. id.0 < part_count self.now) }
        ensures bay { IfSome result (λ id. 0 < switches_in self.now id.0) }
        ensures none { IfNone result ((i : ℕ) → slice_get self.now.part_paths i ≡ Some path.now
            → switches_in self.now i ≡ 0) }
        ensures station { IsStation self.now }
    {
        let Some(i) = self.part_paths.find(path) else {
            return None;
        };
        let part = BayId(i as u8);
        let (_, count) = self.switches_of(part);
        if count == 0 {
            return None;
        }
        Some(part)
    }
}

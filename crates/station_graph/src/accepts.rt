//! Which calls of the builder may be made.
ghost use Rattle.std.specs.Prelude.{◌≡◌, IfOk, IsTrue, ◌↔◌, Contains};
ghost use Rattle.station_graph.specs.Diagram.{SecondFits, TapAmong, AllTapped, SwitchFits, LinkFits, TapFits};
ghost use Rattle.station_graph.specs.Diagram.{InfeedsTapped};
ghost use Rattle.station_graph.specs.Building.{FollowsLast, AcceptsSwitch};
ghost use Rattle.ilk_base.specs.declared.words.Kind.TheVariants.{Infeed};

use crate::builder::Builder;
use crate::items::{Link, Switch, Tap};
use ilk_base::{BayId, Kind, Memory, NodeId};
use std::alloc::Global;

impl Builder {
    /// Whether `part` may be called with this path. At once and without memory, as `accepts_node`.
    pub fn accepts_part(&self, path: &str) -> bool
        ensures { IsTrue result ↔ (¬ Contains self.now.part_paths path.now) }
    {
        self.part_paths.is_new(path)
    }

    /// Whether `node` may be called with this path.
    pub fn accepts_node(&self, path: &str) -> bool
        ensures { IsTrue result ↔ (¬ Contains self.now.node_paths path.now) }
    {
        self.node_paths.is_new(path)
    }

    /// Whether `link` may be called with this item. At once and without memory, as `accepts_tap`.
    pub fn accepts_link(&self, item: Link) -> bool
        ensures { IsTrue result ↔ LinkFits self.now item }
    {
        (item.first.0 as usize) < self.node_paths.len()
            && (item.second.0 as usize) < self.node_paths.len()
            && item.first != item.second
            && (item.part.0 as usize) < self.part_paths.len()
    }

    /// Whether `tap` may be called with this item.
    pub fn accepts_tap(&self, item: Tap) -> bool
        ensures { IsTrue result ↔ TapFits self.now item }
    {
        (item.node.0 as usize) < self.node_paths.len()
            && (item.part.0 as usize) < self.part_paths.len()
    }

    /// Whether `switch` may be called with this name and item. Time and memory: those of the path.
    pub fn accepts_switch(&self, alloc: Global, name: &str, item: Switch) -> Result<bool, Memory>
        ensures { IfOk result (λ b. IsTrue b ↔ AcceptsSwitch self.now name.now item) }
    {
        if !self.switch_fits(item) || !self.follows_last(item.bay) {
            return Ok(false);
        }
        let path = self.path_in_part(alloc, item.bay, name)?;
        Ok(self.switch_paths.is_new(path.as_str()))
    }

    // Whether the ids of the switch are in range and its ends are those of its kind.
    fn switch_fits(&self, item: Switch) -> bool
        ensures { IsTrue result ↔ SwitchFits self.now item }
    {
        let nodes = self.node_paths.len();
        (item.first.0 as usize) < nodes
            && (item.bay.0 as usize) < self.part_paths.len()
            && second_fits(item, nodes)
    }

    // Whether the part is that of the last switch or a later one.
    fn follows_last(&self, part: BayId) -> bool
        ensures { IsTrue result ↔ FollowsLast self.now part.0 }
    {
        match self.switches.last() {
            Some(last) => last.bay.0 <= part.0,
            None => true,
        }
    }

    /// Whether `finish` may be called. Time: the switches times the taps. Takes no memory.
    pub fn is_complete(&self) -> bool
        ensures { IsTrue result ↔ InfeedsTapped self.now }
    {
        all_tapped(&self.switches, &self.taps)
    }
}

// Whether a switch has a second end exactly where its kind has one, in range and apart from the first.
fn second_fits(item: Switch, nodes: usize) -> bool
    ensures { IsTrue result ↔ SecondFits nodes item }
{
    match (item.kind, item.second) {
        (Kind::Breaker | Kind::Disconnector, Some(second)) => {
            (second.0 as usize) < nodes && second != item.first
        }
        (Kind::Earthing | Kind::Infeed, None) => true,
        _ => false,
    }
}

// Whether a tap stands at the node of each infeed.
fn all_tapped(switches: &[Switch], taps: &[Tap]) -> bool
    ensures { IsTrue result ↔ AllTapped switches.now taps.now }
{
    for switch in switches {
        if !is_tapped(*switch, taps) {
            return false;
        }
    }
    true
}

// Whether the switch is no infeed or a tap stands at its node.
fn is_tapped(switch: Switch, taps: &[Tap]) -> bool
    ensures { IsTrue result ↔ (switch.kind ≡ Infeed → TapAmong taps.now switch.first.0) }
{
    if switch.kind != Kind::Infeed {
        return true;
    }
    has_tap(taps, switch.first)
}

// Whether a tap stands at the node.
fn has_tap(taps: &[Tap], node: NodeId) -> bool
    ensures { IsTrue result ↔ TapAmong taps.now node.0 }
{
    taps.iter().any(|tap| tap.node == node)
}

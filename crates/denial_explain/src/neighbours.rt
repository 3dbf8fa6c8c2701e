//! The neighbours of each node.
ghost use Rattle.std.specs.Prelude.{◌≡◌, ℕ, ◌<◌, List, [], length, replicate, false, IfOk, OnOk};
ghost use Rattle.station_graph.specs.Diagram.{node_count};
ghost use Rattle.station_graph.specs.Connection.{Touching};
ghost use Rattle.denial_explain.specs.Listing.{list_at, with_neighbour, with_neighbours, AreLists};
ghost use Rattle.station_graph.specs.Alike.{IsVector};

use ilk_base::{Memory, NodeId, SwitchId};
use station_graph::{NodeList, Station, Vector};
use std::alloc::Global;
use std::marker::Model;

// For each node the nodes to which one item joins it, seen as one list of nodes for each node. A node
// stands in a list as often as there are items that join the two.
#[derive(Drop)]
pub(crate) struct Neighbours {
    lists: Vec<NodeList>,
}

impl Model for Neighbours {
    ghost use Rattle.std.specs.Prelude.{ℕ, List};

    ghost Value = { List (List ℕ) };

    ghost view = { λ n. n.lists.items };
}

impl Neighbours {
    // The neighbours along the closed breakers, the closed disconnectors and the links. Time and
    // memory: the nodes, the switches and the links.
    pub(crate) fn of(
        alloc: Global,
        station: &Station,
        joining: &Vector,
    ) -> Result<Neighbours, Memory>
        requires { IsVector station.now joining.now }
        ensures { IfOk result
            (AreLists (Touching false station.now joining.now) (node_count station.now)) }
    {
        let mut neighbours = Neighbours::none(alloc, station.node_count())?;
        'switches: for i in 0..station.switch_count() {
            if joining.closed(SwitchId(i)) {
                let switch = station.switch(SwitchId(i));
                if let Some(second) = switch.second {
                    neighbours.join(switch.first, second)?;
                }
            }
        }
        'links: for i in 0..station.link_count() {
            let link = station.link(i);
            neighbours.join(link.first, link.second)?;
        }
        Ok(neighbours)
    }

    // So many nodes without neighbours.
    fn none(alloc: Global, count: u16) -> Result<Neighbours, Memory>
        ensures { IfOk result (λ n. n ≡ replicate count []) }
    {
        let mut lists = Vec::new(alloc);
        for _ in 0..count {
            lists.push(NodeList::new(alloc))?;
        }
        Ok(Neighbours { lists })
    }

    // Makes the two nodes neighbours of each other.
    fn join(&mut self, a: NodeId, b: NodeId) -> Result<(), Memory>
        requires first { a.0 < length self.old }
        requires second { b.0 < length self.old }
        ensures { OnOk result (self.new ≡ with_neighbours self.old a.0 b.0) }
    {
        self.add(a, b)?;
        self.add(b, a)
    }

    // Puts b at the end of the list at a.
    fn add(&mut self, a: NodeId, b: NodeId) -> Result<(), Memory>
        requires { a.0 < length self.old }
        ensures { OnOk result (self.new ≡ with_neighbour self.old a.0 b.0) }
    {
        self.lists[a.0 as usize].push(b)?;
        Ok(())
    }

    // How many nodes there are, at once.
    pub(crate) fn len(&self) -> usize
        ensures { result ≡ length self.now }
    {
        self.lists.len()
    }

    // The neighbours of the node, at once.
    pub(crate) fn at(&self, node: NodeId) -> &[u16]
        requires { node.0 < length self.now }
        ensures { result.now ≡ list_at self.now node.0 }
    {
        self.lists[node.0 as usize].numbers()
    }
}

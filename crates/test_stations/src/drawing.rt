//! What is drawn of a station, as a table, and the station that the builder makes of it.
ghost use Rattle.std.specs.Prelude.{◌≡◌};
ghost use Rattle.station_graph.specs.declared.fault.BuildFault.TheVariants.{Memory as OutOfMemory};
ghost use Rattle.test_stations.specs.declared.drawing.DrawingFault.TheVariants.{Refused};

use ilk_base::{BayId, Kind, Memory, NodeId};
use station_graph::{BuildFault, Builder, Link, Station, Switch, Tap};
use std::alloc::Global;

/// The name, kind, part, first and second end of a switch, the part and the ends by their places.
pub type SwitchLine = (&'static str, Kind, u8, u16, Option<u16>);

/// A station as a table: the paths of its parts and nodes, its switches, the part and the ends of each
/// link, which is no bond, and the part and the node of each tap.
#[derive(Clone, Copy)]
pub struct Drawing {
    pub parts: &'static [&'static str],
    pub nodes: &'static [&'static str],
    pub switches: &'static [SwitchLine],
    pub links: &'static [(u8, u16, u16)],
    pub taps: &'static [(u8, u16)],
}

/// Why there is no station of a table.
#[derive(Clone, Copy, Debug, PartialEq, Eq)]
pub enum DrawingFault {
    /// The builder may not be called with the next line of the table.
    NotAccepted,
    /// The builder refuses it.
    Refused(BuildFault),
}

impl From<BuildFault> for DrawingFault {
    ghost from_gives = { λ fault e. e ≡ Refused fault };

    fn from(fault: BuildFault) -> DrawingFault {
        DrawingFault::Refused(fault)
    }
}

impl From<Memory> for DrawingFault {
    ghost from_gives = { λ _ e. e ≡ Refused OutOfMemory };

    fn from(_e: Memory) -> DrawingFault {
        DrawingFault::Refused(BuildFault::Memory)
    }
}

fn add_parts(builder: &mut Builder, paths: &[&str]) -> Result<(), DrawingFault> {
    for path in paths {
        if !builder.accepts_part(path) {
            return Err(DrawingFault::NotAccepted);
        }
        builder.part(path)?;
    }
    Ok(())
}

fn add_nodes(builder: &mut Builder, paths: &[&str]) -> Result<(), DrawingFault> {
    for path in paths {
        if !builder.accepts_node(path) {
            return Err(DrawingFault::NotAccepted);
        }
        builder.node(path)?;
    }
    Ok(())
}

fn add_switches(
    alloc: Global,
    builder: &mut Builder,
    switches: &[SwitchLine],
) -> Result<(), DrawingFault> {
    for (name, kind, part, first, second) in switches {
        let item = Switch {
            kind: *kind,
            first: NodeId(*first),
            second: second.map(NodeId),
            bay: BayId(*part),
        };
        if !builder.accepts_switch(alloc, name, item)? {
            return Err(DrawingFault::NotAccepted);
        }
        builder.switch(name, item)?;
    }
    Ok(())
}

fn add_links(builder: &mut Builder, links: &[(u8, u16, u16)]) -> Result<(), DrawingFault> {
    for (part, first, second) in links {
        let item = Link {
            first: NodeId(*first),
            second: NodeId(*second),
            bond: false,
            part: BayId(*part),
        };
        if !builder.accepts_link(item) {
            return Err(DrawingFault::NotAccepted);
        }
        builder.link(item)?;
    }
    Ok(())
}

fn add_taps(builder: &mut Builder, taps: &[(u8, u16)]) -> Result<(), DrawingFault> {
    for (part, node) in taps {
        let item = Tap {
            node: NodeId(*node),
            part: BayId(*part),
        };
        if !builder.accepts_tap(item) {
            return Err(DrawingFault::NotAccepted);
        }
        builder.tap(item)?;
    }
    Ok(())
}

// Adds to the builder all that the table shows.
fn draw(alloc: Global, builder: &mut Builder, drawing: &Drawing) -> Result<(), DrawingFault> {
    add_parts(builder, drawing.parts)?;
    add_nodes(builder, drawing.nodes)?;
    add_switches(alloc, builder, drawing.switches)?;
    add_links(builder, drawing.links)?;
    add_taps(builder, drawing.taps)
}

// The builder with all that the table shows.
fn drawn(alloc: Global, drawing: &Drawing) -> Result<Builder, DrawingFault> {
    let mut builder = Builder::new(alloc);
    draw(alloc, &mut builder, drawing)?;
    Ok(builder)
}

/// The station of a table, built by the calls of `station_graph` in the order of its lines.
pub fn station_of(alloc: Global, drawing: &Drawing) -> Result<Station, DrawingFault> {
    let builder = drawn(alloc, drawing)?;
    if builder.is_complete() {
        Ok(builder.finish())
    } else {
        Err(DrawingFault::NotAccepted)
    }
}

//! How deep the parts of a station lie behind a bay. Taken in from the deepest on, the parts behind a node are all taken in
//! before those on this side of it, so that few nodes stand between what is taken in and what is not.
use ilk_base::{BayId, Memory, SwitchId};
use station_graph::Station;
use std::alloc::Global;

// What no part and no node that is reached is away.
const FAR: u16 = 1023;

// An item of the part stands at the node.
#[derive(Clone, Copy)]
struct Touch {
    part: u16,
    node: u16,
}

// How far parts and nodes are away: the nodes of a part are as far as the part, but for those that it shares with a nearer
// one, and the parts at a node are one further.
#[derive(Drop)]
struct Distances {
    parts: Vec<u16>,
    nodes: Vec<u16>,
}

// How deep each part lies, and the first node that it shares with others.
#[derive(Drop)]
pub(crate) struct Depths {
    pub(crate) depths: Vec<u16>,
    pub(crate) nodes: Vec<u16>,
}

// The number at a place; far where there is none.
pub(crate) fn at(list: &[u16], place: u16) -> u16 {
    if usize::from(place) < list.len() {
        list[usize::from(place)]
    } else {
        FAR
    }
}

// Puts a smaller number at the place. Gives whether it was put.
fn lower(list: &mut Vec<u16>, place: u16, number: u16) -> bool {
    let place = usize::from(place);
    if place < list.len() && number < list[place] {
        list[place] = number;
        return true;
    }
    false
}

// Puts a number at the place.
pub(crate) fn put(list: &mut Vec<u16>, place: u16, number: u16) {
    let place = usize::from(place);
    if place < list.len() {
        list[place] = number;
    }
}

// Marks a place.
fn mark(marks: &mut Vec<bool>, place: u16) {
    let place = usize::from(place);
    if place < marks.len() {
        marks[place] = true;
    }
}

// Whether a place is marked.
fn is_marked(marks: &[bool], place: u16) -> bool {
    usize::from(place) < marks.len() && marks[usize::from(place)]
}

// Appends the ends of the switches.
fn push_switches(station: &Station, touches: &mut Vec<Touch>) -> Result<(), Memory> {
    for i in 0..station.switch_count() {
        let switch = station.switch(SwitchId(i));
        let part = u16::from(switch.bay.0);
        touches.push(Touch {
            part,
            node: switch.first.0,
        })?;
        if let Some(second) = switch.second {
            touches.push(Touch {
                part,
                node: second.0,
            })?;
        }
    }
    Ok(())
}

// Appends the ends of the links.
fn push_links(station: &Station, touches: &mut Vec<Touch>) -> Result<(), Memory> {
    for i in 0..station.link_count() {
        let link = station.link(i);
        let part = u16::from(link.part.0);
        touches.push(Touch {
            part,
            node: link.first.0,
        })?;
        touches.push(Touch {
            part,
            node: link.second.0,
        })?;
    }
    Ok(())
}

// At which nodes the items of each part stand that join nodes.
fn touches_of(alloc: Global, station: &Station) -> Result<Vec<Touch>, Memory> {
    let mut touches = Vec::new(alloc);
    push_switches(station, &mut touches)?;
    push_links(station, &mut touches)?;
    Ok(touches)
}

// Nothing is reached but this part.
fn only(alloc: Global, station: &Station, bay: BayId) -> Result<Distances, Memory> {
    let mut parts = Vec::new(alloc);
    parts.resize(usize::from(station.part_count()), FAR)?;
    lower(&mut parts, u16::from(bay.0), 0);
    let mut nodes = Vec::new(alloc);
    nodes.resize(usize::from(station.node_count()), FAR)?;
    Ok(Distances { parts, nodes })
}

// Reaches the nodes of the parts that are so far.
fn reach_nodes(touches: &[Touch], distances: &mut Distances, far: u16) {
    for touch in touches {
        if at(&distances.parts, touch.part) == far {
            lower(&mut distances.nodes, touch.node, far);
        }
    }
}

// Reaches the parts at the nodes that are so far. Gives whether there are any.
fn reach_parts(touches: &[Touch], distances: &mut Distances, far: u16) -> bool {
    let mut reached = false;
    for touch in touches {
        if at(&distances.nodes, touch.node) == far {
            let further = far.saturating_add(1);
            if lower(&mut distances.parts, touch.part, further) {
                reached = true;
            }
        }
    }
    reached
}

// How far all is away from the bay.
fn distances_from(
    alloc: Global,
    station: &Station,
    touches: &[Touch],
    bay: BayId,
) -> Result<Distances, Memory> {
    let mut distances = only(alloc, station, bay)?;
    for far in 0..station.part_count() {
        reach_nodes(touches, &mut distances, far);
        if !reach_parts(touches, &mut distances, far) {
            return Ok(distances);
        }
    }
    Ok(distances)
}

// Whether for each node items of two parts stand there.
fn shared_nodes(alloc: Global, station: &Station, touches: &[Touch]) -> Result<Vec<bool>, Memory> {
    let count = usize::from(station.node_count());
    let mut owners = Vec::new(alloc);
    owners.resize(count, FAR)?;
    let mut shared = Vec::new(alloc);
    shared.resize(count, false)?;
    for touch in touches {
        let owner = at(&owners, touch.node);
        if owner == FAR {
            put(&mut owners, touch.node, touch.part);
        } else if owner != touch.part {
            mark(&mut shared, touch.node);
        }
    }
    Ok(shared)
}

// Twice how far each part is away, and one more where it shares with others a node that no nearer part has.
fn depths_by(
    alloc: Global,
    touches: &[Touch],
    shared: &[bool],
    distances: &Distances,
) -> Result<Vec<u16>, Memory> {
    let mut depths = Vec::new(alloc);
    for part in 0..distances.parts.len() {
        depths.push(distances.parts[part].saturating_mul(2))?;
    }
    for touch in touches {
        let far = at(&distances.parts, touch.part);
        if is_marked(shared, touch.node) && at(&distances.nodes, touch.node) == far {
            let deeper = far.saturating_mul(2).saturating_add(1);
            put(&mut depths, touch.part, deeper);
        }
    }
    Ok(depths)
}

// The first node that each part shares with others; far where there is none.
fn first_nodes(
    alloc: Global,
    touches: &[Touch],
    shared: &[bool],
    count: usize,
) -> Result<Vec<u16>, Memory> {
    let mut nodes = Vec::new(alloc);
    nodes.resize(count, u16::MAX)?;
    for touch in touches {
        if is_marked(shared, touch.node) {
            lower(&mut nodes, touch.part, touch.node);
        }
    }
    Ok(nodes)
}

// How deep each part of the station lies behind the bay: a part lies deeper than those of its distance where it leads on to
// parts that are further away.
pub(crate) fn depths_of(alloc: Global, station: &Station, bay: BayId) -> Result<Depths, Memory> {
    let touches = touches_of(alloc, station)?;
    let distances = distances_from(alloc, station, &touches, bay)?;
    let shared = shared_nodes(alloc, station, &touches)?;
    Ok(Depths {
        depths: depths_by(alloc, &touches, &shared, &distances)?,
        nodes: first_nodes(alloc, &touches, &shared, distances.parts.len())?,
    })
}

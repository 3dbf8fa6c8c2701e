//! What each element gives, added to a builder in document order.
ghost use Rattle.std.specs.Prelude.{◌≡◌, ℕ, ◌<◌, ◌++◌, [], length, Some, None, slice_index, slice_index_or, Contains};
ghost use Rattle.std.specs.List.{flat_map};
ghost use Rattle.station_graph.specs.Diagram.{node_count, part_count, empty};
ghost use Rattle.ssd_read.specs.declared.role.Role.TheVariants.{ConductingEquipment};
ghost use Rattle.ssd_read.specs.Elements.{element_at, element_name};
ghost use Rattle.ssd_read.specs.Drawn.{IsDrawn};
ghost use Rattle.ssd_read.specs.Types.{type_of};
ghost use Rattle.ssd_text.specs.Nesting.{Entry};
ghost use Rattle.ssd_read.specs.Names.{first_fault, name_fault};
ghost use Rattle.ssd_read.specs.Ends.{ends_of, end_fault, nodes_at, use_of, fault_of_ends};
ghost use Rattle.ssd_read.specs.Steps.{is_part, naming_step, part_number, part_of, links_along, is_bond, lone_tap};
ghost use Rattle.ssd_read.specs.Steps.{use_steps, winding_ends_of, built, steps_of, steps_before, item_steps_at};
ghost use Rattle.ssd_read.specs.Seen.{Builds, AreNodes, KeepsSwitches, MayTakeSwitch};

use crate::attributes::name_or_nothing;
use crate::drawing::Drawing;
use crate::end_lists::EndLists;
use crate::ends::nodes_at;
use crate::links::{add_links, add_lone_tap, add_transformer};
use crate::parts::is_part;
use crate::refusal::SsdRefusal;
use crate::role::Role;
use crate::switches::{add_breaker, add_disconnector, add_infeed};
use crate::terminal_place::TerminalPlace;
use crate::types::{EquipmentType, Use, is_bond, use_of};
use ilk_base::BayId;
use station_graph::Builder;
use std::alloc::Global;

// Adds what equipment gives that is no switch.
fn add_other(
    builder: &mut Builder,
    kind: Option<EquipmentType>,
    part: BayId,
    nodes: &[u32],
) -> Result<(), SsdRefusal>
    requires part { part.0 < part_count builder.old }
    requires nodes { AreNodes builder.old nodes.now }
    ensures builds { (e : Entry) → kind ≡ type_of e → Builds builder.old
        (links_along (is_bond e) part.0 nodes.now ++ lone_tap e part.0 nodes.now) result builder.new }
    ensures same { KeepsSwitches builder.old builder.new }
{
    match add_links(builder, is_bond(kind), part, nodes) {
        Ok(()) => add_lone_tap(builder, kind, part, nodes),
        Err(fault) => Err(fault),
    }
}

// Adds what equipment gives.
fn add_equipment(
    alloc: Global,
    drawing: &Drawing<'_>,
    i: u32,
    builder: &mut Builder,
    part: BayId,
    ends: &[TerminalPlace],
) -> Result<(), SsdRefusal>
    requires within { i < length drawing.now }
    requires role { (element_at drawing.now i).role ≡ ConductingEquipment }
    requires fault { fault_of_ends (element_at drawing.now i) ends.now ≡ None }
    requires part { part.0 < part_count builder.old }
    requires nodes { AreNodes builder.old (nodes_at ends.now) }
    requires room { MayTakeSwitch builder.old part.0 (element_name (element_at drawing.now i).entry) }
    ensures { Builds builder.old (use_steps (use_of (element_at drawing.now i).entry) (element_at drawing.now i).entry
        part.0 (nodes_at ends.now)) result builder.new }
{
    let nodes = nodes_at(alloc, ends)?;
    let name = name_or_nothing(drawing.name(i));
    let kind = drawing.kind(i);
    match use_of(kind) {
        Use::Breaker => add_breaker(builder, part, name, &nodes),
        Use::Disconnector => add_disconnector(builder, part, name, &nodes),
        Use::Infeed => add_infeed(builder, part, name, &nodes),
        Use::Other => add_other(builder, kind, part, &nodes),
    }
}

// The part to which an element belongs.
fn part_of(drawing: &Drawing<'_>, i: u32, numbers: &[u8]) -> BayId
    requires drawn { IsDrawn drawing.now }
    requires within { i < length drawing.now }
    requires count { length numbers.now ≡ length drawing.now }
    requires numbers { (j : ℕ) → j < length drawing.now → slice_index numbers.now j ≡ part_number drawing.now j }
    ensures { result.0 ≡ part_of drawing.now i (element_at drawing.now i) }
{
    if is_part(drawing, i) {
        return BayId(numbers[i as usize]);
    }
    match drawing.parent(i) {
        Some(parent) => BayId(numbers[parent as usize]),
        None => BayId(0),
    }
}

// Adds what an element gives.
fn add_item(
    alloc: Global,
    drawing: &Drawing<'_>,
    i: u32,
    builder: &mut Builder,
    part: BayId,
    own: &[TerminalPlace],
    windings: &[TerminalPlace],
) -> Result<(), SsdRefusal>
    requires drawn { IsDrawn drawing.now }
    requires within { i < length drawing.now }
    requires names { first_fault name_fault [] drawing.now ≡ None }
    requires ends { first_fault (end_fault drawing.now) [] drawing.now ≡ None }
    requires part { part.0 ≡ part_of drawing.now i (element_at drawing.now i) }
    requires own { own.now ≡ ends_of drawing.now i }
    requires windings { windings.now ≡ winding_ends_of drawing.now i }
    requires before { built empty (steps_before drawing.now i) ≡ Ok builder.old }
    ensures { Builds builder.old (item_steps_at drawing.now i) result builder.new }
{
    match drawing.role(i) {
        Role::ConductingEquipment => add_equipment(alloc, drawing, i, builder, part, own),
        Role::PowerTransformer => {
            let nodes = nodes_at(alloc, windings)?;
            add_transformer(builder, part, &nodes)
        }
        _ => Ok(()),
    }
}

// Adds what all elements give.
pub(crate) fn add_items(
    alloc: Global,
    drawing: &Drawing<'_>,
    builder: &mut Builder,
    numbers: &[u8],
    own: &EndLists,
    windings: &EndLists,
) -> Result<(), SsdRefusal>
    requires names { first_fault name_fault [] drawing.now ≡ None }
    requires ends { first_fault (end_fault drawing.now) [] drawing.now ≡ None }
    requires count { length numbers.now ≡ length drawing.now }
    requires numbers { (j : ℕ) → j < length drawing.now → slice_index numbers.now j ≡ part_number drawing.now j }
    requires own { length own.now ≡ length drawing.now }
    requires windings { length windings.now ≡ length drawing.now }
    requires own_ends { (j : ℕ) → j < length drawing.now → slice_index_or own.now j [] ≡ ends_of drawing.now j }
    requires winding_ends { (j : ℕ) → j < length drawing.now → slice_index_or windings.now j [] ≡ winding_ends_of
        drawing.now j }
    requires named { built empty (flat_map naming_step drawing.now) ≡ Ok builder.old }
    ensures { Builds empty (steps_of drawing.now) result builder.new }
{
    for i in 0..drawing.count() {
        let part = part_of(drawing, i, numbers);
        match add_item(alloc, drawing, i, builder, part, own.of(i), windings.of(i)) {
            Ok(()) => {}
            Err(fault) => return Err(fault),
        }
    }
    Ok(())
}

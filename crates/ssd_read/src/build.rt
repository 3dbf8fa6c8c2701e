//! Pass 3: the station.
ghost use Rattle.std.specs.Prelude.{◌≡◌, ℕ, ◌<◌, ◌==◌, [], length, take, IfOk, MatchResult, true, None, slice_index};
ghost use Rattle.std.specs.Prelude.{slice_index_or};
ghost use Rattle.std.specs.List.{flat_map};
ghost use Rattle.station_graph.specs.Diagram.{empty};
ghost use Rattle.ssd_read.specs.Elements.{element_at};
ghost use Rattle.ssd_read.specs.Names.{first_fault, name_fault};
ghost use Rattle.ssd_read.specs.Ends.{ends_of, end_fault};
ghost use Rattle.ssd_read.specs.Steps.{is_part, naming_step, part_number, winding_ends_of, built, steps_of};
ghost use Rattle.ssd_read.specs.Seen.{Builds, AnswersRefusal};

use crate::drawing::Drawing;
use crate::end_lists::EndLists;
use crate::equipment::add_items;
use crate::parts::is_part;
use crate::refusal::SsdRefusal;
use crate::role::Role;
use station_graph::{Builder, Station};
use std::alloc::Global;

// Adds the part or the node that an element is.
fn add_name(drawing: &Drawing<'_>, i: u32, builder: &mut Builder) -> Result<(), SsdRefusal>
    requires within { i < length drawing.now }
    requires names { first_fault name_fault [] drawing.now ≡ None }
    requires before { built empty (flat_map naming_step (take i drawing.now)) ≡ Ok builder.old }
    ensures { Builds builder.old (naming_step (element_at drawing.now i)) result builder.new }
{
    if is_part(drawing, i) {
        match builder.part(drawing.path(i)) {
            Ok(_) => Ok(()),
            Err(fault) => Err(SsdRefusal::from(fault)),
        }
    } else if drawing.role(i) == Role::ConnectivityNode {
        match builder.node(drawing.path(i)) {
            Ok(_) => Ok(()),
            Err(fault) => Err(SsdRefusal::from(fault)),
        }
    } else {
        Ok(())
    }
}

// Adds all parts and nodes, and gives for each element how many parts stand before it.
fn add_names(
    alloc: Global,
    drawing: &Drawing<'_>,
    builder: &mut Builder,
) -> Result<Vec<u8>, SsdRefusal>
    requires empty { builder.old ≡ empty }
    requires names { first_fault name_fault [] drawing.now ≡ None }
    ensures named { Builds empty (flat_map naming_step drawing.now) result builder.new }
    ensures count { IfOk result (λ v. length v.items ≡ length drawing.now) }
    ensures numbers { IfOk result (λ v. (j : ℕ) → j < length drawing.now →
        slice_index v.items j ≡ part_number drawing.now j) }
{
    let mut numbers = Vec::new(alloc);
    for i in 0..drawing.count() {
        numbers.push(builder.part_count())?;
        match add_name(drawing, i, builder) {
            Ok(()) => {}
            Err(fault) => return Err(fault),
        }
    }
    Ok(numbers)
}

// Adds all that the elements give: first the parts and nodes, then the equipment.
fn add_all(
    alloc: Global,
    drawing: &Drawing<'_>,
    builder: &mut Builder,
    own: &EndLists,
    windings: &EndLists,
) -> Result<(), SsdRefusal>
    requires empty { builder.old ≡ empty }
    requires names { first_fault name_fault [] drawing.now ≡ None }
    requires ends { first_fault (end_fault drawing.now) [] drawing.now ≡ None }
    requires own { length own.now ≡ length drawing.now }
    requires windings { length windings.now ≡ length drawing.now }
    requires own_ends { (j : ℕ) → j < length drawing.now → slice_index_or own.now j [] ≡ ends_of drawing.now j }
    requires winding_ends { (j : ℕ) → j < length drawing.now → slice_index_or windings.now j [] ≡ winding_ends_of
        drawing.now j }
    ensures { Builds empty (steps_of drawing.now) result builder.new }
{
    let numbers = match add_names(alloc, drawing, builder) {
        Ok(numbers) => numbers,
        Err(fault) => return Err(fault),
    };
    add_items(alloc, drawing, builder, &numbers, own, windings)
}

// The station of a drawing without faults.
pub(crate) fn build(
    alloc: Global,
    drawing: &Drawing<'_>,
    own: &EndLists,
    windings: &EndLists,
) -> Result<Station, SsdRefusal>
    requires names { first_fault name_fault [] drawing.now ≡ None }
    requires ends { first_fault (end_fault drawing.now) [] drawing.now ≡ None }
    requires own { length own.now ≡ length drawing.now }
    requires windings { length windings.now ≡ length drawing.now }
    requires own_ends { (j : ℕ) → j < length drawing.now → slice_index_or own.now j [] ≡ ends_of drawing.now j }
    requires winding_ends { (j : ℕ) → j < length drawing.now → slice_index_or windings.now j [] ≡ winding_ends_of
        drawing.now j }
    ensures { MatchResult result (λ station. built empty (steps_of drawing.now) ≡ Ok station)
        (λ e. AnswersRefusal e (built empty (steps_of drawing.now))) }
{
    let mut builder = Builder::new(alloc);
    match add_all(alloc, drawing, &mut builder, own, windings) {
        Ok(()) => Ok(builder.finish()),
        Err(fault) => Err(fault),
    }
}

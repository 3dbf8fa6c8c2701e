//! Lines in sections: the signals of each bay, what bays are together, the releases of each bay.
ghost use Rattle.std.specs.Prelude.{◌≡◌, ◌≤◌, ◌<◌, ◌+◌, length, slice_index_or, IfOk, IfSome, OnOk};
ghost use Rattle.station_graph.specs.Diagram.{part_count};
ghost use Rattle.structured_text.specs.Order.{IsInput, AreInOrder};
ghost use Rattle.structured_text.specs.Within.{HeadingWithin, LinesWithin};
ghost use Rattle.program_text.specs.declared.section_order.TheConstants.{LAST};
ghost use Rattle.program_text.specs.Sections.{section_at, AreKeysSmall, KeysRise, AreSortedTo, AreReordered};

use crate::section_order::{BETWEEN, FIRST_RELEASES, LAST};
use ilk_base::{BayId, Memory};
use station_graph::Station;
use std::alloc::Global;
use structured_text::{Heading, Line};

// The section of a line.
fn section_of(keys: &[usize], number: usize) -> usize
    ensures { result ≡ section_at keys.now number }
{
    keys.get(number).copied().unwrap_or(0)
}

// The bay of this number, if there is one.
fn bay_at(station: &Station, number: usize) -> Option<BayId>
    ensures { IfSome result (λ p. p.0 < part_count station.now) }
{
    if number < station.part_count() as usize && number < 256 {
        return Some(BayId(number as u8));
    }
    None
}

// The comment above a section.
fn heading_of(station: &Station, section: usize) -> Option<Heading>
    ensures { HeadingWithin (part_count station.now) result }
{
    if section < BETWEEN {
        return bay_at(station, section).map(Heading::Signals);
    }
    if section == BETWEEN {
        return Some(Heading::Together);
    }
    bay_at(station, section - FIRST_RELEASES).map(Heading::Releases)
}

// The comment above the next line of a section: the first line of it has one.
fn heading_at(station: &Station, section: usize, first: bool) -> Option<Heading>
    ensures { HeadingWithin (part_count station.now) result }
{
    if first {
        heading_of(station, section)
    } else {
        None
    }
}

// Appends the lines of a section.
fn add_section(
    station: &Station,
    lines: &[Line],
    keys: &[usize],
    section: usize,
    sorted: &mut Vec<Line>,
) -> Result<(), Memory>
    requires order { AreInOrder IsInput lines.now }
    requires rise { KeysRise lines.now keys.now (length lines.now) }
    requires within { LinesWithin station.now lines.now }
    requires taken { AreSortedTo lines.now keys.now section 0 sorted.old.items }
    requires so_far { LinesWithin station.now sorted.old.items }
    ensures taken { OnOk result (AreSortedTo lines.now keys.now (section + 1) 0 sorted.new.items) }
    ensures within { OnOk result (LinesWithin station.now sorted.new.items) }
{
    let mut first = true;
    for i in 0..lines.len() {
        if section_of(keys, i) == section {
            let line = lines[i];
            sorted.push(Line {
                heading: heading_at(station, section, first),
                name: line.name,
                formula: line.formula,
            })?;
            first = false;
        }
    }
    Ok(())
}

/// The lines by their sections, each section under a comment.
pub(crate) fn in_sections(
    alloc: Global,
    station: &Station,
    lines: &[Line],
    keys: &[usize],
) -> Result<Vec<Line>, Memory>
    requires order { AreInOrder IsInput lines.now }
    requires small { AreKeysSmall keys.now }
    requires rise { KeysRise lines.now keys.now (length lines.now) }
    requires within { LinesWithin station.now lines.now }
    ensures reordered { IfOk result (λ r. AreReordered lines.now r.items) }
    ensures within { IfOk result (λ r. LinesWithin station.now r.items) }
{
    let mut sorted = Vec::new(alloc);
    for section in 0..LAST + 1 {
        add_section(station, lines, keys, section, &mut sorted)?;
    }
    Ok(sorted)
}

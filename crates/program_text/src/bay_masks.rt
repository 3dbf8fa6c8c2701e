//! On which bays the lines depend, and for the releases of which bays they are.
ghost use Rattle.std.specs.Prelude.{◌≤◌, ◌<◌, IfSome};
ghost use Rattle.program_text.specs.declared.section_order.TheConstants.{LAST};

use crate::read_names::names_of;
use crate::section_order::{BETWEEN, FIRST_RELEASES, LAST};
use ilk_base::{BayId, Memory, SwitchId};
use station_graph::Station;
use std::alloc::Global;
use structured_text::{Line, Name, is_release};

// A set of bays for each formula, as bits.
#[derive(Drop)]
struct Masks {
    may: Vec<u64>,
    sure: Vec<u64>,
}

// The set of one bay.
fn bay_mask(bay: BayId) -> u64 {
    if bay.0 < 64 { 1u64 << bay.0 } else { 0 }
}

// The set of the bay of a switch.
fn switch_mask(station: &Station, id: SwitchId) -> u64 {
    if id.0 < station.switch_count() {
        return bay_mask(station.switch(id).bay);
    }
    0
}

// The set of a variable.
fn mask_of(masks: &Masks, station: &Station, name: Name) -> u64 {
    match name {
        Name::May(number) => masks.may.get(number).copied().unwrap_or(0),
        Name::Sure(number) => masks.sure.get(number).copied().unwrap_or(0),
        Name::Off(id) => switch_mask(station, id),
        Name::On(id) => switch_mask(station, id),
        Name::Opens(id) => switch_mask(station, id),
        Name::Closes(id) => switch_mask(station, id),
    }
}

fn add_to(masks: &mut Vec<u64>, number: usize, mask: u64) {
    if number < masks.len() {
        let more = masks[number] | mask;
        masks[number] = more;
    }
}

// Adds bays to the set of a formula.
fn add_mask(masks: &mut Masks, name: Name, mask: u64) {
    match name {
        Name::May(number) => add_to(&mut masks.may, number, mask),
        Name::Sure(number) => add_to(&mut masks.sure, number, mask),
        _ => {}
    }
}

// The set of all of these variables.
fn mask_of_all(masks: &Masks, station: &Station, names: &[Name]) -> u64 {
    let mut mask = 0u64;
    for name in names {
        mask |= mask_of(masks, station, *name);
    }
    mask
}

fn add_to_all(masks: &mut Masks, names: &[Name], mask: u64) {
    for name in names {
        add_mask(masks, *name, mask);
    }
}

// Empty sets for so many formulas.
fn no_masks(alloc: Global, may: usize, sure: usize) -> Result<Masks, Memory> {
    let may = vec![in alloc; 0u64; may]?;
    let sure = vec![in alloc; 0u64; sure]?;
    Ok(Masks { may, sure })
}

// The bays on whose switches a line depends, which is noted.
fn note_below(
    alloc: Global,
    station: &Station,
    masks: &mut Masks,
    line: Line,
) -> Result<u64, Memory> {
    let names = names_of(alloc, line.formula)?;
    let mask = mask_of_all(masks, station, &names);
    add_mask(masks, line.name, mask);
    Ok(mask)
}

// The bays on whose switches each line depends.
fn bays_below(
    alloc: Global,
    station: &Station,
    lines: &[Line],
    may: usize,
    sure: usize,
) -> Result<Vec<u64>, Memory> {
    let mut masks = no_masks(alloc, may, sure)?;
    let mut found = Vec::new(alloc);
    for line in lines {
        found.push(note_below(alloc, station, &mut masks, *line)?)?;
    }
    Ok(found)
}

// The bays for whose releases a line is, which is noted for what it reads.
fn note_above(
    alloc: Global,
    station: &Station,
    masks: &mut Masks,
    line: Line,
) -> Result<u64, Memory> {
    let mask = mask_of(masks, station, line.name);
    let names = names_of(alloc, line.formula)?;
    add_to_all(masks, &names, mask);
    Ok(mask)
}

// The bays for whose releases each line is, the last line first.
fn bays_above(
    alloc: Global,
    station: &Station,
    lines: &[Line],
    may: usize,
    sure: usize,
) -> Result<Vec<u64>, Memory> {
    let mut masks = no_masks(alloc, may, sure)?;
    let mut found = vec![in alloc; 0u64; lines.len()]?;
    let mut number = lines.len();
    while number > 0 {
        number -= 1;
        let mask = note_above(alloc, station, &mut masks, lines[number])?;
        add_to(&mut found, number, mask);
    }
    Ok(found)
}

// The bay of a set of one.
fn only_bay(mask: u64) -> Option<usize>
    ensures { IfSome result (λ bay. bay < 64) }
{
    for bay in 0..64usize {
        if mask == 1u64 << bay {
            return Some(bay);
        }
    }
    None
}

// The section of what depends on one bay, or stands between bays.
fn signal_section(below: u64) -> usize
    ensures { result ≤ LAST }
{
    match only_bay(below) {
        Some(bay) => bay,
        None => BETWEEN,
    }
}

// The section of what is for the releases of one bay, or else that of what it depends on.
fn release_section(above: u64, below: u64) -> usize
    ensures { result ≤ LAST }
{
    match only_bay(above) {
        Some(bay) => FIRST_RELEASES + bay,
        None => signal_section(below),
    }
}

// The section in which a line is to stand: that of the releases of the one bay for which it is and on which it depends;
// that of the signals of the one bay on which it depends; or what stands between the bays.
fn section_of(name: Name, below: u64, above: u64) -> usize
    ensures { result ≤ LAST }
{
    if is_release(name) || (below & above) == above {
        return release_section(above, below);
    }
    signal_section(below)
}

// The section in which each line is to stand, by the bays on which it depends and for whose releases it is.
fn sections_between(
    alloc: Global,
    lines: &[Line],
    below: &[u64],
    above: &[u64],
) -> Result<Vec<usize>, Memory> {
    let mut sections = Vec::new(alloc);
    for number in 0..lines.len() {
        let under = below.get(number).copied().unwrap_or(0);
        let over = above.get(number).copied().unwrap_or(0);
        sections.push(section_of(lines[number].name, under, over))?;
    }
    Ok(sections)
}

/// The section in which each line is to stand.
pub(crate) fn sections_of(
    alloc: Global,
    station: &Station,
    lines: &[Line],
    may: usize,
    sure: usize,
) -> Result<Vec<usize>, Memory> {
    let below = bays_below(alloc, station, lines, may, sure)?;
    let above = bays_above(alloc, station, lines, may, sure)?;
    sections_between(alloc, lines, &below, &above)
}

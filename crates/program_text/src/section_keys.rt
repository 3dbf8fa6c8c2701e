//! Sections of lines: in one of no earlier section than the lines that it reads does each line stand.
ghost use Rattle.std.specs.Prelude.{◌≡◌, ◌≤◌, ◌<◌, ℕ, length, slice_get, slice_index_or, Some, IfOk, OnOk};
ghost use Rattle.structured_text.specs.declared.name.Name.{Name as OfName};
ghost use Rattle.structured_text.specs.Order.{IsInput};
ghost use Rattle.program_text.specs.declared.section_order.TheConstants.{LAST};
ghost use Rattle.program_text.specs.Sections.{key_in, section_at, IsSmall, AreSmall, AreKeysSmall, KeysRise};

use crate::bay_masks::sections_of;
use crate::read_names::names_of;
use crate::section_order::LAST;
use ilk_base::Memory;
use station_graph::Station;
use std::alloc::Global;
use structured_text::{Line, Name};

/// The section of the line of each formula, as far as it is known.
#[derive(Drop)]
pub struct Keys {
    /// of what may be
    pub may: Vec<usize>,
    /// of what is certain
    pub sure: Vec<usize>,
}

// The section of a number of a list, or the last one.
fn key_of(keys: &[usize], number: usize) -> usize
    ensures { result ≡ slice_index_or keys.now number LAST }
{
    keys.get(number).copied().unwrap_or(LAST)
}

// The section behind which a variable can be read.
fn key_at(keys: &Keys, name: Name) -> usize
    ensures { result ≡ key_in keys.now name }
{
    match name {
        Name::May(number) => key_of(&keys.may, number),
        Name::Sure(number) => key_of(&keys.sure, number),
        Name::Off(_) => 0,
        Name::On(_) => 0,
        Name::Opens(_) => LAST,
        Name::Closes(_) => LAST,
    }
}

// The later of two sections.
fn later(first: usize, second: usize) -> usize
    ensures first { first ≤ result }
    ensures second { second ≤ result }
    ensures small { first ≤ LAST → second ≤ LAST → result ≤ LAST }
{
    if first < second { second } else { first }
}

// The section of a line that reads these variables and is not to stand before another section.
fn key_behind(keys: &Keys, names: &[Name], least: usize) -> usize
    requires keys { AreSmall keys.now }
    requires least { least ≤ LAST }
    ensures names { (k : ℕ) (m : OfName) → slice_get names.now k ≡ Some m → key_in keys.now m ≤ result }
    ensures small { result ≤ LAST }
{
    let mut key = least;
    for name in names {
        key = later(key, key_at(keys, *name));
    }
    key
}

// The section of a formula is this one, or a later one that it had.
fn raise_at(keys: &mut Vec<usize>, number: usize, key: usize)
    requires key { key ≤ LAST }
    requires small { IsSmall keys.old.items }
    ensures small { IsSmall keys.new.items }
    ensures kept { (n : ℕ) → slice_index_or keys.old.items n LAST ≤ slice_index_or keys.new.items n LAST }
    ensures raised { key ≤ slice_index_or keys.new.items number LAST }
{
    if number < keys.len() {
        let raised = later(keys[number], key);
        keys[number] = raised;
    }
}

// The section of a variable is this one, or a later one that it had.
fn raise(keys: &mut Keys, name: Name, key: usize)
    requires key { key ≤ LAST }
    requires small { AreSmall keys.old }
    ensures small { AreSmall keys.new }
    ensures kept { (m : OfName) → key_in keys.old m ≤ key_in keys.new m }
    ensures raised { ¬ IsInput name → key ≤ key_in keys.new name }
{
    match name {
        Name::May(number) => raise_at(&mut keys.may, number, key),
        Name::Sure(number) => raise_at(&mut keys.sure, number, key),
        Name::Off(_) => {}
        Name::On(_) => {}
        Name::Opens(_) => {}
        Name::Closes(_) => {}
    }
}

// The first section, for each of so many formulas.
fn first_keys(alloc: Global, may: usize, sure: usize) -> Result<Keys, Memory>
    ensures { IfOk result AreSmall }
{
    let may = vec![in alloc; 0usize; may]?;
    let sure = vec![in alloc; 0usize; sure]?;
    Ok(Keys { may, sure })
}

// A section of the list, no later than the last one.
fn wish_at(wishes: &[usize], number: usize) -> usize
    ensures { result ≤ LAST }
{
    match wishes.get(number) {
        Some(wish) => { if *wish < LAST { *wish } else { LAST } }
        None => LAST,
    }
}

// The section of each line: the one that it is to have, or the latest of the lines that it reads.
fn rising_keys(
    alloc: Global,
    lines: &[Line],
    wishes: &[usize],
    may: usize,
    sure: usize,
) -> Result<Vec<usize>, Memory>
    ensures len { IfOk result (λ r. length r.items ≡ length lines.now) }
    ensures small { IfOk result (λ r. AreKeysSmall r.items) }
    ensures rise { IfOk result (λ r. KeysRise lines.now r.items (length lines.now)) }
{
    let mut keys = first_keys(alloc, may, sure)?;
    let mut sections = Vec::new(alloc);
    for i in 0..lines.len() {
        let line = lines[i];
        let names = names_of(alloc, line.formula)?;
        let section = key_behind(&keys, &names, wish_at(wishes, i));
        raise(&mut keys, line.name, section);
        sections.push(section)?;
    }
    Ok(sections)
}

/// The section of each line. First come those of the signals of each bay, then what bays are together, then those of the
/// releases of each bay; a line stands in no earlier section than those that it reads. There are so many formulas of what
/// may be, and of what is certain.
pub(crate) fn section_keys(
    alloc: Global,
    station: &Station,
    lines: &[Line],
    may: usize,
    sure: usize,
) -> Result<Vec<usize>, Memory>
    ensures len { IfOk result (λ r. length r.items ≡ length lines.now) }
    ensures small { IfOk result (λ r. AreKeysSmall r.items) }
    ensures rise { IfOk result (λ r. KeysRise lines.now r.items (length lines.now)) }
{
    let wishes = sections_of(alloc, station, lines, may, sure)?;
    rising_keys(alloc, lines, &wishes, may, sure)
}

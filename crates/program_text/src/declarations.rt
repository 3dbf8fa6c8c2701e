//! Sections of declarations.
ghost use Rattle.std.specs.Prelude.{◌≡◌, ◌++◌, length, codes, OnOk, IfOk};
ghost use Rattle.std.specs.List.{flat_map};
ghost use Rattle.structured_text.specs.declared.name.Name.{Name as OfName};
ghost use Rattle.structured_text.specs.Spelling.{names_text};
ghost use Rattle.structured_text.specs.Within.{NamesWithin};
ghost use Rattle.program_text.specs.ProgramText.{section_text, if_may, unless_may, block_inputs};

use ilk_base::{Memory, Text};
use station_graph::Station;
use std::alloc::Global;
use structured_text::{Name, write_names, write_true_names};

/// Appends a section of declarations of this kind; nothing where nothing is declared.
pub(crate) fn write_section(text: &mut Text, kind: &[u8], declared: &[u8]) -> Result<(), Memory>
    ensures { OnOk result (text.new ≡ text.old ++ section_text kind.now declared.now) }
{
    if declared.is_empty() {
        return Ok(());
    }
    text.push(kind)?;
    text.push(declared)?;
    text.push(b"END_VAR\n")?;
    Ok(())
}

/// Appends a section of these variables.
pub(crate) fn write_names_section(
    alloc: Global,
    text: &mut Text,
    station: &Station,
    kind: &[u8],
    names: &[Name],
) -> Result<(), Memory>
    requires { NamesWithin (length station.now.switches) names.now }
    ensures { OnOk result (text.new
        ≡ text.old ++ section_text kind.now (names_text station.now.switch_paths names.now)) }
{
    let mut declared = Text::new(alloc);
    write_names(&mut declared, station, names)?;
    write_section(text, kind, declared.bytes())?;
    Ok(())
}

// Adds the variable, if it is one of what may be.
fn add_may(name: Name, names: &mut Vec<Name>) -> Result<(), Memory>
    ensures { OnOk result (names.new.items ≡ names.old.items ++ if_may name) }
{
    match name {
        Name::May(_) => {
            names.push(name)?;
            Ok(())
        }
        Name::Off(_) => Ok(()),
        Name::On(_) => Ok(()),
        Name::Sure(_) => Ok(()),
        Name::Opens(_) => Ok(()),
        Name::Closes(_) => Ok(()),
    }
}

// Adds it, unless it is one of what may be.
fn add_other(name: Name, names: &mut Vec<Name>) -> Result<(), Memory>
    ensures { OnOk result (names.new.items ≡ names.old.items ++ unless_may name) }
{
    match name {
        Name::May(_) => Ok(()),
        _ => {
            names.push(name)?;
            Ok(())
        }
    }
}

// Those that are of what may be.
fn may_names(alloc: Global, names: &[Name]) -> Result<Vec<Name>, Memory>
    ensures { IfOk result (λ r. r.items ≡ flat_map (λ (n : OfName). if_may n) names.now) }
{
    let mut found = Vec::new(alloc);
    for name in names {
        add_may(*name, &mut found)?;
    }
    Ok(found)
}

// The others.
fn other_names(alloc: Global, names: &[Name]) -> Result<Vec<Name>, Memory>
    ensures { IfOk result (λ r. r.items ≡ flat_map (λ (n : OfName). unless_may n) names.now) }
{
    let mut found = Vec::new(alloc);
    for name in names {
        add_other(*name, &mut found)?;
    }
    Ok(found)
}

// The declarations of inputs of a block.
fn inputs_of(alloc: Global, station: &Station, names: &[Name]) -> Result<Text, Memory>
    requires { NamesWithin (length station.now.switches) names.now }
    ensures { IfOk result (λ t. t ≡ block_inputs station.now.switch_paths names.now) }
{
    let others = other_names(alloc, names)?;
    let may = may_names(alloc, names)?;
    let mut declared = Text::new(alloc);
    write_names(&mut declared, station, &others)?;
    write_true_names(&mut declared, station, &may)?;
    Ok(declared)
}

/// Appends the section of the inputs of a block. A call that does not give one of them leaves it as it is declared.
pub(crate) fn write_block_inputs(
    alloc: Global,
    text: &mut Text,
    station: &Station,
    names: &[Name],
) -> Result<(), Memory>
    requires { NamesWithin (length station.now.switches) names.now }
    ensures { OnOk result (text.new
        ≡ text.old ++ section_text (codes "VAR_INPUT\n") (block_inputs station.now.switch_paths names.now)) }
{
    let declared = inputs_of(alloc, station, names)?;
    write_section(text, b"VAR_INPUT\n", declared.bytes())?;
    Ok(())
}

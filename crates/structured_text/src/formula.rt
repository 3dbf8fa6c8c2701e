//! Names and formulas, as a text spells them.
ghost use Rattle.std.specs.Prelude.{◌≡◌, ◌++◌, ◌<◌, codes, decimal, length, OnOk};
ghost use Rattle.structured_text.specs.Spelling.{switch_text, name_text, pair_text, gap_text, load_text, operand_text};
ghost use Rattle.structured_text.specs.Spelling.{formula_text};
ghost use Rattle.structured_text.specs.Within.{NameWithin, IsOfFormula, GapWithin, LoadWithin, OperandWithin, FormulaWithin};

use crate::line::{Formula, GapDenial, LoadDenial, Operand};
use crate::name::Name;
use crate::readable::{last_name_start, push_readable};
use ilk_base::{Memory, SwitchId, Text};
use itoa::Buffer;
use station_graph::Station;

// Appends a number.
fn push_number(text: &mut Text, number: usize) -> Result<(), Memory>
    ensures { OnOk result (text.new ≡ text.old ++ decimal number) }
{
    let mut digits = Buffer::new();
    text.push(digits.format(number).as_bytes())
}

// Appends the identifier of a variable of a switch.
fn push_switch(text: &mut Text, station: &Station, id: SwitchId, which: &[u8]) -> Result<(), Memory>
    requires { id.0 < length station.now.switches }
    ensures { OnOk result (text.new ≡ text.old ++ switch_text station.now.switch_paths id.0 which.now) }
{
    text.push(b"sw")?;
    push_number(text, id.0 as usize)?;
    let path = station.switch_path(id).as_bytes();
    push_readable(text, path, last_name_start(path))?;
    text.push(which)
}

/// Appends the identifier of a variable.
pub(crate) fn push_name(text: &mut Text, station: &Station, name: Name) -> Result<(), Memory>
    requires { NameWithin (length station.now.switches) name }
    ensures { OnOk result (text.new ≡ text.old ++ name_text station.now.switch_paths name) }
{
    match name {
        Name::Off(id) => push_switch(text, station, id, b"_off"),
        Name::On(id) => push_switch(text, station, id, b"_on"),
        Name::May(number) => {
            text.push(b"m")?;
            push_number(text, number)
        }
        Name::Sure(number) => {
            text.push(b"c")?;
            push_number(text, number)
        }
        Name::Opens(id) => push_switch(text, station, id, b"_EnaOpn"),
        Name::Closes(id) => push_switch(text, station, id, b"_EnaCls"),
    }
}

/// Appends `A WORD B`.
pub(crate) fn push_pair(
    text: &mut Text,
    station: &Station,
    first: Name,
    word: &[u8],
    second: Name,
) -> Result<(), Memory>
    requires first { NameWithin (length station.now.switches) first }
    requires second { NameWithin (length station.now.switches) second }
    ensures { OnOk result (text.new ≡ text.old ++ pair_text station.now.switch_paths first word.now second) }
{
    push_name(text, station, first)?;
    text.push(word)?;
    push_name(text, station, second)
}

// Appends the variable of a formula.
fn push_variable(text: &mut Text, station: &Station, name: Name) -> Result<(), Memory>
    requires { IsOfFormula name }
    ensures { OnOk result (text.new ≡ text.old ++ name_text station.now.switch_paths name) }
{
    push_name(text, station, name)
}

// Appends `A WORD B` of the variables of formulas.
fn push_two(
    text: &mut Text,
    station: &Station,
    first: Name,
    word: &[u8],
    second: Name,
) -> Result<(), Memory>
    requires first { IsOfFormula first }
    requires second { IsOfFormula second }
    ensures { OnOk result (text.new ≡ text.old ++ pair_text station.now.switch_paths first word.now second) }
{
    push_pair(text, station, first, word, second)
}

// Appends that nothing makes what may be live meet what may be earthed.
fn push_gap(text: &mut Text, station: &Station, gap: GapDenial) -> Result<(), Memory>
    requires { GapWithin gap }
    ensures { OnOk result (text.new ≡ text.old ++ gap_text station.now.switch_paths gap) }
{
    match gap {
        GapDenial::One(first) => {
            text.push(b"NOT ")?;
            push_variable(text, station, first)
        }
        GapDenial::Two(first, second) => {
            text.push(b"NOT (")?;
            push_two(text, station, first, b" AND ", second)?;
            text.push(b")")
        }
    }
}

// Appends that the gap carries no load.
fn push_load(text: &mut Text, station: &Station, load: LoadDenial) -> Result<(), Memory>
    requires { LoadWithin load }
    ensures { OnOk result (text.new ≡ text.old ++ load_text station.now.switch_paths load) }
{
    match load {
        LoadDenial::Loaded(first, second) => {
            text.push(b"NOT (")?;
            push_two(text, station, first, b" AND ", second)?;
            text.push(b")")
        }
        LoadDenial::Unbonded(first, second, third) => {
            text.push(b"NOT (")?;
            push_two(text, station, first, b" AND ", second)?;
            text.push(b" AND NOT ")?;
            push_variable(text, station, third)?;
            text.push(b")")
        }
    }
}

// Appends `(A WORD B)`.
fn push_bracket(
    text: &mut Text,
    station: &Station,
    first: Name,
    word: &[u8],
    second: Name,
) -> Result<(), Memory>
    requires first { IsOfFormula first }
    requires second { IsOfFormula second }
    ensures { OnOk result (text.new ≡ text.old
        ++ (codes "(" ++ (pair_text station.now.switch_paths first word.now second ++ codes ")"))) }
{
    text.push(b"(")?;
    push_two(text, station, first, word, second)?;
    text.push(b")")
}

// Appends one side of AND or OR.
fn push_operand(text: &mut Text, station: &Station, operand: Operand) -> Result<(), Memory>
    requires { OperandWithin operand }
    ensures { OnOk result (text.new ≡ text.old ++ operand_text station.now.switch_paths operand) }
{
    match operand {
        Operand::Variable(name) => push_variable(text, station, name),
        Operand::Product(first, second) => push_bracket(text, station, first, b" AND ", second),
        Operand::Sum(first, second) => push_bracket(text, station, first, b" OR ", second),
    }
}

// Appends both sides of AND or OR.
fn push_sides(
    text: &mut Text,
    station: &Station,
    first: Operand,
    word: &[u8],
    second: Operand,
) -> Result<(), Memory>
    requires first { OperandWithin first }
    requires second { OperandWithin second }
    ensures { OnOk result (text.new ≡ text.old ++ (operand_text station.now.switch_paths first
        ++ (word.now ++ operand_text station.now.switch_paths second))) }
{
    push_operand(text, station, first)?;
    text.push(word)?;
    push_operand(text, station, second)
}

/// Appends the right side of an assignment.
pub(crate) fn push_formula(
    text: &mut Text,
    station: &Station,
    formula: Formula,
) -> Result<(), Memory>
    requires { FormulaWithin (length station.now.switches) formula }
    ensures { OnOk result (text.new ≡ text.old ++ formula_text station.now.switch_paths formula) }
{
    match formula {
        Formula::Always => text.push(b"TRUE"),
        Formula::Never => text.push(b"FALSE"),
        Formula::MayBeClosed(id) => {
            push_pair(text, station, Name::On(id), b" OR NOT ", Name::Off(id))
        }
        Formula::IsClosed(id) => {
            push_pair(text, station, Name::On(id), b" AND NOT ", Name::Off(id))
        }
        Formula::Both(first, second) => push_sides(text, station, first, b" AND ", second),
        Formula::Either(first, second) => push_sides(text, station, first, b" OR ", second),
        Formula::Apart(gap) => push_gap(text, station, gap),
        Formula::Unloaded(load) => push_load(text, station, load),
        Formula::Released(gap, load) => {
            push_gap(text, station, gap)?;
            text.push(b" AND ")?;
            push_load(text, station, load)
        }
    }
}

//! The writer of a text.
ghost use Rattle.std.specs.Prelude.{◌≡◌, ◌++◌, ◌<◌, [], codes, length, slice_index_or, OnOk};
ghost use Rattle.std.specs.List.{flat_map};
ghost use Rattle.station_graph.specs.Diagram.{part_count};
ghost use Rattle.structured_text.specs.declared.line.Line.{Line as OfLine};
ghost use Rattle.structured_text.specs.Spelling.{comment_text, heading_text, line_text, declared_text, remark_text, input_text};
ghost use Rattle.structured_text.specs.Spelling.{output_text, between_names, declared_names, names_text, true_names_text};
ghost use Rattle.structured_text.specs.Spelling.{name_text};
ghost use Rattle.structured_text.specs.Within.{NameWithin, HeadingWithin, LineWithin, LinesWithin, NamesWithin};

use crate::formula::{push_formula, push_name, push_pair};
use crate::line::{Heading, Line};
use crate::name::Name;
use crate::readable::push_shown;
use ilk_base::{Memory, SwitchId, Text};
use station_graph::Station;

// Appends a blank line and a comment.
fn push_comment(text: &mut Text, path: &[u8], what: &[u8]) -> Result<(), Memory>
    ensures { OnOk result (text.new ≡ text.old ++ comment_text path.now what.now) }
{
    text.push(b"\n  (* ")?;
    push_shown(text, path)?;
    text.push(what)?;
    text.push(b" *)\n")
}

/// Appends a comment, with a blank line above it; nothing where there is none.
pub fn write_heading(
    text: &mut Text,
    station: &Station,
    heading: Option<Heading>,
) -> Result<(), Memory>
    requires { HeadingWithin (part_count station.now) heading }
    ensures { OnOk result (text.new ≡ text.old ++ heading_text station.now heading) }
{
    match heading {
        None => Ok(()),
        Some(Heading::Signals(part)) => {
            push_comment(
                text,
                station.part_path(part).as_bytes(),
                b": what it is to the other bays",
            )
        }
        Some(Heading::Together) => push_comment(text, b"", b"what bays are together"),
        Some(Heading::Releases(part)) => {
            push_comment(text, station.part_path(part).as_bytes(), b": the releases")
        }
    }
}

/// Appends an assignment, on a line of its own, below its comment.
pub fn write_line(text: &mut Text, station: &Station, line: Line) -> Result<(), Memory>
    requires { LineWithin station.now line }
    ensures { OnOk result (text.new ≡ text.old ++ line_text station.now line) }
{
    write_heading(text, station, line.heading)?;
    text.push(b"  ")?;
    push_name(text, station, line.name)?;
    text.push(b" := ")?;
    push_formula(text, station, line.formula)?;
    text.push(b";\n")
}

/// Appends assignments, in order.
pub fn write_lines(text: &mut Text, station: &Station, lines: &[Line]) -> Result<(), Memory>
    requires { LinesWithin station.now lines.now }
    ensures { OnOk result
        (text.new ≡ text.old ++ flat_map (λ (x : OfLine). line_text station.now x) lines.now) }
{
    for line in lines {
        write_line(text, station, *line)?;
    }
    Ok(())
}

// Appends the declaration of two variables.
fn push_declared(
    text: &mut Text,
    station: &Station,
    first: Name,
    second: Name,
) -> Result<(), Memory>
    requires first { NameWithin (length station.now.switches) first }
    requires second { NameWithin (length station.now.switches) second }
    ensures { OnOk result (text.new ≡ text.old ++ declared_text station.now.switch_paths first second) }
{
    text.push(b"  ")?;
    push_pair(text, station, first, b", ", second)?;
    text.push(b" : BOOL;")
}

// Appends a path in a comment, and the end of the line.
fn push_remark(text: &mut Text, path: &[u8]) -> Result<(), Memory>
    ensures { OnOk result (text.new ≡ text.old ++ remark_text path.now) }
{
    text.push(b" (* ")?;
    push_shown(text, path)?;
    text.push(b" *)\n")
}

// Appends the path of a switch in a comment, and the end of the line.
fn push_switch_remark(text: &mut Text, station: &Station, id: SwitchId) -> Result<(), Memory>
    requires { id.0 < length station.now.switches }
    ensures { OnOk result
        (text.new ≡ text.old ++ remark_text (slice_index_or station.now.switch_paths id.0 [])) }
{
    push_remark(text, station.switch_path(id).as_bytes())
}

/// Appends the declaration of the contacts of a switch, with its path in a comment, on a line of its own.
pub fn write_input(text: &mut Text, station: &Station, id: SwitchId) -> Result<(), Memory>
    requires { id.0 < length station.now.switches }
    ensures { OnOk result (text.new ≡ text.old ++ input_text station.now.switch_paths id) }
{
    push_declared(text, station, Name::Off(id), Name::On(id))?;
    push_switch_remark(text, station, id)?;
    Ok(())
}

/// Appends the declaration of the releases of a switch, on a line of its own.
pub fn write_output(text: &mut Text, station: &Station, id: SwitchId) -> Result<(), Memory>
    requires { id.0 < length station.now.switches }
    ensures { OnOk result (text.new ≡ text.old ++ output_text station.now.switch_paths id) }
{
    push_declared(text, station, Name::Opens(id), Name::Closes(id))?;
    text.push(b"\n")
}

// Appends what stands before a name but the first.
fn push_between(text: &mut Text, number: usize) -> Result<(), Memory>
    ensures { OnOk result (text.new ≡ text.old ++ between_names number) }
{
    if number % 4 == 0 {
        return text.push(b",\n  ");
    }
    text.push(b", ")
}

// Appends the declaration of these variables, four on a line, with this end; nothing where there are none.
fn push_names(text: &mut Text, station: &Station, names: &[Name], end: &[u8]) -> Result<(), Memory>
    requires { NamesWithin (length station.now.switches) names.now }
    ensures { OnOk result (text.new
        ≡ text.old ++ declared_names station.now.switch_paths end.now names.now) }
{
    if names.is_empty() {
        return Ok(());
    }
    text.push(b"  ")?;
    push_name(text, station, names[0])?;
    for i in 1..names.len() {
        push_between(text, i)?;
        push_name(text, station, names[i])?;
    }
    text.push(end)
}

/// Appends the declaration of these variables, four on a line; nothing where there are none.
pub fn write_names(text: &mut Text, station: &Station, names: &[Name]) -> Result<(), Memory>
    requires { NamesWithin (length station.now.switches) names.now }
    ensures { OnOk result (text.new ≡ text.old ++ names_text station.now.switch_paths names.now) }
{
    push_names(text, station, names, b" : BOOL;\n")
}

/// The same for variables that are TRUE as long as nothing sets them.
pub fn write_true_names(text: &mut Text, station: &Station, names: &[Name]) -> Result<(), Memory>
    requires { NamesWithin (length station.now.switches) names.now }
    ensures { OnOk result (text.new ≡ text.old ++ true_names_text station.now.switch_paths names.now) }
{
    push_names(text, station, names, b" : BOOL := TRUE;\n")
}

/// Appends the identifier of a variable.
pub fn write_name(text: &mut Text, station: &Station, name: Name) -> Result<(), Memory>
    requires { NameWithin (length station.now.switches) name }
    ensures { OnOk result (text.new ≡ text.old ++ name_text station.now.switch_paths name) }
{
    push_name(text, station, name)
}
